ghost use Rattle.std.specs.Prelude.{◌≡◌, ◌+◌, ◌*◌, ◌-◌, ◌^◌, ◌<◌, min, replicate, vec_len, IfOk, OnOk, OnErr};

use mdf_num::{Memory, Span};
use std::alloc::Global;

/// How many bytes of records and of values may still be kept of a file, and how many parts of it with values. Channels may
/// name the same values, and data groups the same records, and each has its own copy of them; what no longer fits is want of
/// memory.
#[derive(Drop)]
pub struct Room {
    left: u64,
    parts: u64,
}

impl Room {
    /// Room for twice as many bytes as the file has, and for as many parts as it has bytes.
    pub fn of_file<P: Span>(span: &P) -> Room
        ensures left { result.left ≡ min (P.size span.now * 2) (2 ^ 64 - 1) }
        ensures parts { result.parts ≡ P.size span.now }
    {
        Room {
            left: span.len().saturating_mul(2),
            parts: span.len(),
        }
    }

    /// Takes room for so many parts. After an error there is as much as before.
    ///
    /// # Errors
    /// Exactly where there is less room.
    pub(crate) fn take_parts(&mut self, count: usize) -> Result<(), Memory>
        ensures ok { OnOk result (self.new.parts + count ≡ self.old.parts) }
        ensures less { OnErr result (self.old.parts < count) }
        ensures err { OnErr result (self.new ≡ self.old) }
    {
        let count = count as u64;
        if count > self.parts {
            return Err(Memory);
        }
        self.parts -= count;
        Ok(())
    }

    /// Takes room for so many bytes. After an error there is as much as before.
    ///
    /// # Errors
    /// Exactly where there is less room.
    pub(crate) fn take(&mut self, bytes: u64) -> Result<(), Memory>
        ensures ok { OnOk result (self.new.left + bytes ≡ self.old.left) }
        ensures less { OnErr result (self.old.left < bytes) }
        ensures err { OnErr result (self.new ≡ self.old) }
    {
        if bytes > self.left {
            return Err(Memory);
        }
        self.left -= bytes;
        Ok(())
    }

    /// A list of so many bytes, which are 0; the room for them is taken.
    ///
    /// # Errors
    /// Where there is less room; and want of memory.
    pub(crate) fn zeros(&mut self, alloc: Global, len: u64) -> Result<Vec<u8>, Memory>
        ensures zeros { IfOk result (λ list. list.items ≡ replicate len 0) }
        ensures len { IfOk result (λ list. vec_len list ≡ len) }
    {
        self.take(len)?;
        let mut list = Vec::with_capacity(alloc, len as usize)?;
        list.resize(len as usize, 0)?;
        Ok(list)
    }
}
