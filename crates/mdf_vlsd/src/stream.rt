ghost use Rattle.std.specs.Prelude.{◌≡◌, ℕ, ◌+◌, ◌^◌, ◌<◌, ◌⊎◌, ◌↔◌, List, [], ◌++◌, length, IsNone, IfSome, IsSomeAnd, IfOk, OnOk, OnErr};
ghost use Rattle.mdf_format.specs.Number.{le_number, bytes_at};
ghost use Rattle.mdf_format.specs.Value.{IsValueAt};
ghost use Rattle.std.specs.Option.{option_map};
ghost use Rattle.mdf_vlsd.specs.Value.{value_bytes, value_at};

use mdf_num::{Bytes, Memory, Rows, u32_at};
use std::alloc::Global;
use std::marker::Model;

/// A stream of values of variable length. Contracts see it as its bytes.
#[derive(Debug, Drop)]
pub struct ValueStream {
    bytes: Bytes,
}

/// The streams of a group's channels, one after the other.
pub type Streams = Rows<ValueStream>;

impl Model for ValueStream {
    ghost use Rattle.std.specs.Prelude.{List, ℕ};

    ghost Value = { List ℕ };

    ghost view = { λ s. s.bytes };
}

impl ValueStream {
    /// The stream with no value. It takes no memory.
    pub fn empty(alloc: Global) -> ValueStream
        ensures { result ≡ [] }
    {
        ValueStream {
            bytes: Bytes::empty(alloc),
        }
    }

    /// The stream of these bytes, whatever they are. It takes no memory.
    pub fn from_bytes(bytes: Bytes) -> ValueStream
        ensures { result ≡ bytes }
    {
        ValueStream { bytes }
    }

    /// Adds a value of less than 2^32 bytes at the end, and answers its offset in bytes, which is how long the stream
    /// was. Every value that stood in the stream stays at its offset. The stream stays below 2^62 bytes.
    ///
    /// # Errors
    /// `Memory` where there was no memory. The stream is as before.
    pub fn push(&mut self, value: &[u8]) -> Result<u64, Memory>
        requires short { length value.now < 2 ^ 32 }
        requires room { length self.old + 4 + length value.now < 2 ^ 62 }
        ensures ok { OnOk result (self.new ≡ self.old ++ value_bytes value.now) }
        ensures offset { IfOk result (λ o. o ≡ length self.old) }
        ensures there { IfOk result (λ o. IsValueAt self.new o value.now) }
        ensures earlier { (o : ℕ) (v : List ℕ) → IsValueAt self.old o v → OnOk result (IsValueAt self.new o v) }
        ensures err { OnErr result (self.new ≡ self.old) }
    {
        let offset = self.len();
        let size = (value.len() as u32).to_le_bytes();
        self.bytes.push_pair(&size, value)?;
        Ok(offset)
    }

    /// How many bytes the stream has.
    pub fn len(&self) -> u64
        ensures { result ≡ length self.now }
    {
        self.bytes.as_slice().len() as u64
    }

    /// The bytes of the stream.
    pub fn bytes(&self) -> &[u8]
        ensures { result.now ≡ self.now }
    {
        self.bytes.as_slice()
    }

    /// The value at an offset. None exactly where the stream has no 4 bytes there, or fewer bytes behind them than
    /// they say.
    pub fn value_at(&self, offset: u64) -> Option<&[u8]>
        ensures value { IfSome result (λ v. IsValueAt self.now offset v.now) }
        ensures found { (v : List ℕ) → IsValueAt self.now offset v → IsSomeAnd result (λ w. w.now ≡ v) }
        ensures none { IsNone result
            ↔ ((length self.now < offset + 4) ⊎ (length self.now < offset + 4 + le_number (bytes_at 4 self.now offset))) }
        ensures is { option_map (λ v. v.now) result ≡ value_at self.now offset }
    {
        let stream = self.bytes.as_slice();
        let size = u32_at(stream, offset)? as usize;
        let start = offset as usize + 4;
        if size > stream.len() - start {
            return None;
        }
        Some(&stream[start..start + size])
    }
}
