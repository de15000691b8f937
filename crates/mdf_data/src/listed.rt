ghost use Rattle.std.specs.Prelude.{◌≡◌, ◌+◌, ◌^◌, ◌<◌, ◌≤◌, ◌↔◌, ◌++◌, ◌∷◌, [], length, slice_get, IsTrue, OnOk, OnErr};

use mdf_num::{Memory, Numbers};
use std::alloc::Global;
use std::marker::Model;

/// Places of a stream. Contracts see them as the list. Those below 2^32 take 4 bytes each, and those from the first that is
/// not below it on take 8.
#[derive(Debug, Drop)]
pub(crate) struct Listed {
    short: Vec<u32>,
    long: Numbers,
}

impl Model for Listed {
    ghost use Rattle.std.specs.Prelude.{List, ℕ, ◌++◌, ◌+◌, ◌<◌, ◌^◌, length};

    ghost Value = { List ℕ };

    ghost view = { λ l. l.short.items ++ l.long };

    ghost invariant = { λ l. length l.short.items + length l.long < 2 ^ 62 };
}

impl Listed {
    /// No places. It takes no memory.
    pub(crate) fn empty(alloc: Global) -> Listed
        ensures { result ≡ [] }
    {
        Listed {
            short: Vec::new(alloc),
            long: Numbers::empty(alloc),
        }
    }

    pub(crate) fn len(&self) -> u64
        ensures len { result ≡ length self.now }
        ensures small { result < 2 ^ 62 }
    {
        self.short.len() as u64 + self.long.len()
    }

    /// Place `i`, counted from 0. None exactly at or past the end.
    pub(crate) fn get(&self, i: u64) -> Option<u64>
        ensures { result ≡ slice_get self.now i }
    {
        let short = self.short.len() as u64;
        if i < short {
            return Some(u64::from(self.short[i as usize]));
        }
        self.long.get(i - short).copied()
    }

    /// Whether one place more would make 2^62.
    fn is_full(&self) -> bool
        ensures { IsTrue result ↔ (2 ^ 62 ≤ length self.now + 1) }
    {
        self.len() >= (1 << 62) - 1
    }

    /// Adds a place at the end. After an error the places are as before.
    ///
    /// # Errors
    /// Want of memory, and 2^62 places count as it.
    pub(crate) fn push(&mut self, place: u64) -> Result<(), Memory>
        ensures ok { OnOk result (self.new ≡ self.old ++ place ∷ []) }
        ensures err { OnErr result (self.new ≡ self.old) }
    {
        if self.is_full() {
            return Err(Memory);
        }
        if place <= u32::MAX as u64 && self.long.is_empty() {
            self.short.push(place as u32)?;
            return Ok(());
        }
        self.long.push(place)
    }
}
