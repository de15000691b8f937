ghost use Rattle.std.specs.Prelude.{◌≡◌, ◌+◌, ◌*◌, ◌^◌, ◌<◌, ◌++◌, ◌∷◌, [], length, slice_get, IfSome, OnOk, OnErr};
ghost use Rattle.mdf_data.specs.Kept.{untold};
ghost use Rattle.mdf_data.specs.Places.{steps};

use crate::listed::Listed;
use mdf_num::Memory;
use std::alloc::Global;
use std::marker::Model;

/// The places of the records of a group. Contracts see them as the list. Places at equal steps take no memory, and others 4
/// bytes each, or 8 from the first on that is not below 2^32.
#[derive(Debug, Drop)]
pub struct Places {
    even: u64,
    step: u64,
    listed: Listed,
}

impl Model for Places {
    ghost use Rattle.std.specs.Prelude.{List, ℕ, ◌++◌, ◌*◌, ◌<◌, ◌^◌};
    ghost use Rattle.mdf_data.specs.Places.{steps};

    ghost Value = { List ℕ };

    ghost view = { λ p. steps p.even p.step 0 ++ p.listed };

    ghost invariant = { λ p. (p.even < 2 ^ 62) × (p.even * p.step < 2 ^ 62) };
}

impl Places {
    /// No places. It takes no memory.
    pub fn empty(alloc: Global) -> Places
        ensures { result ≡ [] }
    {
        Places {
            even: 0,
            step: 0,
            listed: Listed::empty(alloc),
        }
    }

    /// So many places, the first at 0 and each a step behind the one before. It takes no memory.
    pub fn even(alloc: Global, count: u64, step: u64) -> Places
        requires few { count < 2 ^ 62 }
        requires small { count * step < 2 ^ 62 }
        ensures { result ≡ steps count step 0 }
    {
        Places {
            even: count,
            step,
            listed: Listed::empty(alloc),
        }
    }

    pub fn len(&self) -> u64
        ensures { result ≡ length self.now }
    {
        self.even + self.listed.len()
    }

    /// Place `i`, counted from 0. None exactly at or past the end.
    pub fn get(&self, i: u64) -> Option<u64>
        ensures { result ≡ slice_get self.now i }
    {
        if i < self.even {
            return Some(i * self.step);
        }
        self.listed.get(i - self.even)
    }

    /// The step, where all places stand at equal steps from 0 on.
    pub fn step(&self) -> Option<u64>
        ensures { IfSome result (λ step. self.now ≡ steps (length self.now) step 0) }
    {
        if self.listed.len() == 0 {
            Some(self.step)
        } else {
            None
        }
    }

    /// Adds a place at the end. After an error the places are as before.
    ///
    /// # Errors
    /// Want of memory, and 2^62 places count as it.
    pub fn push(&mut self, place: u64) -> Result<(), Memory>
        ensures ok { OnOk result (self.new ≡ self.old ++ place ∷ []) }
        ensures err { OnErr result (self.new ≡ self.old) }
    {
        self.listed.push(place)
    }

    /// Counts one place more and keeps none of them: each is told as 0. They take no memory. After an error the places are as
    /// before.
    ///
    /// # Errors
    /// 2^62 places count as want of memory.
    pub fn count(&mut self, alloc: Global) -> Result<(), Memory>
        ensures ok { OnOk result (self.new ≡ untold (length self.old + 1)) }
        ensures err { OnErr result (self.new ≡ self.old) }
    {
        let count = self.len();
        if count >= (1 << 62) - 1 {
            return Err(Memory);
        }
        *self = Places::even(alloc, count + 1, 0);
        Ok(())
    }
}
