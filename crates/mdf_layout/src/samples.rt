ghost use Rattle.std.specs.Prelude.{◌≡◌, ◌+◌, ◌-◌, ◌<◌, ◌≤◌, [], ◌∷◌, ◌++◌, length, drop, slice_get, OnOk, OnErr, IfSome, IfNone};
ghost use Rattle.std.specs.Option.{option_copied};
ghost use Rattle.std.specs.Arc.{arc_value};
ghost use mathlib.Core.List.{IsPrefix};
ghost use Rattle.mdf_layout.specs.Chunked.{joined, AreSealed, BeginsAt, BeginsNone, Seals};

use crate::{Chunk, Chunks, Sample};
use mdf_num::Memory;
use std::alloc::Global;
use std::marker::Model;
use std::sync::Arc;

/// A list of samples, with room for more that was found beforehand. The first of them may be sealed in chunks, which can
/// be shared; those behind are copied for nobody. Contracts see the list, its spare, which is the number of samples that
/// it can take without memory, and the chunks.
#[derive(Drop)]
pub struct Samples {
    chunks: Chunks,
    tail: Vec<Sample>,
    spare: u64,
}

impl Model for Samples {
    ghost use Rattle.std.specs.Prelude.{◌+◌, ◌^◌, ◌<◌, ◌≤◌, ◌++◌, length, vec_len, vec_capacity};
    ghost use Rattle.std.specs.List.{All};
    ghost use Rattle.mdf_layout.specs.Chunked.{Chunked, joined};

    ghost Value = { Chunked };

    ghost view = { λ s. record { items = joined s.chunks ++ s.tail.items; spare = s.spare; chunks = s.chunks } };

    ghost invariant = { λ s. (length (joined s.chunks) + vec_len s.tail + s.spare < 2 ^ 64)
        × (vec_len s.tail + s.spare ≤ vec_capacity s.tail)
        × All (λ chunk. 1 ≤ length chunk) s.chunks };
}

impl Samples {
    /// The empty list. It takes no memory.
    pub fn empty(alloc: Global) -> Samples
        ensures items { result.items ≡ [] }
        ensures chunks { result.chunks ≡ [] }
    {
        Samples {
            chunks: Chunks::empty(alloc),
            tail: Vec::new(alloc),
            spare: 0,
        }
    }

    pub fn len(&self) -> u64
        ensures { result ≡ length self.now.items }
    {
        self.chunks.len() + self.tail.len() as u64
    }

    /// Sample `i`, counted from 0. None exactly at or past the end.
    pub fn get(&self, i: u64) -> Option<&Sample>
        ensures { option_copied result ≡ slice_get self.now.items i }
    {
        let sealed = self.chunks.len();
        if i < sealed {
            self.chunks.get(i)
        } else {
            self.tail.get((i - sealed) as usize)
        }
    }

    /// The samples from sample `at` on that stand in one piece, which are some where any stand there. So all are gone
    /// over without a search for each.
    pub fn part_from(&self, at: u64) -> &[Sample]
        requires { at ≤ length self.now.items }
        ensures part { IsPrefix result.now (drop at self.now.items) }
        ensures some { at < length self.now.items → 1 ≤ length result.now }
    {
        let sealed = self.chunks.len();
        if at < sealed {
            self.chunks.part_from(at)
        } else {
            &self.tail.as_slice()[(at - sealed) as usize..]
        }
    }

    /// The chunk that begins at sample `at`. None exactly where none does.
    pub fn chunk_from(&self, at: u64) -> Option<&Arc<Chunk>>
        ensures some { IfSome result (λ chunk. BeginsAt self.now.chunks at (arc_value chunk.now)) }
        ensures none { IfNone result (BeginsNone self.now.chunks at) }
        ensures sealed { AreSealed self.now.chunks self.now.items }
    {
        self.chunks.beginning_at(at)
    }

    /// Adds a sample at the end. After an error the list is as before, and the sample is dropped.
    pub fn push(&mut self, sample: Sample) -> Result<(), Memory>
        ensures ok { OnOk result (self.new.items ≡ self.old.items ++ sample ∷ []) }
        ensures err { OnErr result (self.new.items ≡ self.old.items) }
        ensures chunks { self.new.chunks ≡ self.old.chunks }
    {
        self.reserve(1)?;
        self.put(sample);
        Ok(())
    }

    /// Finds room for `more` samples. The list stays, and the spare never falls.
    pub fn reserve(&mut self, more: u64) -> Result<(), Memory>
        ensures items { self.new.items ≡ self.old.items }
        ensures room { OnOk result (more ≤ self.new.spare) }
        ensures spare { self.old.spare ≤ self.new.spare }
        ensures chunks { self.new.chunks ≡ self.old.chunks }
    {
        if more <= self.spare {
            return Ok(());
        }
        let most = u64::MAX - self.len();
        if most < more {
            return Err(Memory);
        }
        self.tail.reserve(more as usize)?;
        let room = (self.tail.capacity() - self.tail.len()) as u64;
        self.spare = room.min(most);
        Ok(())
    }

    /// Adds a sample at the end, into room that was found beforehand. It takes no memory.
    pub fn put(&mut self, sample: Sample)
        requires { 1 ≤ self.old.spare }
        ensures items { self.new.items ≡ self.old.items ++ sample ∷ [] }
        ensures spare { self.new.spare ≡ self.old.spare - 1 }
        ensures chunks { self.new.chunks ≡ self.old.chunks }
    {
        self.tail.push_reserved(sample);
        self.spare -= 1;
    }

    /// Seals the samples before sample `upto` that are not sealed yet in a chunk. Want of memory changes nothing.
    pub fn seal(&mut self, upto: u64) -> Result<(), Memory>
        requires within { upto ≤ length self.old.items }
        requires behind { length (joined self.old.chunks) ≤ upto }
        ensures items { self.new.items ≡ self.old.items }
        ensures spare { self.old.spare ≤ self.new.spare }
        ensures ok { OnOk result (Seals self.old.chunks self.old.items upto self.new.chunks) }
        ensures err { OnErr result (self.new.chunks ≡ self.old.chunks) }
        ensures sealed { AreSealed self.new.chunks self.new.items }
    {
        let sealed = self.chunks.len();
        if upto == sealed {
            return Ok(());
        }
        self.chunks
            .take_in(&mut self.tail, (upto - sealed) as usize)?;
        Ok(())
    }
}
