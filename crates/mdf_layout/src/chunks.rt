ghost use Rattle.std.specs.Prelude.{◌≡◌, ◌+◌, ◌^◌, ◌<◌, ◌≤◌, ℕ, [], ◌∷◌, ◌++◌, length, take, drop, slice_get, vec_len, vec_capacity, IfOk, OnOk, OnErr, IfSome, IfNone};
ghost use Rattle.std.specs.Option.{option_copied};
ghost use Rattle.std.specs.Arc.{arc_value};
ghost use mathlib.Core.List.{IsPrefix};
ghost use Rattle.mdf_layout.specs.Chunked.{joined, start_of, BeginsAt, BeginsNone};

use crate::{Chunk, Sample};
use mdf_num::Memory;
use std::alloc::Global;
use std::marker::Model;
use std::mem;
use std::sync::Arc;

/// A chunk, and how many samples stand before it.
#[derive(Drop)]
struct Part {
    start: u64,
    chunk: Arc<Chunk>,
}

/// A list of chunks, each of which may stand in other lists too. Contracts see it as the list of the chunks' samples.
#[derive(Drop)]
pub struct Chunks {
    parts: Vec<Part>,
    len: u64,
}

impl Model for Chunks {
    ghost use Rattle.std.specs.Prelude.{List};
    ghost use Rattle.mdf_layout.specs.declared.sample.Sample.{Sample};
    ghost use Rattle.mdf_layout.specs.Parts.{chunks_of, AreParts};

    ghost Value = { List (List Sample) };

    ghost view = { λ chunks. chunks_of chunks.parts.items };

    ghost invariant = { λ chunks. AreParts chunks.parts.items chunks.len };
}

/// The first samples; those behind stay. Where they fill at least half of the vector its memory goes with them, and as much is found
/// anew for those behind; else they are copied. After an error all stay.
fn detach_first(samples: &mut Vec<Sample>, count: usize) -> Result<Vec<Sample>, Memory>
    requires { count ≤ vec_len samples.old }
    ensures first { IfOk result (λ first. first.items ≡ take count samples.old.items) }
    ensures rest { OnOk result (samples.new.items ≡ drop count samples.old.items) }
    ensures err { OnErr result (samples.new.items ≡ samples.old.items) }
    ensures capacity { vec_capacity samples.old ≤ vec_capacity samples.new }
{
    let capacity = samples.capacity();
    if count < capacity - count {
        return copy_first(samples, count);
    }
    let mut rest = Vec::with_capacity(*samples.allocator(), capacity)?;
    let mut behind = samples.split_off(count)?;
    match rest.append(&mut behind) {
        Ok(()) => {}
        Err(_) => unreachable!(),
    }
    let mut first = mem::replace(samples, rest);
    first.shrink_to_fit();
    Ok(first)
}

/// The first samples in memory of their own; those behind stay. After an error all stay.
fn copy_first(samples: &mut Vec<Sample>, count: usize) -> Result<Vec<Sample>, Memory>
    requires { count ≤ vec_len samples.old }
    ensures first { IfOk result (λ first. first.items ≡ take count samples.old.items) }
    ensures rest { OnOk result (samples.new.items ≡ drop count samples.old.items) }
    ensures err { OnErr result (samples.new.items ≡ samples.old.items) }
    ensures capacity { vec_capacity samples.old ≤ vec_capacity samples.new }
{
    samples.rotate_left(count);
    let behind = samples.len() - count;
    match samples.split_off(behind) {
        Ok(first) => Ok(first),
        Err(_) => {
            samples.rotate_right(count);
            Err(Memory)
        }
    }
}

/// The first samples as a chunk; those behind stay. After an error all stay.
fn split_first(samples: &mut Vec<Sample>, count: usize) -> Result<Arc<Chunk>, Memory>
    requires { count ≤ vec_len samples.old }
    ensures chunk { IfOk result (λ chunk. arc_value chunk ≡ take count samples.old.items) }
    ensures rest { OnOk result (samples.new.items ≡ drop count samples.old.items) }
    ensures err { OnErr result (samples.new.items ≡ samples.old.items) }
    ensures capacity { vec_capacity samples.old ≤ vec_capacity samples.new }
{
    let alloc = *samples.allocator();
    let first = detach_first(samples, count)?;
    match Arc::new(alloc, Chunk::of(first)) {
        Ok(chunk) => Ok(chunk),
        Err(failed) => {
            let mut first = failed.value.into_vec();
            let behind = samples.len();
            match samples.append(&mut first) {
                Ok(()) => {
                    samples.rotate_left(behind);
                    Err(Memory)
                }
                Err(_) => unreachable!(),
            }
        }
    }
}

impl Chunks {
    /// No chunks. It takes no memory.
    pub fn empty(alloc: Global) -> Chunks
        ensures { result ≡ [] }
    {
        Chunks {
            parts: Vec::new(alloc),
            len: 0,
        }
    }

    /// How many samples the chunks have.
    pub fn len(&self) -> u64
        ensures { result ≡ length (joined self.now) }
    {
        self.len
    }

    /// How many chunks there are.
    pub fn count(&self) -> u64
        ensures { result ≡ length self.now }
    {
        self.parts.len() as u64
    }

    /// Chunk `k`, counted from 0. None exactly at or past the end.
    pub fn chunk(&self, k: u64) -> Option<&Chunk>
        ensures { option_copied result ≡ slice_get self.now k }
    {
        match self.parts.get(k as usize) {
            Some(part) => Some(&part.chunk),
            None => None,
        }
    }

    /// How many samples stand before chunk `k`; at the number of chunks and past it, how many there are.
    fn start(&self, k: u64) -> u64
        ensures { result ≡ start_of self.now k }
    {
        match self.parts.get(k as usize) {
            Some(part) => part.start,
            None => self.len,
        }
    }

    /// How many chunks begin at or before sample `at`.
    fn upto(&self, at: u64) -> usize
        ensures bound { result ≤ length self.now }
        ensures before { (k : ℕ) → k < result → start_of self.now k ≤ at }
        ensures later { (k : ℕ) → result ≤ k → k < length self.now → at < start_of self.now k }
    {
        self.parts
            .as_slice()
            .partition_point(|part| part.start <= at)
    }

    /// The samples of a chunk from sample `at` on.
    pub(crate) fn part_from(&self, at: u64) -> &[Sample]
        requires { at < length (joined self.now) }
        ensures part { IsPrefix result.now (drop at (joined self.now)) }
        ensures some { 1 ≤ length result.now }
    {
        let part = &self.parts[self.upto(at) - 1];
        part.chunk.rest(at - part.start)
    }

    /// Sample `i`, counted from 0. None exactly at or past the end.
    pub fn get(&self, i: u64) -> Option<&Sample>
        ensures { option_copied result ≡ slice_get (joined self.now) i }
    {
        if i < self.len {
            self.part_from(i).first()
        } else {
            None
        }
    }

    /// The chunk that begins at sample `at`. None exactly where none does.
    pub(crate) fn beginning_at(&self, at: u64) -> Option<&Arc<Chunk>>
        ensures some { IfSome result (λ chunk. BeginsAt self.now at (arc_value chunk.now)) }
        ensures none { IfNone result (BeginsNone self.now at) }
    {
        let count = self.upto(at);
        if count == 0 {
            return None;
        }
        let part = &self.parts[count - 1];
        if part.start == at {
            Some(&part.chunk)
        } else {
            None
        }
    }

    /// Takes in the first samples of a vector as a chunk behind the others. After an error all stays.
    pub(crate) fn take_in(&mut self, samples: &mut Vec<Sample>, count: usize) -> Result<(), Memory>
        requires count { count ≤ vec_len samples.old }
        requires room { length (joined self.old) + count < 2 ^ 64 }
        ensures ok { OnOk result (self.new ≡ self.old ++ take count samples.old.items ∷ []) }
        ensures rest { OnOk result (samples.new.items ≡ drop count samples.old.items) }
        ensures err { OnErr result (self.new ≡ self.old) }
        ensures stay { OnErr result (samples.new.items ≡ samples.old.items) }
        ensures capacity { vec_capacity samples.old ≤ vec_capacity samples.new }
    {
        self.parts.reserve(1)?;
        let chunk = split_first(samples, count)?;
        let start = self.len;
        self.len += chunk.len();
        self.parts.push_reserved(Part { start, chunk });
        Ok(())
    }

    /// Puts a chunk behind the first `keep` ones, which are then all others. It wants memory where all would have 2^64
    /// samples or more. After an error the chunks stay.
    pub fn put_behind(&mut self, keep: u64, chunk: &Arc<Chunk>) -> Result<(), Memory>
        ensures ok { OnOk result (self.new ≡ take keep self.old ++ arc_value chunk.now ∷ []) }
        ensures err { OnErr result (self.new ≡ self.old) }
    {
        let start = self.start(keep);
        let Some(len) = start.checked_add(chunk.len()) else {
            return Err(Memory);
        };
        self.parts.reserve(1)?;
        let chunk = Arc::try_clone(chunk)?;
        self.parts.truncate(keep as usize);
        self.parts.push_reserved(Part { start, chunk });
        self.len = len;
        Ok(())
    }
}
