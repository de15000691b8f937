// What the parts of a log come to.
ghost use Rattle.std.specs.Prelude.{ℕ, ◌≡◌, ◌≤◌, ◌<◌, ◌+◌, ◌*◌, ◌^◌, length, All, IfOk};
ghost use Rattle.std.specs.List.{slice_index_or};
ghost use Rattle.acq_run.specs.declared.work.Driven.{Driven};

use acq_run::Driven;
use mdf_num::Memory;
use std::alloc::Global;

/// What the parts so far come to: how many there are, how many samples they have, how many of these are durable, and how many of each source
/// were accepted.
#[derive(Drop)]
pub(crate) struct Tally {
    pub(crate) parts: u64,
    pub(crate) samples: u128,
    pub(crate) durable: u128,
    pub(crate) accepted: Vec<u128>,
    ghost few: { samples ≤ 2 ^ 64 * parts },
    ghost fewer: { durable ≤ 2 ^ 64 * parts },
    ghost each: { (source : ℕ) (d : ℕ) → source < length accepted.items → slice_index_or accepted.items source d ≤ 2 ^ 64 * parts },
}

/// Adds to each total how many samples its source accepted.
fn accept(totals: &mut Vec<u128>, all: &[Driven])
    requires sources { length all.now ≤ length totals.old.items }
    requires room { (source : ℕ) (d : ℕ) → source < length totals.old.items → slice_index_or totals.old.items source d + 2 ^ 64 ≤ 2 ^ 128 }
    ensures count { length totals.new.items ≡ length totals.old.items }
    ensures accepted { (source : ℕ) (d : ℕ) (one : Driven) → source < length all.now
        → slice_index_or totals.new.items source d ≡ slice_index_or totals.old.items source d + (slice_index_or all.now source one).accepted }
    ensures rest { (source : ℕ) (d : ℕ) → length all.now ≤ source → slice_index_or totals.new.items source d ≡ slice_index_or totals.old.items source d }
    ensures few { (source : ℕ) (d : ℕ) → slice_index_or totals.new.items source d ≤ slice_index_or totals.old.items source d + 2 ^ 64 }
{
    for source in 0..all.len() {
        totals[source] += u128::from(all[source].accepted);
    }
}

impl Tally {
    ghost use Rattle.std.specs.Prelude.{ℕ, ◌≡◌, ◌≤◌, ◌<◌, ◌+◌, ◌^◌, length, IfOk};
    ghost use Rattle.std.specs.List.{slice_index_or};
    ghost use Rattle.acq_run.specs.declared.work.Driven.{Driven};
    ghost use Rattle.mdf_log.specs.Tally.{IsNone};

    /// Of no part, with so many sources.
    pub(crate) fn new(alloc: Global, sources: usize) -> Result<Tally, Memory>
        ensures { IfOk result (IsNone sources) }
    {
        Ok(Tally {
            parts: 0,
            samples: 0,
            durable: 0,
            accepted: vec![in alloc; 0; sources]?,
        })
    }

    /// Adds a part of so many samples, of which so many are durable, and what each source did in it, unless none did anything.
    pub(crate) fn add(&mut self, samples: u64, durable: u64, all: &[Driven])
        requires room { self.old.parts + 1 < 2 ^ 64 }
        requires sources { length all.now ≤ length self.old.accepted.items }
        ensures parts { self.new.parts ≡ self.old.parts + 1 }
        ensures samples { self.new.samples ≡ self.old.samples + samples }
        ensures durable { self.new.durable ≡ self.old.durable + durable }
        ensures count { length self.new.accepted.items ≡ length self.old.accepted.items }
        ensures accepted { (source : ℕ) (d : ℕ) (one : Driven) → source < length all.now
            → slice_index_or self.new.accepted.items source d ≡ slice_index_or self.old.accepted.items source d + (slice_index_or all.now source one).accepted }
        ensures rest { (source : ℕ) (d : ℕ) → length all.now ≤ source → slice_index_or self.new.accepted.items source d ≡ slice_index_or self.old.accepted.items source d }
    {
        self.parts += 1;
        self.samples += u128::from(samples);
        self.durable += u128::from(durable);
        accept(&mut self.accepted, all);
    }
}
