ghost use Rattle.std.specs.Prelude.{◌≡◌, ◌+◌, ◌≤◌, ◌<◌, ◌^◌, [], true, false, length, IfSome, IfNone, MatchBool};
ghost use Rattle.mdf_layout.specs.Record.{SampleFits, encoded_size, cost_of, history_cost, history_size};

use crate::front::{accept, last_mark, reserve, size_behind};
use crate::handing::{finish, hand_over, refusal};
use crate::in_memory::InMemory;
use crate::{Append, Flush, Handed, Mark, Shown, Written};
use mdf_layout::Sample;
use std::marker::Model;
use std::sync::Wait;
use std::thread::Threads;

/// The history, the marks and the view of a book. It has two blocks: one that takes records, and a spare one, which is away
/// while its records are written.
pub struct Front<V: Shown> {
    pub(crate) memory: InMemory<V>,
}

impl<V: Shown> Model for Front<V> {
    ghost use Rattle.book_owned.specs.FrontHalf.{FrontAccount, IsFront, front_account};

    ghost Value = { FrontAccount V };

    ghost view = { λ f. front_account V.Shown f.memory };

    ghost invariant = { λ f. IsFront V.Shown f.memory };
}

impl<V: Shown> Front<V> {
    ghost use Rattle.book_owned.specs.Marks.{last_mark, durable};
    ghost use Rattle.book_owned.specs.Answers.{IsRefusal, accepted_by};
    ghost use Rattle.book_owned.specs.FrontHalf.{IsSteady, FrontRoom, FrontFits, FrontPasses, FrontFitsWith, FrontPassesWith, PutTells, HandTells, IsAwaited, FinishTells, FrontPutEvents, FinishEvents, behind};

    /// Accepts a sample whose records have room in the block. It never answers `DiskFault`.
    #[inline(always)]
    pub fn put(&mut self, sample: Sample) -> Append
        requires fits { SampleFits self.old.terms.layouts sample }
        requires size { encoded_size self.old.terms.layouts sample ≤ self.old.terms.block_limit }
        requires room { FrontFits self.old sample }
        ensures tells { PutTells self.old self.new sample result }
        ensures events { FrontPutEvents V.count self.old self.new sample result }
        ensures steady { IsSteady V.Shown self.new }
    {
        let size = self.size_of(&sample);
        self.put_sized(sample, size)
    }

    /// `put` of a sample whose record has this size, in bytes.
    #[inline(always)]
    pub fn put_sized(&mut self, sample: Sample, size: u64) -> Append
        requires fits { SampleFits self.old.terms.layouts sample }
        requires size_is { size ≡ encoded_size self.old.terms.layouts sample }
        requires size { encoded_size self.old.terms.layouts sample ≤ self.old.terms.block_limit }
        requires room { FrontFits self.old sample }
        ensures tells { PutTells self.old self.new sample result }
        ensures events { FrontPutEvents V.count self.old self.new sample result }
        ensures steady { IsSteady V.Shown self.new }
    {
        if let Some(refused) = refusal(&self.memory, &sample, size) {
            return refused;
        }
        let Ok(()) = reserve(&mut self.memory) else {
            return Append::Memory;
        };
        let place = self.memory.history.len();
        accept(&mut self.memory, sample);
        Append::Accepted { place }
    }

    /// Gives the block of the pending records out, and goes on with the spare one. It takes no memory.
    pub fn hand_over(&mut self) -> Handed
        requires spare { self.old.spare ≡ true }
        ensures tells { HandTells self.old self.new result }
        ensures steady { IsSteady V.Shown self.new }
    {
        hand_over(&mut self.memory)
    }

    /// Takes in what became of the block that was handed over, or `Nothing` where none was. The block is cleared and is the
    /// spare one. A mark is added, and the durable samples are sealed and shown, or the front is stopped. It takes no memory
    /// but for sealing and showing, and where none is found fewer samples are shown.
    pub fn finish<R: Threads + Wait + Sync>(&mut self, rt: &R, written: Written) -> Flush<V::Note>
        requires awaited { IsAwaited self.old written }
        ensures tells { FinishTells V.Shown self.old self.new written result }
        ensures events { FinishEvents V.count self.old self.new written }
        ensures steady { IsSteady V.Shown self.new }
    {
        finish(&mut self.memory, rt, written)
    }

    /// Why a sample whose record has this size, in bytes, would not be accepted, before room for it is looked for: the front
    /// is stopped, or the sample's cost has no room in the session.
    pub fn refusal(&self, sample: &Sample, size: u64) -> Option<Append>
        requires fits { SampleFits self.now.terms.layouts sample.now }
        requires size_is { size ≡ encoded_size self.now.terms.layouts sample.now }
        requires size { encoded_size self.now.terms.layouts sample.now ≤ self.now.terms.block_limit }
        ensures none { IfNone result ((self.now.stopped ≡ false) × FrontRoom self.now sample.now) }
        ensures refused { IfSome result (λ answer. PutTells self.now self.now sample.now answer × (accepted_by answer sample.now ≡ [])) }
        ensures before_memory { IfSome result IsRefusal }
    {
        refusal(&self.memory, sample, size)
    }

    /// Whether the pending records and those of the sample pass the block limit.
    pub fn passes_block(&self, sample: &Sample) -> bool
        requires fits { SampleFits self.now.terms.layouts sample.now }
        requires size { encoded_size self.now.terms.layouts sample.now ≤ self.now.terms.block_limit }
        ensures { MatchBool result (FrontPasses self.now sample.now) (FrontFits self.now sample.now) }
    {
        self.passes_with(self.size_of(sample))
    }

    /// Whether the pending records and so many bytes more pass the block limit.
    pub fn passes_with(&self, size: u64) -> bool
        requires small { size ≤ self.now.terms.block_limit }
        ensures { MatchBool result (FrontPassesWith self.now size) (FrontFitsWith self.now size) }
    {
        let limit = self.memory.block.limit() as u64;
        self.pending() + size > limit
    }

    /// Whether it has its spare block: false just between a block that was handed over and what became of it.
    pub fn spare(&self) -> bool
        ensures is { result ≡ self.now.spare }
        ensures lent { result ≡ false → durable self.now.marks < length self.now.history }
    {
        self.memory.spare.is_some()
    }

    /// How many bytes the record of a sample has.
    pub fn size_of(&self, sample: &Sample) -> u64
        requires { SampleFits self.now.terms.layouts sample.now }
        ensures { result ≡ encoded_size self.now.terms.layouts sample.now }
    {
        self.memory.shapes.encoded_size(sample)
    }

    /// What a sample costs, in bytes.
    pub fn cost_of(&self, sample: &Sample) -> u64
        requires fits { SampleFits self.now.terms.layouts sample.now }
        requires room { cost_of self.now.terms.layouts sample.now < 2 ^ 64 }
        ensures { result ≡ cost_of self.now.terms.layouts sample.now }
    {
        self.memory.shapes.cost_of(sample)
    }

    /// How many bytes the records of the samples behind the last hand-over have.
    pub fn pending(&self) -> u64
        ensures { result ≡ history_size self.now.terms.layouts (behind self.now) }
    {
        if self.memory.stopped {
            return size_behind(&self.memory, self.memory.from);
        }
        self.memory.block.len() as u64
    }

    /// What the history costs, in bytes.
    pub fn held(&self) -> u64
        ensures { result ≡ history_cost self.now.terms.layouts self.now.history }
    {
        self.memory.held
    }

    /// How many bytes of data a block has at most.
    pub fn block_limit(&self) -> u64
        ensures { result ≡ self.now.terms.block_limit }
    {
        self.memory.block.limit() as u64
    }

    /// What the history may cost at most, in bytes.
    pub fn session_limit(&self) -> u64
        ensures { result ≡ self.now.terms.session_limit }
    {
        self.memory.session_limit
    }

    /// The last mark.
    pub fn last_mark(&self) -> Mark
        ensures { result ≡ last_mark self.now.marks }
    {
        last_mark(&self.memory.marks)
    }

    /// How many samples were accepted.
    pub fn history_len(&self) -> u64
        ensures { result ≡ length self.now.history }
    {
        self.memory.history.len()
    }

    /// Whether the book that was split was stopped, or the disk failed since.
    pub fn stopped(&self) -> bool
        ensures stopped { result ≡ self.now.stopped }
        ensures steady { IsSteady V.Shown self.now }
    {
        self.memory.stopped
    }
}
