ghost use Rattle.std.specs.Prelude.{◌≡◌, ◌+◌, ◌≤◌, ◌<◌, ◌^◌, List, [], true, false, length, drop, is_some, IfOk, IfErr, IfSome, IfNone, MatchBool};
ghost use Rattle.mdf_format.specs.Cause.{Rose};
ghost use Rattle.mdf_disk.specs.State.{state_of};
ghost use Rattle.mdf_layout.specs.Record.{SampleFits, encoded_size, cost_of, history_cost, history_size};
ghost use Rattle.mdf_layout.specs.Behind.{first_id};
ghost use Rattle.mdf_layout.specs.Next.{AreNext};

use crate::flushing::{flush, make_room};
use crate::front::{accept, last_mark, reserve, size_behind};
use crate::handing::refusal;
use crate::in_memory::InMemory;
use crate::{Append, Back, Flush, Front, Mark, Marks, Shown};
use mdf_disk::Disk;
use mdf_gate::{Block, GatedFile};
use mdf_layout::{NextValues, Sample, Samples, Shapes};
use mdf_num::Memory;
use std::alloc::Global;
use std::marker::Model;
use std::sync::Wait;
use std::thread::Threads;

/// A recording in progress: the accepted samples, and the file that holds them.
pub struct Book<D: Disk, V: Shown> {
    pub(crate) front: Front<V>,
    pub(crate) back: Back<D>,
}

impl<D: Disk, V: Shown> Model for Book<D, V> {
    ghost use Rattle.book_owned.specs.Account.{Account};
    ghost use Rattle.book_owned.specs.Split.{AreHalves, book_of_halves};

    ghost Value = { Account D V };

    ghost view = { λ b. book_of_halves D.Disk b.front b.back };

    ghost invariant = { λ b. AreHalves D.Disk b.front b.back };
}

/// What a book begins with: its two blocks, the list of marks with room for one, and where the first values of variable
/// length go.
fn buffers(
    alloc: Global,
    shapes: &Shapes,
    block_limit: u32,
) -> Result<(Block, Block, Marks, NextValues), Memory>
    requires some { 1 ≤ block_limit }
    requires ids { first_id shapes.now (length shapes.now) ≤ 255 }
    ensures block { IfOk result (λ parts. (parts.0.bytes ≡ []) × (parts.0.limit ≡ block_limit)) }
    ensures spare { IfOk result (λ parts. (parts.1.bytes ≡ []) × (parts.1.limit ≡ block_limit)) }
    ensures marks { IfOk result (λ parts. (parts.2.items ≡ []) × (1 ≤ parts.2.spare)) }
    ensures next { IfOk result (λ parts. AreNext shapes.now [] parts.3) }
{
    let block = Block::with_limit(alloc, block_limit)?;
    let spare = Block::with_limit(alloc, block_limit)?;
    let mut marks = Marks::empty(alloc);
    marks.reserve(1)?;
    let next = NextValues::first(alloc, shapes)?;
    Ok((block, spare, marks, next))
}

impl<D: Disk, V: Shown> Book<D, V> {
    ghost use Rattle.book_owned.specs.Marks.{last_mark, durable};
    ghost use Rattle.book_owned.specs.Account.{Account, Steps};
    ghost use Rattle.book_owned.specs.Kept.{FitsOne, HoldsDurable, IsKept, IsShowing};
    ghost use Rattle.book_owned.specs.Begun.{IsNewFile, IsAdmissible, HasBegun};
    ghost use Rattle.book_owned.specs.Answers.{AppendAnswers, FlushAnswers, HasRoom, PassesBlock, FitsBlock, IsRefusal, accepted_by};
    ghost use Rattle.book_owned.specs.Events.{AppendEvents, PutEvents, FlushEvents};

    /// Begins a book over a file that was just created. It makes the first mark, with no sample.
    ///
    /// # Errors
    /// Want of memory, with the file and the view.
    pub fn begin(
        alloc: Global,
        file: GatedFile<D>,
        shapes: Shapes,
        block_limit: u32,
        session_limit: u64,
        view: V,
    ) -> Result<Book<D, V>, (Memory, GatedFile<D>, V)>
        requires created { IsNewFile D.Disk file }
        requires admissible { IsAdmissible shapes block_limit session_limit }
        requires nothing_shown { (V.shows view []) × (V.count view ≡ 0) }
        requires nothing_handed { (handed : List Sample) → V.hands view handed → handed ≡ [] }
        ensures begun { IfOk result (λ book. HasBegun D.Disk V.Shown file shapes block_limit session_limit view book) }
        ensures kept { IfOk result (λ book. IsKept book.terms (state_of D.Disk book.disk) book.history book.marks) }
        ensures shown { IfOk result (λ book. IsShowing V.Shown book.view book.history book.marks) }
        ensures handed_back { IfErr result (λ parts. (parts.1 ≡ file) × (parts.2 ≡ view)) }
    {
        let Ok((block, spare, mut marks, next)) = buffers(alloc, &shapes, block_limit) else {
            return Err((Memory, file, view));
        };
        marks.put(Mark {
            moment: file.moment(),
            through: 0,
        });
        let memory = InMemory {
            shapes,
            history: Samples::empty(alloc),
            marks,
            held: 0,
            block,
            spare: Some(spare),
            from: 0,
            stopped: false,
            next,
            session_limit,
            view,
        };
        Ok(Book {
            front: Front { memory },
            back: Back { file },
        })
    }

    /// Accepts a sample. Where its record would pass the block limit the pending ones are handed over first. All memory of
    /// the call but that of sealing and of the view is taken before that.
    pub fn append<R: Threads + Wait + Sync>(&mut self, rt: &R, sample: Sample) -> Append
        requires fits { SampleFits self.old.terms.layouts sample }
        requires size { encoded_size self.old.terms.layouts sample ≤ self.old.terms.block_limit }
        ensures steps { Steps self.old self.new (accepted_by result sample) }
        ensures answer { AppendAnswers D.Disk V.Shown self.old self.new sample result }
        ensures events { AppendEvents V.count self.old self.new sample result }
        ensures kept { IsKept self.new.terms (state_of D.Disk self.new.disk) self.new.history self.new.marks }
        ensures shown { IsShowing V.Shown self.new.view self.new.history self.new.marks }
        ensures later { D.faults self.old.disk ≤ D.faults self.new.disk }
        ensures clock { D.moment self.old.disk ≤ D.moment self.new.disk }
    {
        let size = self.front.memory.shapes.encoded_size(&sample);
        if let Some(refused) = refusal(&self.front.memory, &sample, size) {
            return refused;
        }
        let Ok(()) = reserve(&mut self.front.memory) else {
            return Append::Memory;
        };
        if let Err(fault) = make_room(&mut self.front.memory, &mut self.back, rt, size) {
            return Append::DiskFault {
                before: fault.before,
                after: fault.after,
            };
        }
        let place = self.front.memory.history.len();
        accept(&mut self.front.memory, sample);
        Append::Accepted { place }
    }

    /// Accepts a sample whose records have room in the block, without a call of the disk. It never answers `DiskFault`.
    pub fn put(&mut self, sample: Sample) -> Append
        requires fits { SampleFits self.old.terms.layouts sample }
        requires size { encoded_size self.old.terms.layouts sample ≤ self.old.terms.block_limit }
        requires room { FitsBlock self.old sample }
        ensures steps { Steps self.old self.new (accepted_by result sample) }
        ensures answer { AppendAnswers D.Disk V.Shown self.old self.new sample result }
        ensures events { PutEvents V.count self.old self.new sample result }
        ensures kept { IsKept self.new.terms (state_of D.Disk self.new.disk) self.new.history self.new.marks }
        ensures shown { IsShowing V.Shown self.new.view self.new.history self.new.marks }
    {
        if self.front.stopped() {
            return Append::Stopped {
                mark: self.front.last_mark(),
            };
        }
        self.front.put(sample)
    }

    /// Why a sample would not be accepted, before room for it is looked for: the book is stopped, or the sample's cost has no
    /// room in the session.
    pub fn refusal(&self, sample: &Sample) -> Option<Append>
        requires fits { SampleFits self.now.terms.layouts sample.now }
        requires size { encoded_size self.now.terms.layouts sample.now ≤ self.now.terms.block_limit }
        ensures none { IfNone result ((self.now.stopped ≡ false) × HasRoom self.now sample.now) }
        ensures refused { IfSome result (λ answer. AppendAnswers D.Disk V.Shown self.now self.now sample.now answer × (accepted_by answer sample.now ≡ [])) }
        ensures before_memory { IfSome result IsRefusal }
    {
        self.front.refusal(sample, self.front.size_of(sample))
    }

    /// Whether the pending records and those of the sample pass the block limit, so that an append of it hands over first.
    pub fn passes_block(&self, sample: &Sample) -> bool
        requires fits { SampleFits self.now.terms.layouts sample.now }
        requires size { encoded_size self.now.terms.layouts sample.now ≤ self.now.terms.block_limit }
        ensures { MatchBool result (PassesBlock self.now sample.now) (FitsBlock self.now sample.now) }
    {
        let size = self.front.memory.shapes.encoded_size(sample);
        self.pending() + size > self.front.memory.block.limit() as u64
    }

    /// Makes all accepted samples durable, seals them and publishes them. With nothing pending it makes no call of the disk
    /// and no mark.
    pub fn flush<R: Threads + Wait + Sync>(&mut self, rt: &R) -> Flush<V::Note>
        ensures steps { Steps self.old self.new [] }
        ensures answer { FlushAnswers D.Disk V.Shown self.old self.new result }
        ensures events { FlushEvents V.count self.old self.new result }
        ensures kept { IsKept self.new.terms (state_of D.Disk self.new.disk) self.new.history self.new.marks }
        ensures shown { IsShowing V.Shown self.new.view self.new.history self.new.marks }
        ensures later { D.faults self.old.disk ≤ D.faults self.new.disk }
        ensures clock { D.moment self.old.disk ≤ D.moment self.new.disk }
    {
        flush(&mut self.front.memory, &mut self.back, rt)
    }

    /// Hands everything back, without a call of the disk: the disk, the history, the marks and the view.
    pub fn close(self) -> (D, Samples, Marks, V)
        ensures disk { result.0 ≡ self.disk }
        ensures history { result.1.items ≡ self.history }
        ensures marks { result.2.items ≡ self.marks }
        ensures view { result.3 ≡ self.view }
        ensures within { history_cost self.terms.layouts self.history ≤ self.terms.session_limit }
        ensures asked { D.asked self.disk ≡ self.terms.asked }
        ensures told { is_some (D.story self.disk) ≡ self.terms.told }
        ensures content { self.stopped ≡ false → IfSome (D.content self.disk) (HoldsDurable self.terms self.history self.marks) }
        ensures kept { IsKept self.terms (state_of D.Disk self.disk) self.history self.marks }
        ensures one_block { self.stopped ≡ false → FitsOne self.terms self.history self.marks }
        ensures shown { IsShowing V.Shown self.view self.history self.marks }
    {
        let Book { front, back } = self;
        let Front { memory } = front;
        let InMemory {
            shapes: _,
            history,
            marks,
            held: _,
            block: _,
            spare: _,
            from: _,
            stopped: _,
            next: _,
            session_limit: _,
            view,
        } = memory;
        let Back { file } = back;
        (file.into_disk(), history, marks, view)
    }

    /// How many bytes the record of a sample has.
    pub fn size_of(&self, sample: &Sample) -> u64
        requires { SampleFits self.now.terms.layouts sample.now }
        ensures { result ≡ encoded_size self.now.terms.layouts sample.now }
    {
        self.front.size_of(sample)
    }

    /// What a sample costs, in bytes.
    pub fn cost_of(&self, sample: &Sample) -> u64
        requires fits { SampleFits self.now.terms.layouts sample.now }
        requires room { cost_of self.now.terms.layouts sample.now < 2 ^ 64 }
        ensures { result ≡ cost_of self.now.terms.layouts sample.now }
    {
        self.front.cost_of(sample)
    }

    /// How many bytes the records of the samples behind the last mark have.
    pub fn pending(&self) -> u64
        ensures { result ≡ history_size self.now.terms.layouts (drop (durable self.now.marks) self.now.history) }
    {
        if self.front.memory.stopped {
            let through = last_mark(&self.front.memory.marks).through;
            return size_behind(&self.front.memory, through);
        }
        self.front.pending()
    }

    /// What the history costs, in bytes.
    pub fn held(&self) -> u64
        ensures { result ≡ history_cost self.now.terms.layouts self.now.history }
    {
        self.front.held()
    }

    /// How many bytes of data a block has at most.
    pub fn block_limit(&self) -> u64
        ensures { result ≡ self.now.terms.block_limit }
    {
        self.front.block_limit()
    }

    /// What the history may cost at most, in bytes.
    pub fn session_limit(&self) -> u64
        ensures { result ≡ self.now.terms.session_limit }
    {
        self.front.session_limit()
    }

    /// The last mark.
    pub fn last_mark(&self) -> Mark
        ensures { result ≡ last_mark self.now.marks }
    {
        self.front.last_mark()
    }

    /// How many samples were accepted.
    pub fn history_len(&self) -> u64
        ensures { result ≡ length self.now.history }
    {
        self.front.history_len()
    }

    /// Whether a call was answered by a fault of the disk, which is where its file has failed. While none was, the records of
    /// the samples that are not durable fit into one block.
    pub fn stopped(&self) -> bool
        ensures stopped { result ≡ self.now.stopped }
        ensures one_block { self.now.stopped ≡ false → FitsOne self.now.terms self.now.history self.now.marks }
        ensures cause { self.now.stopped ≡ true → Rose self.now.terms.faults (D.faults self.now.disk) }
    {
        // Both or neither, and the file tells the cause.
        self.front.stopped() && self.back.file.failed()
    }
}
