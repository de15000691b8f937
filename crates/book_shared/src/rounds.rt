//! The calls of a shared book over the seat at the table, turn by turn.
ghost use Rattle.std.specs.Prelude.{ℕ, ◌≡◌, ◌+◌, ◌<◌, ◌≤◌, [], ◌∷◌, true, false, length, slice_index, IfOk, IfErr};
ghost use Rattle.std.specs.Option.{option_copied};
ghost use Rattle.book_owned.specs.FrontHalf.{FrontAccount};
ghost use Rattle.book_owned.specs.declared.handed.Handed.TheVariants as given_out;
ghost use Rattle.book_shared.specs.Basis.{idle, free, resting, last_word};
ghost use Rattle.book_shared.specs.Chairs.{GivesBack, HasTurn, HoldsNothing, MayTakeDevice, TakesNoTurn, TakesOneTurn};
ghost use Rattle.book_shared.specs.Place.{IsSingle, MayAppend};
ghost use Rattle.book_shared.specs.Plays.{at_device, given, given_device, Holds};
ghost use Rattle.book_shared.specs.Rounds.{wanted, HasTaken, HasSeized, HasPending, HasHanded, HasWritten, HasBoth, HasSeen, HasFlushed, IsTried, Lacks, answered};
ghost use Rattle.book_shared.specs.Rule.{AreOwn};
ghost use Rattle.book_shared.specs.Told.{FlushesFirst, FlushesFor, HadTurn, IsOneFlush, Tries, TriesFront};
ghost use Rattle.book_shared.specs.Turns.{Rests};
ghost use Rattle.book_shared.specs.declared.half.Half.TheVariants.{TheFront};
ghost use Rattle.book_shared.specs.declared.view.View.{View};

use crate::Try;
use crate::half::Answer;
use crate::seat::Chair;
use crate::shared::SharedBook;
use book_owned::{Flush, Handed, Shown, Written};
use mdf_disk::Disk;
use mdf_gate::Block;
use mdf_layout::Sample;
use std::sync::Wait;
use std::thread::Threads;

/// What the answer of a write is told as.
pub(crate) fn answer_of(written: &Written) -> Option<Answer>
    ensures { result ≡ answered written.now }
{
    match written {
        Written::Done { mark, block: _ } => Some(Answer::Marked(*mark)),
        Written::DiskFault {
            before,
            after,
            block: _,
        } => Some(Answer::Faulted {
            before: *before,
            after: *after,
        }),
        Written::Nothing => None,
    }
}

impl<D: Disk, V: Shown> SharedBook<D, V> {
    /// Tries to put a sample in the turn that was taken, and gives the turn back.
    pub(crate) fn try_turn(&self, seat: &mut Chair<D, V>, word: u64, sample: Sample) -> Try
        requires turn { HasTurn self.now.table seat.old word }
        requires taken { (v : View) × HasTaken v seat.old.me × MayAppend v sample }
        ensures seat { GivesBack seat.old seat.new }
        ensures had { HadTurn result }
        ensures steps { seat.new.me.0.steps ≡ seat.old.me.0.steps }
        ensures counts { TakesNoTurn seat.old.me.0 seat.new.me.0 }
        ensures rounds { seat.new.me.0.rounds ≡ seat.old.me.0.rounds }
        ensures tried { (v : View) → HasTaken v seat.old.me → IsSingle v (slice_index v.basis.owners sample.group)
            → IsTried V v seat.new.me.0 sample result }
    {
        let answer = self.try_out(seat, sample);
        self.give(seat, word, false);
        answer
    }

    /// `try_append`, over the seat at the table.
    pub(crate) fn try_at(&self, seat: &mut Chair<D, V>, sample: Sample) -> Try
        requires seat { HoldsNothing self.now.table seat.old }
        requires calm { seat.old.me.0.turn ≡ idle }
        requires may { MayAppend seat.old.me.0 sample }
        ensures seat { GivesBack seat.old seat.new }
        ensures rests { Rests seat.old.me.0 seat.new.me.0 }
        ensures tries { Tries seat.old.me.0 seat.new.me.0 sample result }
        ensures steps { HadTurn result → seat.new.me.0.steps ≡ seat.old.me.0.steps + 2 }
        ensures turns { HadTurn result → seat.new.me.0.turns ≡ seat.old.me.0.turns + 1 }
        ensures rounds { seat.new.me.0.rounds ≡ seat.old.me.0.rounds }
        ensures due { seat.new.me.0.due ≡ seat.old.me.0.due }
        ensures asked { seat.new.me.0.asked ≡ seat.old.me.0.asked }
        ensures front { TriesFront V seat.new.me.0 sample result }
    {
        match self.try_take(seat, None) {
            Ok(word) => self.try_turn(seat, word, sample),
            Err(word) => Try::Busy { word, sample },
        }
    }

    /// Gives the turn back, and then the device. Where a mark was made in the turn, it was asked for or not.
    pub(crate) fn end_round(&self, seat: &mut Chair<D, V>, word: u64, asked: bool)
        requires turn { HasTurn self.now.table seat.old word }
        requires low { word < last_word }
        requires returns { (front : FrontAccount V) × (seat.old.me.1 ≡ (0, TheFront front) ∷ [])
            × Holds asked seat.old.me.0 front
            × (given_device seat.old.me.0.device front.spare ≡ resting) }
        ensures table { seat.new.table_id ≡ seat.old.table_id }
        ensures counts { TakesNoTurn seat.old.me.0 seat.new.me.0 }
        ensures ended { (front : FrontAccount V) → seat.old.me.1 ≡ (0, TheFront front) ∷ []
            → seat.new.me ≡ (at_device (given asked seat.old.me.0 (word + 1) front) free, []) }
    {
        self.give(seat, word, asked);
        self.give_device(seat);
        self.wake();
    }

    /// Takes the device, and then the turn. So many samples are to be durable.
    pub(crate) fn device_turn<R: Wait>(
        &self,
        rt: &R,
        seat: &mut Chair<D, V>,
        due: Option<&Sample>,
        accepted: u64,
    ) -> u64
        requires may { MayTakeDevice self.now.table seat.old }
        ensures table { seat.new.table_id ≡ seat.old.table_id }
        ensures word { result ≡ seat.new.me.0.met }
        ensures seized { HasSeized (wanted seat.old.me.0 (option_copied due.entry)) seat.new.me }
    {
        self.seize_device(rt, seat, due, accepted);
        self.seize(rt, seat, None)
    }

    /// Gives the turn back, writes the block that was handed out in it, and takes the turn again.
    pub(crate) fn write_block<R: Wait>(
        &self,
        rt: &R,
        seat: &mut Chair<D, V>,
        word: u64,
        through: u64,
        block: Block,
    ) -> (u64, Written)
        requires turn { HasTurn self.now.table seat.old word }
        requires low { word < last_word }
        requires some_source { 0 < length seat.old.me.0.mine }
        requires handed { HasHanded seat.old.me (given_out.Given through block) }
        ensures table { seat.new.table_id ≡ seat.old.table_id }
        ensures written { (new : FrontAccount V) → seat.old.me.1 ≡ (0, TheFront new) ∷ []
            → HasWritten D.Disk seat.old.me word new seat.new.me result.0 result.1 }
    {
        self.give(seat, word, false);
        self.bring_out(seat);
        let written = self.write_out(seat, through, block);
        self.tell_durable(&written);
        let word = self.seize(rt, seat, answer_of(&written));
        (word, written)
    }

    /// Takes the answer of a write in, and gives the turn and the device back.
    fn flush_written<R: Threads + Wait + Sync>(
        &self,
        rt: &R,
        seat: &mut Chair<D, V>,
        word: u64,
        written: Written,
    ) -> Flush<V::Note>
        requires turn { HasTurn self.now.table seat.old word }
        requires both { (y : View) × HasBoth D.Disk y seat.old.me written }
        ensures seat { GivesBack seat.old seat.new }
        ensures counts { TakesNoTurn seat.old.me.0 seat.new.me.0 }
        ensures flushed { (y : View) → HasBoth D.Disk y seat.old.me written → (number : ℕ) → IsSingle y number
            → HasFlushed D.Disk V.Shown y seat.new.me.0 result }
        ensures wrote { (y : View) → HasBoth D.Disk y seat.old.me written → (count : ℕ) → Lacks y.seen y.kept count
            → FlushesFor count seat.new.me.0 result }
    {
        let answer = self.finish_out(rt, seat, written);
        self.bring_in(seat);
        self.end_round(seat, word, true);
        answer
    }

    /// Hands the pending records out in the turn that was taken, and writes them.
    fn flush_pending<R: Threads + Wait + Sync>(
        &self,
        rt: &R,
        seat: &mut Chair<D, V>,
        word: u64,
    ) -> Flush<V::Note>
        requires turn { HasTurn self.now.table seat.old word }
        requires pending { (v : View) × HasPending v seat.old.me × (0 < length v.mine) }
        ensures seat { GivesBack seat.old seat.new }
        ensures counts { TakesOneTurn seat.old.me.0 seat.new.me.0 }
        ensures flushed { (v : View) → HasPending v seat.old.me → (number : ℕ) → IsSingle v number
            → HasFlushed D.Disk V.Shown v seat.new.me.0 result }
        ensures wrote { (front : FrontAccount V) → seat.old.me.1 ≡ (0, TheFront front) ∷ [] → (count : ℕ)
            → Lacks front.history front.marks count
            → FlushesFor count seat.new.me.0 result }
    {
        match self.hand_out(seat) {
            Handed::Given { through, block } => {
                let (word, written) = self.write_block(rt, seat, word, through, block);
                self.flush_written(rt, seat, word, written)
            }
            Handed::Stopped { mark: _ } => unreachable!(),
            Handed::Nothing => unreachable!(),
        }
    }

    /// The first turn of a flush, without the device. At `Err` it needs a write, and this is how many samples were accepted.
    fn flush_first<R: Threads + Wait + Sync>(
        &self,
        rt: &R,
        seat: &mut Chair<D, V>,
    ) -> Result<Flush<V::Note>, u64>
        requires seat { HoldsNothing self.now.table seat.old }
        requires single { (number : ℕ) × IsSingle seat.old.me.0 number }
        ensures seat { GivesBack seat.old seat.new }
        ensures counts { TakesOneTurn seat.old.me.0 seat.new.me.0 }
        ensures rounds { seat.new.me.0.rounds ≡ seat.old.me.0.rounds }
        ensures flushed { IfOk result (λ answer. HasFlushed D.Disk V.Shown seat.old.me.0 seat.new.me.0 answer) }
        ensures first { IfOk result (λ answer. FlushesFirst seat.old.me.0 seat.new.me.0 answer) }
        ensures seen { IfErr result (λ accepted. HasSeen seat.old.me.0 seat.new.me.0 accepted) }
    {
        let word = self.seize(rt, seat, None);
        let answer = self.flush_out(rt, seat, None);
        self.give(seat, word, false);
        answer
    }

    /// The rest of a flush, by a seat that has seen the samples that were accepted in the first turn. It waits for the device, and
    /// writes where no other has made them durable by then.
    fn flush_round<R: Threads + Wait + Sync>(
        &self,
        rt: &R,
        seat: &mut Chair<D, V>,
        accepted: u64,
    ) -> Flush<V::Note>
        requires seat { HoldsNothing self.now.table seat.old }
        requires single { (number : ℕ) × IsSingle seat.old.me.0 number }
        requires accepted { accepted ≡ length seat.old.me.0.seen }
        requires own { AreOwn seat.old.me.0.basis.owners seat.old.me.0.seen seat.old.me.0.mine }
        ensures seat { GivesBack seat.old seat.new }
        ensures turns { seat.new.me.0.turns ≤ seat.old.me.0.turns + 2 }
        ensures due { seat.new.me.0.due ≡ seat.old.me.0.due }
        ensures flushed { HasFlushed D.Disk V.Shown seat.old.me.0 seat.new.me.0 result }
        ensures wrote { FlushesFor accepted seat.new.me.0 result }
    {
        let word = self.device_turn(rt, seat, None, accepted);
        match self.flush_out(rt, seat, Some(accepted)) {
            Ok(answer) => {
                self.end_round(seat, word, false);
                answer
            }
            Err(_accepted) => self.flush_pending(rt, seat, word),
        }
    }

    /// `flush`, over the seat at the table.
    pub(crate) fn flush_at<R: Threads + Wait + Sync>(
        &self,
        rt: &R,
        seat: &mut Chair<D, V>,
    ) -> Flush<V::Note>
        requires seat { HoldsNothing self.now.table seat.old }
        requires single { (number : ℕ) × IsSingle seat.old.me.0 number }
        ensures seat { GivesBack seat.old seat.new }
        ensures turns { seat.new.me.0.turns ≤ seat.old.me.0.turns + 3 }
        ensures due { seat.new.me.0.due ≡ seat.old.me.0.due }
        ensures flushed { HasFlushed D.Disk V.Shown seat.old.me.0 seat.new.me.0 result }
        ensures one { IsOneFlush seat.old.me.0 seat.new.me.0 }
        ensures first { FlushesFirst seat.old.me.0 seat.new.me.0 result }
    {
        match self.flush_first(rt, seat) {
            Ok(answer) => answer,
            Err(accepted) => self.flush_round(rt, seat, accepted),
        }
    }
}
