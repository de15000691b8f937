//! An append of a shared book over the seat at the table, round by round.
ghost use Rattle.std.specs.Prelude.{◌≡◌, ◌+◌, ◌<◌, ◌≤◌, slice_index};
ghost use Rattle.book_shared.specs.Chairs.{GivesBack, HasTurn, HoldsNothing, TakesNoTurn, TakesOneTurn};
ghost use Rattle.book_shared.specs.Place.{IsSingle, MayAppend};
ghost use Rattle.book_shared.specs.Rounds.{HasBoth, HasFull, HasTried, IsOneRound, round_answer, WasFull};
ghost use Rattle.book_shared.specs.Told.{Announces, Appends, AppendsFront, IsOneTurn};
ghost use Rattle.book_shared.specs.Turns.{HasTurnsFor, OnlyDue, Rests};
ghost use Rattle.book_shared.specs.declared.view.View.{View};

use crate::Try;
use crate::half::Answer;
use crate::rounds::answer_of;
use crate::seat::Chair;
use crate::shared::SharedBook;
use book_owned::{Append, Handed, Shown, Written};
use mdf_disk::Disk;
use mdf_layout::Sample;
use std::sync::Wait;
use std::thread::Threads;

/// The answer of a round: that of its write where it met a fault, and else that of its put.
fn with_fault(told: Option<Answer>, answer: Try) -> Try
    ensures { result ≡ round_answer told answer }
{
    match told {
        Some(Answer::Faulted { before, after }) => {
            drop(answer);
            Try::Answered(Append::DiskFault { before, after })
        }
        Some(Answer::Marked(_mark)) => answer,
        None => answer,
    }
}

impl<D: Disk, V: Shown> SharedBook<D, V> {
    /// Takes the answer of a write in, tries to put the sample in the same turn, and gives the turn and the device back.
    pub(crate) fn append_written<R: Threads + Wait + Sync>(
        &self,
        rt: &R,
        seat: &mut Chair<D, V>,
        word: u64,
        written: Written,
        sample: Sample,
    ) -> Try
        requires turn { HasTurn self.now.table seat.old word }
        requires both { (y : View) × HasBoth D.Disk y seat.old.me written × MayAppend y sample × WasFull y sample }
        ensures seat { GivesBack seat.old seat.new }
        ensures counts { TakesNoTurn seat.old.me.0 seat.new.me.0 }
        ensures tried { (y : View) → HasBoth D.Disk y seat.old.me written
            → IsSingle y (slice_index y.basis.owners sample.group)
            → HasTried D.Disk V.Shown y seat.new.me.0 sample result }
    {
        let told = answer_of(&written);
        drop(self.finish_out(rt, seat, written));
        let answer = self.try_out(seat, sample);
        self.bring_in(seat);
        self.end_round(seat, word, false);
        with_fault(told, answer)
    }
    /// Hands the pending records over, which are a full block, writes them, and tries to put the sample behind them.
    fn append_full<R: Threads + Wait + Sync>(
        &self,
        rt: &R,
        seat: &mut Chair<D, V>,
        word: u64,
        sample: Sample,
    ) -> Try
        requires turn { HasTurn self.now.table seat.old word }
        requires full { (v : View) × HasFull v seat.old.me sample × MayAppend v sample }
        ensures seat { GivesBack seat.old seat.new }
        ensures counts { TakesOneTurn seat.old.me.0 seat.new.me.0 }
        ensures tried { (v : View) → HasFull v seat.old.me sample
            → IsSingle v (slice_index v.basis.owners sample.group)
            → HasTried D.Disk V.Shown v seat.new.me.0 sample result }
    {
        match self.hand_out(seat) {
            Handed::Given { through, block } => {
                let (word, written) = self.write_block(rt, seat, word, through, block);
                self.append_written(rt, seat, word, written, sample)
            }
            Handed::Stopped { mark: _ } => unreachable!(),
            Handed::Nothing => unreachable!(),
        }
    }

    /// Takes the device and the turn, and tries to put the sample. Where the block is full then too, hands it over.
    fn append_round<R: Threads + Wait + Sync>(
        &self,
        rt: &R,
        seat: &mut Chair<D, V>,
        sample: Sample,
    ) -> Try
        requires seat { HoldsNothing self.now.table seat.old }
        requires may { MayAppend seat.old.me.0 sample }
        ensures seat { GivesBack seat.old seat.new }
        ensures turns { seat.new.me.0.turns ≤ seat.old.me.0.turns + 2 }
        ensures due { OnlyDue seat.old.me.0 seat.new.me.0 sample }
        ensures tried { HasTried D.Disk V.Shown seat.old.me.0 seat.new.me.0 sample result }
    {
        let word = self.device_turn(rt, seat, Some(&sample), 0);
        match self.try_out(seat, sample) {
            Try::NeedsFlush {
                held: _,
                size: _,
                limit: _,
                sample,
            } => self.append_full(rt, seat, word, sample),
            Try::Answered(answer) => {
                self.end_round(seat, word, false);
                Try::Answered(answer)
            }
            Try::Busy { word: _, sample: _ } => unreachable!(),
        }
    }

    /// Tries to put the sample in a turn, and takes the device where the block is full.
    fn append_once<R: Threads + Wait + Sync>(
        &self,
        rt: &R,
        seat: &mut Chair<D, V>,
        sample: Sample,
    ) -> Try
        requires seat { HoldsNothing self.now.table seat.old }
        requires may { MayAppend seat.old.me.0 sample }
        ensures seat { GivesBack seat.old seat.new }
        ensures turns { seat.new.me.0.turns ≤ seat.old.me.0.turns + 3 }
        ensures due { OnlyDue seat.old.me.0 seat.new.me.0 sample }
        ensures one { IsOneRound seat.old.me.0 seat.new.me.0 sample result }
        ensures announces { Announces seat.old.me.0 seat.new.me.0 sample }
        ensures tried { HasTried D.Disk V.Shown seat.old.me.0 seat.new.me.0 sample result }
    {
        let word = self.seize(rt, seat, None);
        match self.try_turn(seat, word, sample) {
            Try::NeedsFlush {
                held: _,
                size: _,
                limit: _,
                sample,
            } => self.append_round(rt, seat, sample),
            Try::Answered(answer) => Try::Answered(answer),
            Try::Busy { word: _, sample: _ } => unreachable!(),
        }
    }

    /// `append`, over the seat at the table.
    pub(crate) fn append_at<R: Threads + Wait + Sync>(
        &self,
        rt: &R,
        seat: &mut Chair<D, V>,
        sample: Sample,
    ) -> Append
        requires seat { HoldsNothing self.now.table seat.old }
        requires may { MayAppend seat.old.me.0 sample }
        ensures seat { GivesBack seat.old seat.new }
        ensures turns { HasTurnsFor 3 seat.old.me.0 seat.new.me.0 }
        ensures due { OnlyDue seat.old.me.0 seat.new.me.0 sample }
        ensures one { IsOneTurn seat.old.me.0 seat.new.me.0 sample }
        ensures announces { Announces seat.old.me.0 seat.new.me.0 sample }
        ensures rests { Rests seat.old.me.0 seat.new.me.0 }
        ensures appends { Appends seat.old.me.0 seat.new.me.0 sample result }
        ensures asked { seat.new.me.0.asked ≡ seat.old.me.0.asked }
        ensures front { AppendsFront D.Disk V.Shown seat.new.me.0 sample result }
    {
        let mut left = sample;
        for _ in rt.forever() {
            match self.append_once(rt, seat, left) {
                Try::Answered(answer) => return answer,
                Try::NeedsFlush {
                    held: _,
                    size: _,
                    limit: _,
                    sample,
                } => left = sample,
                Try::Busy { word: _, sample: _ } => unreachable!(),
            }
        }
        unreachable!()
    }
}
