//! A shared book and its calls.
ghost use Rattle.std.specs.Prelude.{◌≡◌, ◌+◌, ◌≤◌, slice_index};
ghost use Rattle.mdf_layout.specs.Record.{SampleFits, encoded_size};
ghost use Rattle.book_shared.specs.Place.{KeepsSeat};
ghost use Rattle.book_shared.specs.Turns.{HasTurnsFor, OnlyDue};
ghost use Rattle.book_shared.specs.Told.{Announces, Appends, Tries, Flushes, FlushesFirst, FlushesSeen, HadTurn, Asks, IsNoted, IsOneFlush, IsOneTurn, AppendsFront, TriesFront, FlushesFront};

use crate::Try;
use crate::fixed::Fixed;
use crate::half::Half;
use crate::rule::Running;
use crate::seat::SourceSeat;
use crate::view::View;
use atomic_table::{Badge, Table};
use book_owned::{Append, Back, Flush, Front, Shown};
use mdf_disk::Disk;
use mdf_layout::Sample;
use std::alloc::Global;
use std::marker::Model;
use std::mem;
use std::sync::Wait;
use std::sync::atomic::AtomicU64;
use std::thread::Threads;

/// A book that the seats of several sources share. Its front and its back lie in a slot each. A seat that changes the turn word
/// from an even number to the next odd one takes the front out, and gives it back when it changes the word to the next even one;
/// a seat that changes the device's word from 0 to 1 may take the back out to write.
pub struct SharedBook<D: Disk, V: Shown> {
    pub(crate) table: Table<
        Half<Front<V>, Back<D>>,
        View,
        Fixed<Front<V>, Back<D>>,
        Running,
        Global,
    >,
    /// How often a seat has given the device back. Who waits for it or for the turn sleeps on this. No promise rests on it.
    pub(crate) flushes: AtomicU64,
    /// How many seats wait for the device. No promise rests on it.
    pub(crate) waiting: AtomicU64,
    /// Through how many samples the last write went. Who waits for the device and needs no write by it goes first. No promise
    /// rests on it.
    pub(crate) durable: AtomicU64,
}

impl<D: Disk, V: Shown> Model for SharedBook<D, V> {
    ghost use Rattle.std.specs.Prelude.{◌≡◌, ◌<◌};
    ghost use Rattle.book_shared.specs.Place.{Common};
    ghost use Rattle.book_shared.specs.Fixed.{basis_of};

    ghost Value = { Common };

    ghost view = { λ book. record { table = book.table.shared.table_id; basis = basis_of D.Disk book.table.shared.key } };

    ghost invariant = { λ book. (book.table.shared.table_id.words ≡ 2) × (book.table.shared.table_id.slots ≡ 2) × (0 < book.table.shared.key.sources) };
}

impl<D: Disk, V: Shown> SharedBook<D, V> {
    /// Accepts a sample of the seat's source, and waits for the turn where another seat has it. Where the sample's record
    /// would pass the block limit, it waits for the device, hands the pending ones over and writes them; while it writes the
    /// others go on.
    pub fn append<R: Threads + Wait + Sync>(
        &self,
        rt: &R,
        seat: &mut SourceSeat,
        sample: Sample,
    ) -> Append
        requires table { seat.old.table ≡ self.now.table }
        requires owns { slice_index seat.old.know.basis.owners sample.group ≡ seat.old.number }
        requires fits { SampleFits seat.old.know.basis.terms.layouts sample }
        requires size { encoded_size seat.old.know.basis.terms.layouts sample ≤ seat.old.know.basis.terms.block_limit }
        ensures seat { KeepsSeat seat.old seat.new }
        ensures appends { Appends seat.old.know seat.new.know sample result }
        ensures turns { HasTurnsFor 3 seat.old.know seat.new.know }
        ensures one { IsOneTurn seat.old.know seat.new.know sample }
        ensures announces { Announces seat.old.know seat.new.know sample }
        ensures asked { seat.new.know.asked ≡ seat.old.know.asked }
        ensures due { OnlyDue seat.old.know seat.new.know sample }
        ensures front { AppendsFront D.Disk V.Shown seat.new.know sample result }
    {
        let mut chair = mem::replace(&mut seat.badge, Badge::blank()).into_seat();
        let answer = self.append_at(rt, &mut chair, sample);
        seat.badge = chair.into_badge();
        answer
    }

    /// Accepts a sample of the seat's source where that needs neither the turn of another seat nor a call of the disk. It
    /// waits for nothing: it loads the turn word once and exchanges it at most once.
    pub fn try_append(&self, seat: &mut SourceSeat, sample: Sample) -> Try
        requires table { seat.old.table ≡ self.now.table }
        requires owns { slice_index seat.old.know.basis.owners sample.group ≡ seat.old.number }
        requires fits { SampleFits seat.old.know.basis.terms.layouts sample }
        requires size { encoded_size seat.old.know.basis.terms.layouts sample ≤ seat.old.know.basis.terms.block_limit }
        ensures seat { KeepsSeat seat.old seat.new }
        ensures tries { Tries seat.old.know seat.new.know sample result }
        ensures steps { HadTurn result → seat.new.know.steps ≡ seat.old.know.steps + 2 }
        ensures turns { HadTurn result → seat.new.know.turns ≡ seat.old.know.turns + 1 }
        ensures rounds { seat.new.know.rounds ≡ seat.old.know.rounds }
        ensures asked { seat.new.know.asked ≡ seat.old.know.asked }
        ensures due { seat.new.know.due ≡ seat.old.know.due }
        ensures front { TriesFront V seat.new.know sample result }
    {
        let mut chair = mem::replace(&mut seat.badge, Badge::blank()).into_seat();
        let answer = self.try_at(&mut chair, sample);
        seat.badge = chair.into_badge();
        answer
    }

    /// Makes all samples durable that were accepted when it has its first turn, those of the other sources too, and publishes them.
    /// It waits for the device and for the turn where another seat has them; while it writes the others go on. It writes nothing where
    /// they were durable then, or another has written them while it waited for the device.
    pub fn flush<R: Threads + Wait + Sync>(&self, rt: &R, seat: &mut SourceSeat) -> Flush<V::Note>
        requires table { seat.old.table ≡ self.now.table }
        ensures seat { KeepsSeat seat.old seat.new }
        ensures flushes { Flushes seat.old.know seat.new.know result }
        ensures turns { seat.new.know.turns ≤ seat.old.know.turns + 3 }
        ensures one { IsOneFlush seat.old.know seat.new.know }
        ensures seen { FlushesSeen seat.old.know result }
        ensures first { FlushesFirst seat.old.know seat.new.know result }
        ensures asked { Asks seat.old.know seat.new.know result }
        ensures due { seat.new.know.due ≡ seat.old.know.due }
        ensures noted { IsNoted V.Shown seat.new.know result }
        ensures front { FlushesFront D.Disk V.Shown seat.new.know result }
    {
        let mut chair = mem::replace(&mut seat.badge, Badge::blank()).into_seat();
        let answer = self.flush_at(rt, &mut chair);
        seat.badge = chair.into_badge();
        answer
    }
}
