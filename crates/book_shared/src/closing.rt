//! How a shared book is closed.
ghost use Rattle.std.specs.Prelude.{ℕ, ◌≡◌, ◌<◌, [], length};
ghost use mathlib.Core.Option.{some};
ghost use lib.ListN.{get_elem?};
ghost use Rattle.std.specs.Mem.Slots.{slots_items, slots_len, IsFull};
ghost use Rattle.mdf_gate.specs.Gated.{Gated};
ghost use Rattle.mdf_layout.specs.declared.sample.Sample.{Sample};
ghost use Rattle.book_owned.specs.FrontHalf.{FrontAccount};
ghost use Rattle.book_owned.specs.Split.{AreHalves, book_of_halves};
ghost use Rattle.book_shared.specs.Basis.{idle, free};
ghost use Rattle.book_shared.specs.Covers.{AreCovered};
ghost use Rattle.book_shared.specs.Place.{IsSingle};
ghost use Rattle.book_shared.specs.Causes.{IsAmong, MarksCaused};
ghost use Rattle.book_shared.specs.Rule.{AreOfSources, asks, total};
ghost use Rattle.book_shared.specs.Seats.{AreOf, AskedBy, DueBy, HasNumber, Closes};
ghost use Rattle.book_shared.specs.declared.half.Half.TheVariants.{TheFront, TheBack};

use crate::half::Half;
use crate::halves::{back_of, front_of};
use crate::rule::Both;
use crate::seat::{Chair, SourceSeat};
use crate::shared::SharedBook;
use atomic_table::Closed;
use book_owned::{Back, Book, Front, Shown};
use mdf_disk::Disk;
use std::alloc::Global;

/// The seat at the table.
fn chair_of<D: Disk, V: Shown>(seat: SourceSeat) -> Chair<D, V>
    ensures table { result.table_id ≡ seat.table }
    ensures know { result.me ≡ (seat.know, []) }
    ensures calm { seat.know.turn ≡ idle }
    ensures no_device { seat.know.device ≡ free }
    ensures single { IsSingle seat.know seat.number }
{
    let SourceSeat {
        badge,
        number: _,
        owners: _,
    } = seat;
    badge.into_seat()
}

/// Joins all seats into one.
fn gather<D: Disk, V: Shown>(book: &SharedBook<D, V>, mut seats: Vec<SourceSeat>) -> Chair<D, V>
    requires table { AreOf book.now.table seats.items }
    requires some_seat { 0 < length seats.items }
    ensures table { result.table_id ≡ book.now.table }
    ensures free { result.me.1 ≡ [] }
    ensures calm { result.me.0.turn ≡ idle }
    ensures no_device { result.me.0.device ≡ free }
    ensures covers { AreCovered result.me.0 seats.items }
    ensures asked { (n : ℕ) → asks n result.me.0 ≡ total (λ seat. asks n seat.know) seats.items }
    ensures due { (sample : Sample) → IsAmong result.me.0.due sample → DueBy seats.items sample }
{
    let mut whole = match seats.pop() {
        Some(seat) => chair_of(seat),
        None => unreachable!(),
    };
    while let Some(seat) = seats.pop() {
        book.table
            .shared
            .join_seat::<Both>(&mut whole, chair_of(seat));
    }
    whole
}

/// The book of the halves in the slots.
fn book_of<D: Disk, V: Shown>(mut closed: Closed<Half<Front<V>, Back<D>>, Global>) -> Book<D, V>
    requires count { slots_len closed.slots ≡ 2 }
    requires full { IsFull closed.slots }
    requires halves { (front : FrontAccount V) × (back : Gated D) × (get_elem? (slots_items closed.slots) 0 ≡ some (TheFront front))
        × (get_elem? (slots_items closed.slots) 1 ≡ some (TheBack back)) × AreHalves D.Disk front back }
    ensures { (front : FrontAccount V) (back : Gated D) → get_elem? (slots_items closed.slots) 0 ≡ some (TheFront front)
        → get_elem? (slots_items closed.slots) 1 ≡ some (TheBack back) → result ≡ book_of_halves D.Disk front back }
{
    let front = front_of(closed.take(0));
    let back = back_of(closed.take(1));
    closed.free();
    Book::join(front, back)
}

impl<D: Disk, V: Shown> SharedBook<D, V> {
    /// Takes all seats back, and hands out the book.
    pub fn close(self, seats: Vec<SourceSeat>) -> Book<D, V>
        requires table { AreOf self.table seats.items }
        requires all { (number : ℕ) → number < self.basis.sources → HasNumber number seats.items }
        ensures terms { result.terms ≡ self.basis.terms }
        ensures seats { Closes self.basis result seats.items }
        ensures sources { AreOfSources self.basis result.history }
        ensures marks { MarksCaused (AskedBy seats.items) (DueBy seats.items) self.basis.terms.layouts self.basis.terms.block_limit result.history self.basis.begun result.marks }
    {
        let whole = gather(&self, seats);
        let SharedBook {
            table,
            flushes: _,
            waiting: _,
            durable: _,
        } = self;
        book_of(table.close_with(whole))
    }
}
