//! The seats of a book of two sources.
ghost use Rattle.std.specs.Prelude.{◌≡◌, ◌≤◌, [], IfOk};
ghost use Rattle.std.specs.Vec.{vec_capacity};
ghost use Rattle.book_shared.specs.Seats.{new_seat, new_seats};
ghost use Rattle.book_shared_tests.specs.Seated.{AreReady, AreSeated};

use crate::books::{TestBook, TestDisk, TestView, checked_book};
use crate::gates::Gate;
use book_owned::Marks;
use book_shared::{SharedBook, SourceSeat};
use mdf_layout::Shapes;
use mdf_num::Memory;
use std::alloc::{AllocError, Global};
use std::process::Abort;
use std::sync::Arc;
use std::test::Fail;

pub type Shared = SharedBook<TestDisk, TestView>;

/// The seats of the two sources, and room to hand them back.
#[derive(Drop)]
pub struct Seats {
    pub first: SourceSeat,
    pub second: SourceSeat,
    pub back: Vec<SourceSeat>,
}

/// The seats one by one.
fn pair(book: &Shared, mut seats: Vec<SourceSeat>) -> (SourceSeat, SourceSeat)
    requires { seats.items ≡ new_seats book.now.table book.now.basis 0 2 }
    ensures first { result.0 ≡ new_seat book.entry.now.table book.entry.now.basis 0 }
    ensures second { result.1 ≡ new_seat book.entry.now.table book.entry.now.basis 1 }
{
    let Some(second) = seats.pop() else {
        unreachable!()
    };
    let Some(first) = seats.pop() else {
        unreachable!()
    };
    (first, second)
}

/// Shares a book, of which each source owns the group of its number.
fn share(alloc: Global, book: TestBook) -> Result<(Shared, Seats), Fail>
    requires { book.history ≡ [] }
    ensures seated { IfOk result (λ begun. AreSeated book.terms begun.0 begun.1.first begun.1.second) }
    ensures room { IfOk result (λ begun. (begun.1.back.items ≡ []) × (2 ≤ vec_capacity begun.1.back)) }
{
    let Ok(back) = Vec::with_capacity(alloc, 2) else {
        return Err(given_up(book));
    };
    match SharedBook::begin(alloc, book, &[0, 1], 2) {
        Ok((shared, seats)) => {
            let (first, second) = pair(&shared, seats);
            Ok((
                shared,
                Seats {
                    first,
                    second,
                    back,
                },
            ))
        }
        Err((_, book)) => Err(given_up(book)),
    }
}

/// A book that is not shared, for want of memory.
fn given_up(book: TestBook) -> Fail {
    let (_disk, _history, _marks, _view) = book.close();
    AllocError.into()
}

/// A book that two sources share, their seats, and the layouts that their samples are checked by.
pub struct Begun {
    pub checked_by: Shapes,
    pub shared: Shared,
    pub seats: Seats,
}

/// Shares a new book, over a disk whose syncs wait at the gate, with a view whose publishings do.
pub fn begin<R: AllocGlobal + Abort>(rt: &R, gate: Arc<Gate>) -> Result<Begun, Fail>
    ensures ready { IfOk result (λ begun. AreReady begun.checked_by begun.shared begun.seats.first begun.seats.second) }
    ensures room { IfOk result (λ begun. (begun.seats.back.items ≡ []) × (2 ≤ vec_capacity begun.seats.back)) }
{
    let (checked_by, book) = checked_book(rt, gate)?;
    let (shared, seats) = share(rt.alloc(), book)?;
    Ok(Begun {
        checked_by,
        shared,
        seats,
    })
}

/// Tells how many samples were accepted, and the numbers of samples that the marks go through.
fn tell(told: &mut String, count: u64, marks: &Marks) -> Result<(), Memory> {
    write!(told, "accepted {count} marks")?;
    for mark in marks.rest(0) {
        write!(told, " {}", mark.through)?;
    }
    Ok(())
}

/// Closes a book that is shared no more, and tells what it comes to.
fn close_book(told: &mut String, book: TestBook) -> Result<(), Memory> {
    let (_, history, marks, _) = book.close();
    tell(told, history.len(), &marks)
}

/// Closes the book, and tells how many samples were accepted, and through how many each mark goes.
pub fn close(told: &mut String, book: Shared, seats: Seats) -> Result<(), Memory>
    requires sources { book.basis.sources ≡ 2 }
    requires tables { (seats.first.table ≡ book.table) × (seats.second.table ≡ book.table) }
    requires numbers { (seats.first.number ≡ 0) × (seats.second.number ≡ 1) }
    requires room { (seats.back.items ≡ []) × (2 ≤ vec_capacity seats.back) }
{
    let Seats {
        first,
        second,
        mut back,
    } = seats;
    back.push_reserved(first);
    back.push_reserved(second);
    close_book(told, book.close(back))
}
