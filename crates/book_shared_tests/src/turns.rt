//! A full block, and what a seat does while another flushes.
ghost use Rattle.std.specs.Prelude.{◌≡◌, ◌≤◌, [], slice_index};
ghost use Rattle.std.specs.Thread.{IsSync};
ghost use Rattle.std.specs.Vec.{vec_capacity};
ghost use Rattle.mdf_layout.specs.Record.{SampleFits, encoded_size};
ghost use Rattle.book_shared_tests.specs.Seated.{AreReady, IsSameSeat};

use crate::books::sample;
use crate::gates::{Gate, LOOKS, Step};
use crate::seats::{Begun, Seats, Shared, begin, close};
use crate::tasks::{Task, assert_admitted, feed, step, tell_try};
use book_owned::{Append, Flush};
use book_shared::{SourceSeat, Try};
use mdf_layout::Sample;
use mdf_num::Memory;
use std::alloc::AllocError;
use std::process::Abort;
use std::sync::{Arc, Wait};
use std::test::Fail;
use std::thread::{Threads, join};
use test_rig::is_told;

/// Lets the first seat of a book do these tasks, and closes the book. Tells the answers and the end.
fn fed<R>(rt: &R, begun: Begun, tasks: &[Task]) -> Result<String, Memory>
where
    R: AllocGlobal + Abort + Threads + Wait + Sync,
    requires ready { AreReady begun.checked_by begun.shared begun.seats.first begun.seats.second }
    requires room { (begun.seats.back.items ≡ []) × (2 ≤ vec_capacity begun.seats.back) }
{
    let Begun {
        checked_by,
        shared,
        mut seats,
    } = begun;
    let mut told = String::new(rt.alloc());
    let answers = feed(rt, &checked_by, &shared, &mut seats.first, tasks, &mut told);
    let end = close(&mut told, shared, seats);
    answers?;
    end?;
    Ok(told)
}

/// Shares a book, lets its first seat do these tasks, and closes it. Tells the answers and the end.
fn alone<R>(rt: &R, tasks: &[Task]) -> Result<String, Fail>
where
    R: AllocGlobal + Abort + Threads + Wait + Sync,
{
    let gate = Gate::new(rt.alloc(), Step::Sync, LOOKS)?;
    let begun = begin(rt, gate)?;
    Ok(fed(rt, begun, tasks)?)
}

// The second record has no room in the block of the first, so a try of it needs a flush, and an append of one more hands over.
#[test]
fn a_full_block_needs_a_flush(rt: HostRuntime) -> Result<(), Fail> {
    let tasks = [
        Task::Try(1),
        Task::Try(2),
        Task::Try(2),
        Task::Flush,
        Task::Try(2),
        Task::Append(3),
        Task::Flush,
    ];
    is_told(
        alone(&rt, &tasks),
        "Accepted { place: 0 }\nflush 9 9 9\nflush 9 9 9\nDone { through: 1, shown: 1, note: () }\n\
         Accepted { place: 1 }\nAccepted { place: 2 }\nDone { through: 3, shown: 3, note: () }\n\
         accepted 3 marks 0 1 2 3",
    )
}

/// A flush, in a thread of its own.
fn flush<R>(rt: &R, shared: &Shared, mut seat: SourceSeat) -> (SourceSeat, Flush<()>)
where
    R: Threads + Wait + Sync,
    requires { seat.table ≡ shared.now.table }
    ensures { IsSameSeat seat result.0 }
{
    let answer = shared.flush(rt, &mut seat);
    (seat, answer)
}

/// An append and then a flush of this seat while the other one flushes. Its step may go on when both are answered.
fn put_and_flush<R>(rt: &R, shared: &Shared, seat: &mut SourceSeat, sample: Sample) -> Append
where
    R: Threads + Wait + Sync,
    requires table { seat.old.table ≡ shared.now.table }
    requires owns { slice_index seat.old.know.basis.owners sample.group ≡ seat.old.number }
    requires fits { SampleFits seat.old.know.basis.terms.layouts sample }
    requires size { encoded_size seat.old.know.basis.terms.layouts sample ≤ seat.old.know.basis.terms.block_limit }
    ensures { IsSameSeat seat.old seat.new }
{
    let answer = shared.append(rt, seat, sample);
    let _flushed = shared.flush(rt, seat);
    answer
}

/// A try, or an append and a flush, while the other seat flushes. The step of it that waits may go on when they are answered.
fn put_meanwhile<R>(
    rt: &R,
    shared: &Shared,
    gate: &Gate,
    mut seat: SourceSeat,
    sample: Sample,
    waits: bool,
) -> (SourceSeat, Try)
where
    R: Threads + Wait + Sync,
    requires table { seat.table ≡ shared.now.table }
    requires owns { slice_index seat.know.basis.owners sample.group ≡ seat.number }
    requires fits { SampleFits seat.know.basis.terms.layouts sample }
    requires size { encoded_size seat.know.basis.terms.layouts sample ≤ seat.know.basis.terms.block_limit }
    ensures { IsSameSeat seat result.0 }
{
    gate.wait_for_step();
    let answer = if waits {
        Try::Answered(put_and_flush(rt, shared, &mut seat, sample))
    } else {
        shared.try_append(&mut seat, sample)
    };
    gate.answer();
    (seat, answer)
}

/// The seats behind what they did at once, and the answers.
struct AtOnce {
    first: SourceSeat,
    second: SourceSeat,
    flushed: Flush<()>,
    tried: Try,
}

/// The second seat flushes, and in the middle of it the first one tries, or appends and flushes. Answers both answers.
fn at_once<R>(
    rt: &R,
    shared: &Shared,
    gate: &Gate,
    first: SourceSeat,
    second: SourceSeat,
    sample: Sample,
    waits: bool,
) -> AtOnce
where
    R: Abort + Threads + Wait + Sync,
    requires tables { (first.table ≡ shared.now.table) × (second.table ≡ shared.now.table) }
    requires owns { slice_index first.know.basis.owners sample.group ≡ first.number }
    requires fits { SampleFits first.know.basis.terms.layouts sample }
    requires size { encoded_size first.know.basis.terms.layouts sample ≤ first.know.basis.terms.block_limit }
    ensures first { IsSameSeat first result.first }
    ensures second { IsSameSeat second result.second }
{
    let flushing = move || -> (SourceSeat, Flush<()>)
        requires { IsSync R.row × (second.table ≡ shared.now.table) }
        ensures { IsSameSeat second result.0 }
    { flush(rt, shared, second) };
    let putting = move || -> (SourceSeat, Try)
        requires { IsSync R.row × (first.table ≡ shared.now.table) × (slice_index first.know.basis.owners sample.group ≡ first.number) × SampleFits first.know.basis.terms.layouts sample × (encoded_size first.know.basis.terms.layouts sample ≤ first.know.basis.terms.block_limit) }
        ensures { IsSameSeat first result.0 }
    { put_meanwhile(rt, shared, gate, first, sample, waits) };
    let ((second, flushed), (first, tried)) = join(rt, flushing, putting);
    AtOnce {
        first,
        second,
        flushed,
        tried,
    }
}

/// Tells both answers, on lines of their own.
fn tell_both(told: &mut String, flushed: &Flush<()>, tried: &Try) -> Result<(), AllocError> {
    write!(told, "{flushed:?}\n")?;
    tell_try(told, tried)?;
    write!(told, "\n")
}

/// The first seat tries this sample, or appends it and flushes, while the second flushes. Tells both answers.
fn put_at_once<R>(
    rt: &R,
    shared: &Shared,
    gate: &Gate,
    seats: Seats,
    sample: Sample,
    waits: bool,
    told: &mut String,
) -> (Seats, Result<(), AllocError>)
where
    R: Abort + Threads + Wait + Sync,
    requires tables { (seats.first.table ≡ shared.now.table) × (seats.second.table ≡ shared.now.table) }
    requires owns { slice_index seats.first.know.basis.owners sample.group ≡ seats.first.number }
    requires fits { SampleFits seats.first.know.basis.terms.layouts sample }
    requires size { encoded_size seats.first.know.basis.terms.layouts sample ≤ seats.first.know.basis.terms.block_limit }
    ensures first { IsSameSeat seats.first result.0.first }
    ensures second { IsSameSeat seats.second result.0.second }
    ensures back { result.0.back ≡ seats.back }
{
    let Seats {
        first,
        second,
        back,
    } = seats;
    let AtOnce {
        first,
        second,
        flushed,
        tried,
    } = at_once(rt, shared, gate, first, second, sample, waits);
    let both = tell_both(told, &flushed, &tried);
    (
        Seats {
            first,
            second,
            back,
        },
        both,
    )
}

/// The first seat of a book appends a sample, tries this one or appends it and flushes while the second flushes, and tries once
/// more behind it. Closes the book, and tells the answers, the end and whether the step waited in vain.
fn put_thrice<R>(
    rt: &R,
    gate: &Gate,
    begun: Begun,
    next: Sample,
    waits: bool,
) -> Result<String, Memory>
where
    R: AllocGlobal + Abort + Threads + Wait + Sync,
    requires ready { AreReady begun.checked_by begun.shared begun.seats.first begun.seats.second }
    requires room { (begun.seats.back.items ≡ []) × (2 ≤ vec_capacity begun.seats.back) }
{
    let Begun {
        checked_by,
        shared,
        mut seats,
    } = begun;
    let mut told = String::new(rt.alloc());
    let before = step(
        rt,
        &checked_by,
        &shared,
        &mut seats.first,
        Task::Append(1),
        &mut told,
    );
    gate.shut();
    assert_admitted(rt, &checked_by, &seats.first, &next);
    let (mut seats, both) = put_at_once(rt, &shared, gate, seats, next, waits, &mut told);
    let after = step(
        rt,
        &checked_by,
        &shared,
        &mut seats.first,
        Task::Try(2),
        &mut told,
    );
    let end = close(&mut told, shared, seats);
    before?;
    both?;
    after?;
    end?;
    write!(told, " in vain {}", gate.waited_in_vain())?;
    Ok(told)
}

/// Shares a book. Its first seat appends a sample, and tries another one, or appends it and flushes, while the second flushes,
/// of which this step waits, and looks so often whether it may go on.
fn together<R>(rt: &R, step: Step, waits: bool, looks: u64) -> Result<String, Fail>
where
    R: AllocGlobal + Abort + Threads + Wait + Sync,
{
    let gate = Gate::new(rt.alloc(), step, looks)?;
    let next = sample(rt.alloc(), 0, 2)?;
    let begun = begin(rt, Arc::try_clone(&gate)?)?;
    Ok(put_thrice(rt, &gate, begun, next, waits)?)
}

// The disk is written outside the turn: the try is answered while the sync waits for it, and the next one finds the block full.
#[test]
fn a_seat_goes_on_while_the_flush_of_another_is_in_a_sync(rt: HostRuntime) -> Result<(), Fail> {
    is_told(
        together(&rt, Step::Sync, false, LOOKS),
        "Accepted { place: 0 }Done { through: 1, shown: 1, note: () }\nAccepted { place: 1 }\nflush 9 9 9accepted 2 marks 0 1 in vain false",
    )
}

// The view is published in the turn, so the word is odd while it is.
#[test]
fn a_seat_is_busy_while_the_flush_of_another_publishes(rt: HostRuntime) -> Result<(), Fail> {
    is_told(
        together(&rt, Step::Publish, false, LOOKS),
        "Accepted { place: 0 }Done { through: 1, shown: 1, note: () }\nbusy odd true\nAccepted { place: 1 }accepted 2 marks 0 1 in vain false",
    )
}

// The append goes on while the sync waits. The flush behind it waits for the disk until that sync has looked so often, and is
// done then.
#[test]
fn a_flush_waits_while_the_flush_of_another_is_in_a_sync(rt: HostRuntime) -> Result<(), Fail> {
    is_told(
        together(&rt, Step::Sync, true, 20_000),
        "Accepted { place: 0 }Done { through: 1, shown: 1, note: () }\nAccepted { place: 1 }\nAccepted { place: 2 }accepted 3 marks 0 1 2 in vain true",
    )
}
