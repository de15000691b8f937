//! What the first of the two seats does.
ghost use Rattle.std.specs.Prelude.{◌≡◌, ◌≤◌, slice_index};
ghost use Rattle.mdf_layout.specs.Record.{SampleFits, encoded_size};

use crate::books::{fits, sample};
use crate::seats::Shared;
use book_shared::{SourceSeat, Try};
use mdf_layout::{Sample, Shapes};
use mdf_num::Memory;
use std::alloc::AllocError;
use std::process::Abort;
use std::sync::Wait;
use std::thread::Threads;

/// A try or an append of a sample of this number, or a flush.
#[derive(Clone, Copy)]
pub enum Task {
    Try(u64),
    Append(u64),
    Flush,
}

/// Tells the answer of a try, and of a busy one whether the turn word was odd.
pub fn tell_try(told: &mut String, answer: &Try) -> Result<(), AllocError> {
    match answer {
        Try::Busy { word, sample: _ } => write!(told, "busy odd {}", *word % 2 == 1),
        Try::NeedsFlush {
            held,
            size,
            limit,
            sample: _,
        } => write!(told, "flush {held} {size} {limit}"),
        Try::Answered(answer) => write!(told, "{answer:?}"),
    }
}

/// Asserts that the sample is one of these layouts, which are those of the seat, that its record has room in an empty block,
/// and that the seat owns its group.
pub fn assert_admitted<R: Abort>(rt: &R, shapes: &Shapes, seat: &SourceSeat, sample: &Sample)
    requires layouts { seat.now.know.basis.terms.layouts ≡ shapes.now }
    requires limit { seat.now.know.basis.terms.block_limit ≡ 9 }
    ensures owns { slice_index seat.now.know.basis.owners sample.now.group ≡ seat.now.number }
    ensures fits { SampleFits seat.now.know.basis.terms.layouts sample.now }
    ensures size { encoded_size seat.now.know.basis.terms.layouts sample.now ≤ seat.now.know.basis.terms.block_limit }
{
    assert!(rt; fits(shapes, sample));
    assert!(rt; seat.owns(sample.group));
}

/// Tries or appends a sample, and tells the answer.
fn put<R>(
    rt: &R,
    shapes: &Shapes,
    shared: &Shared,
    seat: &mut SourceSeat,
    sample: Sample,
    waits: bool,
    told: &mut String,
) -> Result<(), AllocError>
where
    R: AllocGlobal + Abort + Threads + Wait + Sync,
    requires table { seat.old.table ≡ shared.now.table }
    requires layouts { seat.old.know.basis.terms.layouts ≡ shapes.now }
    requires limit { seat.old.know.basis.terms.block_limit ≡ 9 }
    ensures table { seat.new.table ≡ seat.old.table }
    ensures number { seat.new.number ≡ seat.old.number }
    ensures basis { seat.new.know.basis ≡ seat.old.know.basis }
{
    assert_admitted(rt, shapes, seat, &sample);
    if waits {
        let answer = shared.append(rt, seat, sample);
        return write!(told, "{answer:?}");
    }
    let answer = shared.try_append(seat, sample);
    tell_try(told, &answer)
}

/// Flushes, and tells the answer.
fn flush<R>(
    rt: &R,
    shared: &Shared,
    seat: &mut SourceSeat,
    told: &mut String,
) -> Result<(), AllocError>
where
    R: AllocGlobal + Abort + Threads + Wait + Sync,
    requires table { seat.old.table ≡ shared.now.table }
    ensures table { seat.new.table ≡ seat.old.table }
    ensures number { seat.new.number ≡ seat.old.number }
    ensures basis { seat.new.know.basis ≡ seat.old.know.basis }
{
    let answer = shared.flush(rt, seat);
    write!(told, "{answer:?}")
}

/// Does a task, and tells the answer.
pub fn step<R>(
    rt: &R,
    shapes: &Shapes,
    shared: &Shared,
    seat: &mut SourceSeat,
    task: Task,
    told: &mut String,
) -> Result<(), Memory>
where
    R: AllocGlobal + Abort + Threads + Wait + Sync,
    requires table { seat.old.table ≡ shared.now.table }
    requires layouts { seat.old.know.basis.terms.layouts ≡ shapes.now }
    requires limit { seat.old.know.basis.terms.block_limit ≡ 9 }
    ensures table { seat.new.table ≡ seat.old.table }
    ensures number { seat.new.number ≡ seat.old.number }
    ensures basis { seat.new.know.basis ≡ seat.old.know.basis }
{
    let (number, waits) = match task {
        Task::Flush => return Ok(flush(rt, shared, seat, told)?),
        Task::Try(number) => (number, false),
        Task::Append(number) => (number, true),
    };
    let sample = sample(rt.alloc(), 0, number)?;
    Ok(put(rt, shapes, shared, seat, sample, waits, told)?)
}

/// Does these tasks, and tells the answers, each on a line of its own.
pub fn feed<R>(
    rt: &R,
    shapes: &Shapes,
    shared: &Shared,
    seat: &mut SourceSeat,
    tasks: &[Task],
    told: &mut String,
) -> Result<(), Memory>
where
    R: AllocGlobal + Abort + Threads + Wait + Sync,
    requires table { seat.old.table ≡ shared.now.table }
    requires layouts { seat.old.know.basis.terms.layouts ≡ shapes.now }
    requires limit { seat.old.know.basis.terms.block_limit ≡ 9 }
    ensures table { seat.new.table ≡ seat.old.table }
    ensures number { seat.new.number ≡ seat.old.number }
    ensures basis { seat.new.know.basis ≡ seat.old.know.basis }
{
    for task in tasks {
        step(rt, shapes, shared, seat, *task, told)?;
        told.push('\n')?;
    }
    Ok(())
}
