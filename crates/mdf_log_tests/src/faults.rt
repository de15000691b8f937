//! What disks hold that fail from one of their calls on, against what their log has acknowledged.

use crate::runs::{Given, Left, logged, logging};
use mdf_disk::MemoryDisk;
use mdf_num::Bytes;
use mdf_run_rig::{FINALIZE, is_status, made_of, said};
use std::alloc::Global;
use std::sync::Wait;
use std::test::Fail;
use std::thread::Threads;

// Two sources, and a session that has room for four of their samples; in either form.
const FIRST_FORM: &str =
    "session 580\ngroup 0 a\nchannel t u64 master\ngroup 1 b\nchannel t u64 master\nbegin\n";

const SECOND_FORM: &str =
    "form 2\nsession 580\ngroup 0 a\nchannel t u64 master\ngroup 1 b\nchannel t u64 master\nbegin\n";

const LEFT: &str = "0 1\n0 2\n! 0\n0 3\n0 4\n! 0\n0 5\n0 6\n";

const RIGHT: &str = "1 1\n! 1\n1 2\n! 1\n1 3\n! 1\n1 4\n";

// More calls than the disks of such a log have.
const CALLS: u64 = 200;

/// The number behind the last blank of a text that has lines, or 0.
fn last_number(text: &str) -> Result<u64, Fail> {
    match text.trim_end().rsplit(' ').next() {
        Some(word) if !word.is_empty() => Ok(word.parse()?),
        _ => Ok(0),
    }
}

/// Adds the numbers of a group of a finished file.
fn add_numbers<R>(rt: &R, file: Bytes, group: &str, found: &mut Vec<u64>) -> Result<(), Fail>
where
    R: AllocGlobal + Threads + Wait + Sync,
{
    let table = said(rt, &["export", "in.mf4", group], file)?;
    for row in table.lines().skip(1) {
        found.push(last_cell(row)?)?;
    }
    Ok(())
}

/// The number in the last cell of a row.
fn last_cell(row: &str) -> Result<u64, Fail> {
    match row.rsplit(',').next() {
        Some(cell) => Ok(cell.parse()?),
        None => Err(Fail::new("a row without a cell")),
    }
}

/// Adds the numbers of a group that `finalize` finds in a file, and answers whether that was finalized.
fn add_recovered<R>(rt: &R, file: Bytes, group: &str, found: &mut Vec<u64>) -> Result<bool, Fail>
where
    R: AllocGlobal + Threads + Wait + Sync,
{
    let made = made_of(rt, FINALIZE, file)?;
    if made.status != 0 {
        return Ok(false);
    }
    add_numbers(rt, made.file, group, found)?;
    Ok(true)
}

/// What a crash in the last call of a disk may leave, which failed.
fn image_of(alloc: Global, disk: &MemoryDisk, pick: u8) -> Result<Bytes, Fail> {
    match disk.calls().checked_sub(1) {
        Some(call) if pick < 4 => Ok(disk.image(call, pick)?),
        _ => Ok(Bytes::empty(alloc)),
    }
}

/// The numbers of a group that are found after a crash in the last call, part behind part. Each part but the last is finalized.
fn found_in<R>(rt: &R, disks: &[MemoryDisk], group: &str, pick: u8) -> Result<Vec<u64>, Fail>
where
    R: AllocGlobal + Threads + Wait + Sync,
{
    let mut found = Vec::new(rt.alloc());
    let Some((last, whole)) = disks.split_last() else {
        return Ok(found);
    };
    for disk in whole {
        let file = Bytes::from_slice(rt.alloc(), disk.bytes())?;
        if !add_recovered(rt, file, group, &mut found)? {
            return Err(Fail::new("a part that is not finalized"));
        }
    }
    add_recovered(rt, image_of(rt.alloc(), last, pick)?, group, &mut found)?;
    Ok(found)
}

/// Fails where fewer numbers are found than were acknowledged, or others, or in another order.
fn stands(found: &[u64], acknowledged: u64) -> Result<(), Fail> {
    if (found.len() as u64) < acknowledged {
        return Err(Fail::new(acknowledged));
    }
    for (place, number) in found.iter().enumerate() {
        if *number != place as u64 + 1 {
            return Err(Fail::new(*number));
        }
    }
    Ok(())
}

/// Fails where a crash loses what a log has acknowledged to its sources, whose groups have these numbers.
fn log_stands<R>(rt: &R, left: &Left) -> Result<(), Fail>
where
    R: AllocGlobal + Threads + Wait + Sync,
{
    for (told, group) in left.told.iter().zip(["0", "1"].iter()) {
        let acknowledged = last_number(told.as_str())?;
        for pick in 0u8..4 {
            let found = found_in(rt, left.disks.as_slice(), *group, pick)?;
            stands(found.as_slice(), acknowledged)?;
        }
    }
    Ok(())
}

/// Lets all calls but the first ones of the disks fail, from none on up to all, and looks at what each log has left.
fn all_stand<R>(rt: &R, setup: &str) -> Result<(), Fail>
where
    R: AllocGlobal + Threads + Wait + Sync,
{
    let whole = logging(setup, &[LEFT, RIGHT]);
    for calls in 0..CALLS {
        let left = logged(rt, Given { calls, ..whole })?;
        if left.status == 0 {
            return Ok(());
        }
        is_status(Ok(left.status), 4)?;
        log_stands(rt, &left)?;
    }
    Err(Fail::new("it makes more calls"))
}

#[test]
fn what_was_acknowledged_is_found_though_the_disk_fails(rt: HostRuntime) -> Result<(), Fail> {
    all_stand(&rt, FIRST_FORM)
}

#[test]
fn it_is_found_in_the_second_form_too(rt: HostRuntime) -> Result<(), Fail> {
    all_stand(&rt, SECOND_FORM)
}
