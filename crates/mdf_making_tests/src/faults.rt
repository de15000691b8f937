//! Every fault and every stop: each test goes up to the first call that a run does not make.
ghost use Rattle.std.specs.Prelude.{◌≡◌, None};

use crate::attached::ATTACH;
use crate::cuts::CUT;
use crate::joined::CONCAT;
use book_owned::Marks;
use mdf_disk::{Disk, Fuse, MemoryDisk};
use mdf_layout::{Sample, Samples, Value};
use mdf_num::Bytes;
use mdf_run::Finished;
use mdf_run_rig::{
    COUNTING, FINALIZE, File, Given, Kept, SORT, asking, bytes_of, disk_with, failing_disk,
    file_made, finalized, is_status, is_told, left_by, over_taken, ran, record, said, stands,
};
use std::process::Abort;
use std::sync::Wait;
use std::test::Fail;
use std::thread::Threads;

const RECORD: Given<'static> = Given {
    words: &["record", "out.mf4"],
    script: COUNTING,
    ..FINALIZE
};

// How many calls of its disk that recording makes: eight for the file and its head, and four for each of its two blocks.
const CALLS: u64 = 16;

// What `export` prints of so many samples, which are the first of the numbers 1, 2 and 3.
const TABLES: [&str; 4] = [
    "0 index,t\n",
    "0 index,t\n0,1\n",
    "0 index,t\n0,1\n1,2\n",
    "0 index,t\n0,1\n1,2\n2,3\n",
];

/// The number of samples that this text is printed of.
fn count_of(text: &str) -> Option<u64> {
    for count in 0u64..4 {
        if TABLES[count as usize] == text {
            return Some(count);
        }
    }
    None
}

const EXPORT_WORDS: &[&str] = &["export", "in.mf4", "0"];

/// How many of the numbers 1, 2 and 3 are found in what a crash left: none in a file that is no MDF file. None where it is not
/// finalized, or has others.
fn found<R>(rt: &R, left: Bytes) -> Result<Option<u64>, Fail>
where
    R: AllocGlobal + Threads + Wait + Sync,
{
    if !left.as_slice().starts_with(b"UnFinMF ") {
        return Ok(Some(0));
    }
    let text = said(rt, EXPORT_WORDS, finalized(rt, left)?)?;
    Ok(count_of(text.as_str()))
}

/// The number of a sample of one.
fn number_of(sample: Option<&Sample>) -> Option<u64> {
    match sample?.values.get(0)?.value {
        Value::Unsigned(number) => Some(number),
        _ => None,
    }
}

/// Whether the samples are the numbers from 1 on.
fn counts_up(history: &Samples) -> bool {
    for place in 0..history.len() {
        if number_of(history.get(place)) != Some(place + 1) {
            return false;
        }
    }
    true
}

/// How many samples were marked before this call of the disk: its first call attaches the file, and each other writes or syncs.
fn marked(marks: &Marks, call: u64) -> u64 {
    let mut most = 0;
    for mark in marks.rest(0) {
        if mark.moment < call {
            most = mark.through;
        }
    }
    most
}

/// Whether a file that a crash inside this call left has what was marked before, and nothing that was not accepted.
fn holds<R>(rt: &R, left: Bytes, marked: u64, accepted: u64) -> Result<bool, Fail>
where
    R: AllocGlobal + Threads + Wait + Sync,
{
    let samples = found(rt, left)?;
    Ok(samples.is_some_and(|count| marked <= count && count <= accepted))
}

/// Whether a file is the whole, or no MDF file.
fn is_sealed(left: &[u8], whole: &[u8]) -> bool {
    left.len() <= 1 || left[0] != b'M' || left == whole
}

/// What is said of each file that a crash inside a call of the disk may leave: that it holds what was marked, where so many calls
/// reach the disk at most, and the numbers from 1 on were accepted; or that it is sealed, where this is the whole.
#[derive(Drop)]
enum Images<'a> {
    Hold(u64),
    AreSealed(&'a [u8]),
}

/// Whether a file that a crash inside this call left is so.
fn image_stands<R, A, C>(
    rt: &R,
    finished: &Finished<A, C>,
    images: &Images<'_>,
    call: u64,
    left: Bytes,
) -> Result<bool, Fail>
where
    R: AllocGlobal + Threads + Wait + Sync,
{
    match images {
        Images::Hold(_) => holds(
            rt,
            left,
            marked(&finished.marks, call),
            finished.history.len(),
        ),
        Images::AreSealed(whole) => Ok(is_sealed(left.as_slice(), *whole)),
    }
}

/// Asserts what stands of what a crash inside this call left, by this pick.
fn is_so<R: Abort>(rt: &R, stands: bool, call: u64, pick: u8) {
    assert!(rt; stands, "call {call} pick {pick}");
}

/// Asserts that each file is so that a crash inside a call of the disk may leave.
fn images_stand<R, A, C>(
    rt: &R,
    finished: &Finished<A, C>,
    disk: &MemoryDisk,
    images: &Images<'_>,
) -> Result<(), Fail>
where
    R: AllocGlobal + Threads + Wait + Sync + Abort,
{
    for call in 0..disk.calls() {
        for pick in 0u8..4 {
            let left = disk.image(call, pick)?;
            is_so(
                rt,
                image_stands(rt, finished, images, call, left)?,
                call,
                pick,
            );
        }
    }
    Ok(())
}

/// Asserts that of a run, whose disk so many calls reach at most.
fn run_stands<R, A, C: Kept>(
    rt: &R,
    finished: &Finished<A, C>,
    images: &Images<'_>,
) -> Result<(), Fail>
where
    R: AllocGlobal + Threads + Wait + Sync + Abort,
{
    let disk = finished.out.kept();
    if let Images::Hold(most) = images {
        assert!(rt; disk.calls() <= *most);
        assert!(rt; counts_up(&finished.history));
    }
    images_stand(rt, finished, disk, images)
}

/// The status of a run of which that is so.
fn status_where_it_stands<R, A, C: Kept>(
    rt: &R,
    finished: &Finished<A, C>,
    images: &Images<'_>,
) -> Result<u8, Fail>
where
    R: AllocGlobal + Threads + Wait + Sync + Abort,
{
    run_stands(rt, finished, images)?;
    Ok(finished.status)
}

/// The status of a run over these disks, all of whose images are so.
fn status_over<R, A, C>(
    rt: &R,
    given: Given<'_>,
    first: A,
    out: C,
    images: &Images<'_>,
) -> Result<u8, Fail>
where
    R: AllocGlobal + Threads + Wait + Sync + Abort,
    A: Disk + Drop,
    C: Disk + Kept + Send + Drop,
    requires first { A.asked first ≡ None }
    requires out { C.asked out ≡ None }
{
    let ended = ran(rt, given, first, out)?;
    status_where_it_stands(rt, &ended.finished, images)
}

/// The status of a recording over this disk, which passes so many calls on at most. All of its images hold.
fn recorded_status<R>(rt: &R, disk: MemoryDisk, most: u64) -> Result<u8, Fail>
where
    R: AllocGlobal + Threads + Wait + Sync + Abort,
    requires { ⟦<MemoryDisk as Disk>⟧.asked disk ≡ None }
{
    status_over(
        rt,
        RECORD,
        MemoryDisk::new(rt.alloc()),
        Fuse::new(disk, most),
        &Images::Hold(most),
    )
}

/// The status of a recording over a disk that fails at this call.
fn status_failing_at<R>(rt: &R, call: u64) -> Result<u8, Fail>
where
    R: AllocGlobal + Threads + Wait + Sync + Abort,
{
    let disk = failing_disk(rt.alloc(), &[call])?;
    recorded_status(rt, disk, u64::MAX)
}

#[test]
fn a_recording_stands_a_fault_of_each_call_of_its_disk(rt: HostRuntime) -> Result<(), Fail> {
    for call in 0..CALLS {
        is_status(status_failing_at(&rt, call), 4)?;
    }
    is_status(status_failing_at(&rt, CALLS), 0)
}

/// The status of a recording that is stopped after so many calls of its disk.
fn status_stopped_after<R>(rt: &R, calls: u64) -> Result<u8, Fail>
where
    R: AllocGlobal + Threads + Wait + Sync + Abort,
{
    recorded_status(rt, MemoryDisk::new(rt.alloc()), calls)
}

#[test]
fn a_recording_stands_a_stop_at_each_call_of_its_disk(rt: HostRuntime) -> Result<(), Fail> {
    for calls in 0..CALLS {
        is_status(status_stopped_after(&rt, calls), 4)?;
    }
    is_status(status_stopped_after(&rt, CALLS), 0)
}

/// How many samples are found in what a crash inside each call leaves, by each pick; 9 where it is not finalized.
fn found_in_each<R>(rt: &R, disk: &MemoryDisk) -> Result<String, Fail>
where
    R: AllocGlobal + Threads + Wait + Sync,
{
    let mut told = String::new(rt.alloc());
    for call in 0..disk.calls() {
        for pick in 0u8..4 {
            let count = found(rt, disk.image(call, pick)?)?.unwrap_or(9);
            write!(told, "{count}")?;
        }
        told.push(' ')?;
    }
    Ok(told)
}

// The picks are: nothing of what was written since the last sync, all of it, and 0xFF or `#` in the place of each byte of it. The
// calls 0 to 7 make the file. The gate of the first block is written and synced in the calls 10 and 11, and that of the second one
// in 14 and 15; `#` opens it.
const FOUND: &str =
    "0000 0000 0000 0000 0000 0000 0000 0000 0000 0000 0202 0202 2222 2222 2323 2323 ";

const FILLED: [u8; 40] = [0xFF; 40];

/// Whether the second block's first write, in the call 12, is one of 40 bytes from 817 on.
fn has_second_write(disk: &MemoryDisk) -> Result<bool, Fail> {
    if disk.calls() != CALLS {
        return Ok(false);
    }
    let left = disk.image(12, 2)?;
    Ok(
        left.as_slice().len() == 857
            && stands(left.as_slice(), (816, b"\0"))
            && stands(left.as_slice(), (817, &FILLED)),
    )
}

/// Asserts what a crash inside each call leaves.
fn is_found<R>(rt: &R, disk: &MemoryDisk) -> Result<(), Fail>
where
    R: AllocGlobal + Threads + Wait + Sync + Abort,
{
    assert!(rt; has_second_write(disk)?);
    is_told(found_in_each(rt, disk), FOUND)
}

#[test]
fn a_stop_inside_each_call_leaves_so_many_samples(rt: HostRuntime) -> Result<(), Fail> {
    let first = MemoryDisk::new(rt.alloc());
    let out = MemoryDisk::new(rt.alloc());
    let ended = ran(&rt, RECORD, first, out)?;
    is_found(&rt, &ended.finished.out)
}

/// The status of a command that makes a file of this one, over a disk that fails at this call. Its images are sealed.
fn made_status<R>(
    rt: &R,
    given: Given<'_>,
    input: &Bytes,
    whole: &Bytes,
    call: u64,
) -> Result<u8, Fail>
where
    R: AllocGlobal + Threads + Wait + Sync + Abort,
{
    let first = MemoryDisk::holding(rt.alloc(), input.copy()?);
    let out = failing_disk(rt.alloc(), &[call])?;
    status_over(rt, given, first, out, &Images::AreSealed(whole.as_slice()))
}

/// Asserts that a command stands a fault of each call of its output's disk, where this is its input and its second input, and that
/// the file it makes. These calls are an attach, the closed first byte, a sync, the rest, a sync, the first byte, and a sync.
fn stands_faults<R>(rt: &R, given: Given<'_>, input: &Bytes, whole: &Bytes) -> Result<(), Fail>
where
    R: AllocGlobal + Threads + Wait + Sync + Abort,
{
    for call in 0u64..7 {
        is_status(made_status(rt, given, input, whole, call), 4)?;
    }
    is_status(made_status(rt, given, input, whole, 7), 0)
}

fn stands_faults_of_its_output<R>(rt: &R, given: Given<'_>, input: &Bytes) -> Result<(), Fail>
where
    R: AllocGlobal + Threads + Wait + Sync + Abort,
{
    let given = Given {
        second: input.as_slice(),
        ..given
    };
    let whole = file_made(rt, given, input.copy()?)?;
    stands_faults(rt, given, input, &whole)
}

/// The same of this file.
fn stands_faults_over<R>(rt: &R, given: Given<'_>, file: &File) -> Result<(), Fail>
where
    R: AllocGlobal + Threads + Wait + Sync + Abort,
{
    stands_faults_of_its_output(rt, given, &bytes_of(rt, file)?)
}

const COUNTED: File = File::Recorded(COUNTING);

const FINISHED: File = File::Finished(COUNTING);

// The commands that make a file of a file, and that; `concat` and `attach` have it for both of their inputs.
const MAKING: &[(Given<'static>, File)] = &[
    (FINALIZE, COUNTED),
    (SORT, FINISHED),
    (CUT, FINISHED),
    (CONCAT, FINISHED),
    (ATTACH, FINISHED),
];

#[test]
fn a_made_file_stands_a_fault_of_each_call_of_its_disk(rt: HostRuntime) -> Result<(), Fail> {
    for (given, file) in MAKING {
        stands_faults_over(&rt, *given, file)?;
    }
    Ok(())
}

// The commands that read a file, how often they call its disk, and the file. It is attached, its size is asked for, and it is
// read; where it is read through pages the size is asked for twice.
const READING: &[(&[&str], u64, File)] = &[
    (&["opened", "in.mf4"], 3, COUNTED),
    (&["finalize", "in.mf4", "out.mf4"], 3, COUNTED),
    (&["check", "in.mf4"], 4, FINISHED),
    (&["info", "in.mf4"], 4, FINISHED),
    (&["sort", "in.mf4", "out.mf4"], 3, FINISHED),
    (&["cut", "in.mf4", "out.mf4", "1", "3"], 3, FINISHED),
    (&["concat", "in.mf4", "in.mf4", "out.mf4"], 3, FINISHED),
    (&["export", "in.mf4", "0"], 4, FINISHED),
    (&["attachments", "in.mf4"], 4, File::Attached),
    (&["attach", "in.mf4", "in.mf4", "out.mf4"], 3, FINISHED),
];

/// This command over this second input, with a sink that fails at these calls.
fn command<'a>(given: Given<'a>, second: &'a Bytes, failing: &'a [u64]) -> Given<'a> {
    Given {
        second: second.as_slice(),
        failing,
        ..given
    }
}

/// The status of a command over a disk with this file that fails at these calls.
fn status_of<R>(rt: &R, given: Given<'_>, file: &Bytes, faults: &[u64]) -> Result<u8, Fail>
where
    R: AllocGlobal + Threads + Wait + Sync,
{
    let first = disk_with(rt.alloc(), file.copy()?, faults)?;
    let left = left_by(rt, given, first)?;
    Ok(left.status)
}

/// The status of a command, whose second input is the same file, where this call of the input's disk fails.
fn input_status<R>(rt: &R, words: &[&str], file: &Bytes, call: u64) -> Result<u8, Fail>
where
    R: AllocGlobal + Threads + Wait + Sync,
{
    let second = file.copy()?;
    let given = command(asking(words, &[]), &second, &[]);
    status_of(rt, given, file, &[call])
}

/// Asserts that a fault of each of these calls of an input is told, and that no other call is made.
fn tells_faults_of_input<R>(rt: &R, words: &[&str], calls: u64, file: &Bytes) -> Result<(), Fail>
where
    R: AllocGlobal + Threads + Wait + Sync,
{
    for call in 0u64..5 {
        let want = if call < calls { 4 } else { 0 };
        is_status(input_status(rt, words, file, call), want)?;
    }
    Ok(())
}

/// The same of this file.
fn tells_faults_over<R>(rt: &R, words: &[&str], calls: u64, file: &File) -> Result<(), Fail>
where
    R: AllocGlobal + Threads + Wait + Sync,
{
    tells_faults_of_input(rt, words, calls, &bytes_of(rt, file)?)
}

#[test]
fn a_fault_of_each_call_of_an_input_is_told(rt: HostRuntime) -> Result<(), Fail> {
    for (words, calls, file) in READING {
        tells_faults_over(&rt, *words, *calls, file)?;
    }
    Ok(())
}

/// A `concat` with this second input, whose disk fails at these calls.
fn losing<'a>(second: &'a Bytes, lost: &'a [u64]) -> Given<'a> {
    Given {
        second: second.as_slice(),
        lost,
        ..CONCAT
    }
}

/// The status of that, where this file is both inputs and this call of the second one's disk fails.
fn second_status<R>(rt: &R, file: &Bytes, call: u64) -> Result<u8, Fail>
where
    R: AllocGlobal + Threads + Wait + Sync,
{
    let second = file.copy()?;
    let lost = [call];
    status_of(rt, losing(&second, &lost), file, &[])
}

#[test]
fn a_fault_of_each_call_of_the_second_input_is_told(rt: HostRuntime) -> Result<(), Fail> {
    let file = bytes_of(&rt, &FINISHED)?;
    for call in 0u64..4 {
        let want = if call < 3 { 4 } else { 0 };
        is_status(second_status(&rt, &file, call), want)?;
    }
    Ok(())
}

/// The status of a recording where this call of the source fails.
fn source_status<R>(rt: &R, call: u64) -> Result<u8, Fail>
where
    R: AllocGlobal + Threads + Wait + Sync,
{
    let broken = [call];
    let file = Bytes::empty(rt.alloc());
    status_of(rt, record(COUNTING, &broken, &[]), &file, &[])
}

// The script is taken at once, and then its end.
#[test]
fn a_fault_of_each_call_of_the_source_is_told(rt: HostRuntime) -> Result<(), Fail> {
    for call in 0u64..3 {
        let want = if call < 2 { 2 } else { 0 };
        is_status(source_status(&rt, call), want)?;
    }
    Ok(())
}

/// The status of a command, whose second input is the same file, where this call of the sink fails.
fn sink_status<R>(rt: &R, given: Given<'_>, file: &Bytes, call: u64) -> Result<u8, Fail>
where
    R: AllocGlobal + Threads + Wait + Sync,
{
    let second = file.copy()?;
    let failing = [call];
    status_of(rt, command(given, &second, &failing), file, &[])
}

/// How many calls of the sink a command makes: each of these that fails is told by the status 6.
fn gives<R>(rt: &R, given: Given<'_>, file: &Bytes) -> Result<u64, Fail>
where
    R: AllocGlobal + Threads + Wait + Sync + Abort,
{
    for call in 0u64..64 {
        let status = sink_status(rt, given, file, call)?;
        if status == 0 {
            return Ok(call);
        }
        assert!(rt; status == 6);
    }
    Ok(64)
}

/// Asserts that over this file it makes some, and fewer than 64.
fn tells_faults_of_sink<R>(rt: &R, given: Given<'_>, file: &File) -> Result<(), Fail>
where
    R: AllocGlobal + Threads + Wait + Sync + Abort,
{
    let calls = gives(rt, given, &bytes_of(rt, file)?)?;
    assert!(rt; 0 < calls && calls < 64);
    Ok(())
}

const NO_FILE: File = File::TwoBlocks(0);

// The other command that records.
const GEN: Given<'static> = Given {
    words: &["gen", "10", "out.mf4"],
    ..FINALIZE
};

#[test]
fn a_fault_of_each_call_of_the_sink_is_told(rt: HostRuntime) -> Result<(), Fail> {
    for (words, _, file) in READING {
        tells_faults_of_sink(&rt, asking(*words, &[]), file)?;
    }
    tells_faults_of_sink(&rt, RECORD, &NO_FILE)?;
    tells_faults_of_sink(&rt, GEN, &NO_FILE)
}

// Commands that make a file, and files, of which some are refused.
const TAKEN: &[(Given<'static>, File)] = &[
    (RECORD, NO_FILE),
    (GEN, NO_FILE),
    (FINALIZE, COUNTED),
    (FINALIZE, FINISHED),
    (SORT, FINISHED),
    (SORT, COUNTED),
    (CUT, COUNTED),
    (CONCAT, COUNTED),
];

/// What is printed and left where the name of the output is taken.
fn taken_told<R>(rt: &R, given: Given<'_>, file: &File) -> Result<String, Fail>
where
    R: AllocGlobal + Threads + Wait + Sync,
{
    let first = disk_with(rt.alloc(), bytes_of(rt, file)?, &[])?;
    over_taken(rt, given, first)
}

#[test]
fn a_taken_name_is_told_before_an_input_is_refused(rt: HostRuntime) -> Result<(), Fail> {
    for (given, file) in TAKEN {
        is_told(
            taken_told(&rt, *given, file),
            "4 device fault\nfile 5 history 0 marks []",
        )?;
    }
    Ok(())
}
