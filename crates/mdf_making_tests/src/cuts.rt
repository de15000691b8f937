//! Files that are cut to each length, and files whose blocks lead back to themselves or reach too far.

use mdf_disk::MemoryDisk;
use mdf_num::Bytes;
use mdf_run_rig::{
    Asked, COUNTING, FINALIZE, FINALIZE_WORDS, FLAGS, File, Given, MARK, Part, SORT, all_are_told,
    bytes_of, is_told, told,
};
use std::sync::Wait;
use std::test::Fail;
use std::thread::Threads;

const CHECK_WORDS: &[&str] = &["check", "in.mf4"];

const OPENED_WORDS: &[&str] = &["opened", "in.mf4"];

const CHECK: Given<'static> = Given {
    words: CHECK_WORDS,
    ..FINALIZE
};

const INFO: Given<'static> = Given {
    words: &["info", "in.mf4"],
    ..FINALIZE
};

const OPENED: Given<'static> = Given {
    words: OPENED_WORDS,
    ..FINALIZE
};

pub const CUT: Given<'static> = Given {
    words: &["cut", "in.mf4", "out.mf4", "1", "3"],
    ..FINALIZE
};

const EXPORT: Given<'static> = Given {
    words: &["export", "in.mf4", "0"],
    ..FINALIZE
};

// Lengths from one up to the one before another, and what is said of a file that is cut to one of them: that the block is missing
// which a reader comes to first of those that end behind the cut.
type Cuts = (usize, usize, &'static str);

// The finished file of three samples has 1,032 bytes; its last block, with 27 bytes of records, ends at 1,027.
const FINISHED: [Cuts; 12] = [
    (0, 64, "3 not MDF\n"),
    (64, 168, "3 block at 64 is not ##HD\n"),
    (168, 224, "3 block at 168 is not ##FH\n"),
    (224, 376, "3 block at 224 is not ##TX\n"),
    (376, 432, "3 block at 376 is not ##FH\n"),
    (432, 584, "3 block at 432 is not ##TX\n"),
    (584, 648, "3 block at 584 is not ##DG\n"),
    (648, 752, "3 block at 648 is not ##CG\n"),
    (752, 784, "3 block at 752 is not ##TX\n"),
    (784, 944, "3 block at 784 is not ##CN\n"),
    (944, 976, "3 block at 944 is not ##TX\n"),
    (976, 1027, "3 block at 976 is not ##DT\n"),
];

// The sorted file of that one has 1,232 bytes, and its last block ends with them.
const SORTED: [Cuts; 14] = [
    (0, 64, "3 not MDF\n"),
    (64, 168, "3 block at 64 is not ##HD\n"),
    (168, 224, "3 block at 168 is not ##FH\n"),
    (224, 376, "3 block at 224 is not ##TX\n"),
    (376, 432, "3 block at 376 is not ##FH\n"),
    (432, 584, "3 block at 432 is not ##TX\n"),
    (584, 640, "3 block at 584 is not ##FH\n"),
    (640, 792, "3 block at 640 is not ##TX\n"),
    (792, 856, "3 block at 792 is not ##DG\n"),
    (856, 960, "3 block at 856 is not ##CG\n"),
    (960, 992, "3 block at 960 is not ##TX\n"),
    (992, 1152, "3 block at 992 is not ##CN\n"),
    (1152, 1184, "3 block at 1152 is not ##TX\n"),
    (1184, 1232, "3 block at 1184 is not ##DT\n"),
];

// The recording of three samples has 857 bytes. Its first block, of 42 bytes, stands at 768, and its second one, of 33, at 816. A
// place behind the end of the file is closed, and so is one whose byte is the last one that is left, unless that opens it.
const COUNTED: [Cuts; 8] = [
    (0, 64, "3 not MDF\n"),
    (64, 168, "3 block at 64 is not ##HD\n"),
    (168, 440, "3 block at 376 is not ##DG\n"),
    (440, 769, "0 blocks 0 bytes 0\n"),
    (769, 810, "3 block at 768 is not ##DT\n"),
    (810, 817, "0 blocks 1 bytes 18\n"),
    (817, 849, "3 block at 816 is not ##DT\n"),
    (849, 858, "0 blocks 2 bytes 27\n"),
];

// And what `finalize` says of it, which reads the whole head.
const RECORDED: [Cuts; 14] = [
    (0, 64, "3 not MDF\n"),
    (64, 168, "3 block at 64 is not ##HD\n"),
    (168, 224, "3 block at 168 is not ##FH\n"),
    (224, 376, "3 block at 224 is not ##TX\n"),
    (376, 440, "3 block at 376 is not ##DG\n"),
    (440, 544, "3 block at 440 is not ##CG\n"),
    (544, 576, "3 block at 544 is not ##TX\n"),
    (576, 736, "3 block at 576 is not ##CN\n"),
    (736, 768, "3 block at 736 is not ##TX\n"),
    (768, 769, "0 groups 1 samples 0 dropped 0\n"),
    (769, 810, "3 block at 768 is not ##DT\n"),
    (810, 817, "0 groups 1 samples 2 dropped 0\n"),
    (817, 849, "3 block at 816 is not ##DT\n"),
    (849, 858, "0 groups 1 samples 3 dropped 0\n"),
];

/// What a command says of the first bytes of a file, so many of them.
fn said_of_cut<R>(rt: &R, given: Given<'_>, file: &Bytes, length: usize) -> Result<String, Fail>
where
    R: AllocGlobal + Threads + Wait + Sync,
{
    let alloc = rt.alloc();
    let mut left = Vec::from_slice(alloc, file.as_slice())?;
    left.truncate(length);
    told(rt, given, MemoryDisk::holding(alloc, Bytes::from_vec(left)))
}

fn cut_as_told<R>(rt: &R, given: Given<'_>, file: &Bytes, cuts: Cuts) -> Result<(), Fail>
where
    R: AllocGlobal + Threads + Wait + Sync,
{
    let (from, to, want) = cuts;
    for length in from..to {
        is_told(said_of_cut(rt, given, file, length), want)?;
    }
    Ok(())
}

/// Fails where a command says something else of a file that is cut to each length.
fn all_cut_as_told<R>(rt: &R, given: Given<'_>, file: &Bytes, table: &[Cuts]) -> Result<(), Fail>
where
    R: AllocGlobal + Threads + Wait + Sync,
{
    for cuts in table {
        cut_as_told(rt, given, file, *cuts)?;
    }
    Ok(())
}

/// A file, commands, and what each of them says of it, cut to each length.
type Said = (File, &'static [Given<'static>], &'static [Cuts]);

/// Asserts that of a row.
fn row_as_told<R>(rt: &R, row: &Said) -> Result<(), Fail>
where
    R: AllocGlobal + Threads + Wait + Sync,
{
    let (file, commands, table) = row;
    let file = bytes_of(rt, file)?;
    for given in *commands {
        all_cut_as_told(rt, *given, &file, *table)?;
    }
    Ok(())
}

/// And of each row.
fn rows_as_told<R>(rt: &R, rows: &[Said]) -> Result<(), Fail>
where
    R: AllocGlobal + Threads + Wait + Sync,
{
    for row in rows {
        row_as_told(rt, row)?;
    }
    Ok(())
}

const READ: &[Said] = &[
    (File::Finished(COUNTING), &[CHECK, INFO], &FINISHED),
    (File::Sorted(COUNTING), &[CHECK, INFO], &SORTED),
    (
        File::Finished(COUNTING),
        &[CHECK],
        &[(1027, 1033, "0 valid\n")],
    ),
    (
        File::Sorted(COUNTING),
        &[CHECK],
        &[(1232, 1233, "0 valid\n")],
    ),
];

#[test]
fn a_finished_file_is_cut_to_each_length(rt: HostRuntime) -> Result<(), Fail> {
    rows_as_told(&rt, READ)
}

const MADE: &[Said] = &[
    (File::Finished(COUNTING), &[SORT, CUT, EXPORT], &FINISHED),
    (File::Sorted(COUNTING), &[SORT, CUT, EXPORT], &SORTED),
];

#[test]
fn a_finished_file_is_cut_to_each_length_before_another_is_made(
    rt: HostRuntime,
) -> Result<(), Fail> {
    rows_as_told(&rt, MADE)
}

const RECORDINGS: &[Said] = &[
    (File::Recorded(COUNTING), &[OPENED], &COUNTED),
    (File::Recorded(COUNTING), &[FINALIZE], &RECORDED),
];

#[test]
fn a_recording_is_cut_to_each_length(rt: HostRuntime) -> Result<(), Fail> {
    rows_as_told(&rt, RECORDINGS)
}

// Channels of the sorted file without an end, whose rows take 500 MB before there are too many.
const CHANNELS: &[(Asked, &str)] = &[(
    Asked(
        CHECK_WORDS,
        File::Sorted(COUNTING),
        &[(1016, b"\xE0\x03")],
        &[],
        &[],
    ),
    "3 too many CN at 992\n",
)];

#[test]
fn a_channel_that_names_itself_is_too_many(rt: HostRuntime) -> Result<(), Fail> {
    all_are_told(&rt, CHANNELS)
}

// A finished file without history, whose data link names a DL at 232 of 32 bytes, which is its own next one.
const LOOP_OF_DATA: [Part; 5] = [
    MARK,
    FLAGS,
    (232, b"##DL"),
    (240, b"\x20\0\0\0\0\0\0\0\x01"),
    (256, b"\xE8\0\0\0\0\0\0\0"),
];

// The second opened block of the recording of two says that it is 1,000 bytes longer.
const LONGER: [Part; 1] = [(280, b"\x10\x04")];

// The conversion at 904 of the file of two groups has a fifth link, which names the conversion itself.
const NESTED: [Part; 3] = [
    (920, b"\x05"),
    (960, b"\x88\x03\0\0\0\0\0\0"),
    (968, b"\x01\0\0\0\x01\0\0\0"),
];

// What is changed in a file, and what a command says of it.
const CHANGED: &[(Asked, &str)] = &[
    // a block of the sorted file whose next link names the block itself: a history and a channel group without an end
    (
        Asked(
            CHECK_WORDS,
            File::Sorted(COUNTING),
            &[(192, b"\xA8\0")],
            &[],
            &[],
        ),
        "3 too many FH at 168\n",
    ),
    (
        Asked(
            CHECK_WORDS,
            File::Sorted(COUNTING),
            &[(880, b"\x58\x03")],
            &[],
            &[],
        ),
        "3 too many CG at 856\n",
    ),
    (
        Asked(CHECK_WORDS, File::TwoBlocks(313), &LOOP_OF_DATA, &[], &[]),
        "3 too many block at 232\n",
    ),
    (
        Asked(OPENED_WORDS, File::TwoBlocks(313), &LONGER, &[], &[]),
        "3 block at 272 is not ##DT\n",
    ),
    (
        Asked(FINALIZE_WORDS, File::TwoBlocks(313), &LONGER, &[], &[]),
        "3 block at 272 is not ##DT\n",
    ),
    (
        Asked(CHECK_WORDS, File::TwoGroups, &NESTED, &[], &[]),
        "3 deep at 904\n",
    ),
];

#[test]
fn what_has_no_end_and_a_block_behind_the_end_are_refused(rt: HostRuntime) -> Result<(), Fail> {
    all_are_told(&rt, CHANGED)
}
