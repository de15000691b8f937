//! Two files that are joined into one, and pairs that are not.

use crate::tables::{Made, all_are_made};
use mdf_num::Bytes;
use mdf_run_rig::{
    COUNTING, FINALIZE, File, Given, Left, Part, THREE_TEXTS, bytes_of, changed, finished, is_told,
    made_of,
};
use std::alloc::Global;
use std::sync::Wait;
use std::test::Fail;
use std::thread::Threads;

const CONCAT_WORDS: &[&str] = &["concat", "in.mf4", "in.mf4", "out.mf4"];

pub const CONCAT: Given<'static> = Given {
    words: CONCAT_WORDS,
    ..FINALIZE
};

// The same recording with numbers of 32 bits; and two groups, of which the first is the same.
const NARROW: &str = "group 0 g\nchannel t u32 master\nbegin\n0 1\n0 2\n! 0\n0 3\nend\n";

const TWO_GROUPS: &str =
    "group 0 g\nchannel t u64 master\ngroup 0 h\nchannel y u8\nbegin\n0 1\n1 7\nend\n";

/// What is left where these two files are joined.
fn concat_of<R>(rt: &R, first: Bytes, second: &Bytes) -> Result<Left, Fail>
where
    R: AllocGlobal + Threads + Wait + Sync,
{
    let given = Given {
        second: second.as_slice(),
        ..CONCAT
    };
    made_of(rt, given, first)
}

// What is printed and exported of three numbers that are joined with themselves.
const TWICE: &str =
    "0 groups 1 samples 6 dropped 0\n0 valid\n0 index,t\n0,1\n1,2\n2,3\n3,1\n4,2\n5,3\n";

// A file; what is printed where it is joined with itself, and what `check` and `export` say of the file that is made.
const JOINED: &[(Made, &str)] = &[
    (Made(CONCAT_WORDS, File::Finished(COUNTING)), TWICE),
    (Made(CONCAT_WORDS, File::Sorted(COUNTING)), TWICE),
    (Made(CONCAT_WORDS, File::Finished(NARROW)), TWICE),
    (
        Made(CONCAT_WORDS, File::Finished(THREE_TEXTS)),
        "0 groups 1 samples 6 dropped 0\n0 valid\n0 index,v\n0,x\n1,x6162\n2,x63\n3,x\n4,x6162\n5,x63\n",
    ),
];

#[test]
fn joined_with_itself(rt: HostRuntime) -> Result<(), Fail> {
    all_are_made(&rt, JOINED)
}

/// Two files.
struct Apart(File, File);

/// What is printed, and how many bytes the file has that is made.
fn length_told(alloc: Global, left: &Left) -> Result<String, Fail> {
    let text = left.line.as_str();
    Ok(format!(in alloc; "{text}{}", left.file.as_slice().len())?)
}

fn apart_told<R>(rt: &R, row: &Apart) -> Result<String, Fail>
where
    R: AllocGlobal + Threads + Wait + Sync,
{
    let second = bytes_of(rt, &row.1)?;
    let left = concat_of(rt, bytes_of(rt, &row.0)?, &second)?;
    length_told(rt.alloc(), &left)
}

// Two files that can't be joined, and why, and that nothing is made.
const APART: &[(Apart, &str)] = &[
    (
        Apart(File::Sorted(COUNTING), File::Sorted(NARROW)),
        "3 differs group 0\n0",
    ),
    (
        Apart(File::Finished(NARROW), File::Finished(COUNTING)),
        "3 differs group 0\n0",
    ),
    (
        Apart(File::Finished(COUNTING), File::Finished(TWO_GROUPS)),
        "3 differs group 1\n0",
    ),
    (
        Apart(File::Finished(TWO_GROUPS), File::Finished(COUNTING)),
        "3 differs group 1\n0",
    ),
];

#[test]
fn joined_with_another_type(rt: HostRuntime) -> Result<(), Fail> {
    for (row, want) in APART {
        is_told(apart_told(&rt, row), *want)?;
    }
    Ok(())
}

/// What is put into the first file and into the second of those of three texts.
struct Changed(&'static [Part], &'static [Part]);

/// What is printed where this file is changed so and joined.
fn changed_told<R>(rt: &R, file: &Bytes, row: &Changed) -> Result<String, Fail>
where
    R: AllocGlobal + Threads + Wait + Sync,
{
    let second = changed(rt.alloc(), file, row.1)?;
    let left = concat_of(rt, changed(rt.alloc(), file, row.0)?, &second)?;
    Ok(left.line)
}

// What is put into both files, and what is printed. The bits of an offset stand at 880; the offsets are 0, 4 and 10 in a stream of
// 15 bytes, so those of the second file become 15, 19 and 25.
const CHANGED: &[(Changed, &str)] = &[
    (
        Changed(&[(880, b"\x05")], &[(880, b"\x05")]),
        "0 groups 1 samples 6 dropped 0\n",
    ),
    (
        Changed(&[(880, b"\x04")], &[(880, b"\x04")]),
        "3 wide group 0 channel 0\n",
    ),
    (Changed(&[(880, b"\x04")], &[]), "3 differs group 0\n"),
    (Changed(&[(0, b"X")], &[(584, b"X")]), "3 not MDF\n"),
    (Changed(&[], &[(584, b"X")]), "3 block at 584 is not ##DG\n"),
];

#[test]
fn changed_files_are_joined_or_refused(rt: HostRuntime) -> Result<(), Fail> {
    let file = finished(&rt, THREE_TEXTS)?;
    for (row, want) in CHANGED {
        is_told(changed_told(&rt, &file, row), *want)?;
    }
    Ok(())
}
