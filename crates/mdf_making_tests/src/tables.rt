//! What `cut` makes of a finished file, and the tables that `export` prints.

use mdf_num::Bytes;
use mdf_run_rig::{
    Asked, COUNTING, File, Given, Left, all_are_told, asking, bytes_of, is_told, made_of, said,
};
use std::alloc::Global;
use std::sync::Wait;
use std::test::Fail;
use std::thread::Threads;

const ENGINE: &[&str] = &["export", "in.mf4", "0"];

const GEARBOX: &[&str] = &["export", "in.mf4", "1"];

const FINISHED: File = File::Finished(COUNTING);

// The group; what is changed in the file of the two data groups engine and gearbox; which call of the sink fails; the status
// and what is printed. The time is a float of 64 bits, of which the bits are told: those of 0.5 are 4602678819172646912.
const TABLES: &[(Asked, &str)] = &[
    (
        Asked(ENGINE, File::TwoGroups, &[], &[], &[]),
        "0 index,time,rpm\n0,0,800\n1,4602678819172646912,850\n",
    ),
    (
        Asked(GEARBOX, File::TwoGroups, &[], &[], &[]),
        "0 index,time,gear\n0,0,3\n",
    ),
    (
        Asked(&["export", "in.mf4", "2"], File::TwoGroups, &[], &[], &[]),
        "3 no group 2 of 2\n",
    ),
    (
        Asked(
            &["export", "in.mf4", "18446744073709551615"],
            File::TwoGroups,
            &[],
            &[],
            &[],
        ),
        "3 no group 18446744073709551615 of 2\n",
    ),
    (
        Asked(ENGINE, File::TwoGroups, &[(432, b"\x03")], &[], &[]),
        "3 cycles group 0 said 3 found 2\n",
    ),
    (
        Asked(ENGINE, File::TwoGroups, &[(0, b"X")], &[], &[]),
        "3 not MDF\n",
    ),
    (
        Asked(ENGINE, File::TwoGroups, &[], &[], &[1]),
        "6 index,time,rpm\n",
    ),
    (
        Asked(ENGINE, File::TwoGroups, &[(0, b"X")], &[], &[0]),
        "3 ",
    ),
];

#[test]
fn foreign_file_checked_and_exported(rt: HostRuntime) -> Result<(), Fail> {
    all_are_told(&rt, TABLES)
}

/// What `check` and `export` print of this file.
fn checked_and_exported<R>(rt: &R, file: &Bytes) -> Result<(String, String), Fail>
where
    R: AllocGlobal + Threads + Wait + Sync,
{
    let check = said(rt, &["check", "in.mf4"], file.copy()?)?;
    Ok((check, said(rt, ENGINE, file.copy()?)?))
}

/// What was printed, and what is printed of the file that was made.
fn made_line(alloc: Global, text: &str, (check, table): &(String, String)) -> Result<String, Fail> {
    Ok(format!(in alloc; "{text}{check}{table}")?)
}

/// What was printed, and what `check` and `export` print of the file that was made.
fn made_told<R>(rt: &R, made: &Left) -> Result<String, Fail>
where
    R: AllocGlobal + Threads + Wait + Sync,
{
    let said = checked_and_exported(rt, &made.file)?;
    made_line(rt.alloc(), made.line.as_str(), &said)
}

/// The words of a command that makes a file, and its input, which is its second input too.
pub struct Made(pub &'static [&'static str], pub File);

/// What is left of that command.
fn left_of<R>(rt: &R, row: &Made) -> Result<Left, Fail>
where
    R: AllocGlobal + Threads + Wait + Sync,
{
    let file = bytes_of(rt, &row.1)?;
    let given = Given {
        second: file.as_slice(),
        ..asking(row.0, &[])
    };
    made_of(rt, given, file.copy()?)
}

fn row_told<R>(rt: &R, row: &Made) -> Result<String, Fail>
where
    R: AllocGlobal + Threads + Wait + Sync,
{
    let left = left_of(rt, row)?;
    made_told(rt, &left)
}

/// Fails where a row is told as another text than the one beside it.
pub fn all_are_made<R>(rt: &R, rows: &[(Made, &str)]) -> Result<(), Fail>
where
    R: AllocGlobal + Threads + Wait + Sync,
{
    for (row, want) in rows {
        is_told(row_told(rt, row), *want)?;
    }
    Ok(())
}

// The words and the file; what is printed, and what `check` and `export` say of the file that is made.
const SORTED: &[(Made, &str)] = &[(
    Made(&["sort", "in.mf4", "out.mf4"], FINISHED),
    "0 groups 1 samples 3 dropped 0\n0 valid\n0 index,t\n0,1\n1,2\n2,3\n",
)];

#[test]
fn finalized_checked_sorted_exported(rt: HostRuntime) -> Result<(), Fail> {
    all_are_made(&rt, SORTED)
}

// The range of the master, whose numbers are 1, 2 and 3; what is printed, and what `check` and `export` say of the file that
// is made.
const CUTS: &[(Made, &str)] = &[
    (
        Made(&["cut", "in.mf4", "out.mf4", "2", "2"], FINISHED),
        "0 groups 1 samples 0 dropped 0\n0 valid\n0 index,t\n",
    ),
    (
        Made(&["cut", "in.mf4", "out.mf4", "1", "3"], FINISHED),
        "0 groups 1 samples 2 dropped 0\n0 valid\n0 index,t\n0,1\n1,2\n",
    ),
    (
        Made(
            &["cut", "in.mf4", "out.mf4", "-9223372036854775808", "2"],
            FINISHED,
        ),
        "0 groups 1 samples 1 dropped 0\n0 valid\n0 index,t\n0,1\n",
    ),
    (
        Made(
            &["cut", "in.mf4", "out.mf4", "3", "18446744073709551615"],
            FINISHED,
        ),
        "0 groups 1 samples 1 dropped 0\n0 valid\n0 index,t\n0,3\n",
    ),
    (
        Made(
            &["cut", "in.mf4", "out.mf4", "5", "5"],
            File::Sorted(COUNTING),
        ),
        "0 groups 1 samples 0 dropped 0\n0 valid\n0 index,t\n",
    ),
    (
        Made(
            &["cut", "in.mf4", "out.mf4", "2", "4"],
            File::Sorted(COUNTING),
        ),
        "0 groups 1 samples 2 dropped 0\n0 valid\n0 index,t\n0,2\n1,3\n",
    ),
];

#[test]
fn cut_to_nothing_and_to_two(rt: HostRuntime) -> Result<(), Fail> {
    all_are_made(&rt, CUTS)
}
