//! Attachments that are listed, and carried into a finished file.

use mdf_num::Bytes;
use mdf_run_rig::{
    Asked, COUNTING, FINALIZE, File, Given, Left, Part, all_are_told, all_stand, bytes_of, changed,
    is_told, made_of, said,
};
use std::sync::Wait;
use std::test::Fail;
use std::thread::Threads;

const LIST: &[&str] = &["attachments", "in.mf4"];

// What is put into the file of an attachment; which calls of its disk and of the sink fail; and what is printed.
const LISTED: &[(Asked, &str)] = &[
    (
        Asked(LIST, File::Attached, &[], &[], &[]),
        "0 attachment 0 a.txt size 3 embedded 3 md5 ok\n",
    ),
    (
        Asked(LIST, File::Attached, &[(266, b"d")], &[], &[]),
        "0 attachment 0 a.txt size 3 embedded 3 md5 bad\n",
    ),
    (
        Asked(LIST, File::Attached, &[(224, b"\x07")], &[], &[]),
        "0 attachment 0 a.txt size 3 embedded 3 md5 none\n",
    ),
    (
        Asked(
            LIST,
            File::Attached,
            &[(248, b"\xFF\xFF\xFF\xFF\xFF\xFF\xFF\xFF"), (298, b"\x1F")],
            &[],
            &[],
        ),
        "0 attachment 0 a.?xt size 18446744073709551615 embedded 3 md5 ok\n",
    ),
    (
        Asked(LIST, File::Attached, &[(200, b"\0\0")], &[], &[]),
        "0 attachment 0 - size 3 embedded 3 md5 ok\n",
    ),
    // none
    (Asked(LIST, File::Attached, &[(112, b"\0")], &[], &[]), "0 "),
    // refusals, the first of them of an attachment that names itself as the next one
    (
        Asked(
            LIST,
            File::Attached,
            &[(192, b"\xA8"), (200, b"\0\0"), (208, b"\0\0"), (224, b"\0")],
            &[],
            &[],
        ),
        "3 too many AT at 168\n",
    ),
    (
        Asked(LIST, File::Attached, &[(256, b"\x04")], &[], &[]),
        "3 block at 168 is not ##AT\n",
    ),
    (
        Asked(LIST, File::Attached, &[(216, b"\xA8")], &[], &[]),
        "3 block at 168 is not ##TX\n",
    ),
    (
        Asked(LIST, File::Attached, &[(0, b"UnFinMF")], &[], &[]),
        "3 unfinalized 0 0\n",
    ),
    (
        Asked(LIST, File::Attached, &[(28, b"\xA4")], &[], &[]),
        "3 version 420\n",
    ),
    (
        Asked(LIST, File::Attached, &[(0, b"X")], &[], &[]),
        "3 not MDF\n",
    ),
    // the disk of the input, or the sink, fails
    (
        Asked(LIST, File::Attached, &[], &[0], &[]),
        "4 device fault\n",
    ),
    (Asked(LIST, File::Attached, &[], &[], &[0]), "6 "),
];

#[test]
fn attachments_are_listed(rt: HostRuntime) -> Result<(), Fail> {
    all_are_told(&rt, LISTED)
}

pub const ATTACH: Given<'static> = Given {
    words: &["attach", "in.mf4", "in.mf4", "out.mf4"],
    ..FINALIZE
};

/// What is left where the attachments of the first file are carried into the second.
fn carry<R>(rt: &R, first: Bytes, second: &Bytes) -> Result<Left, Fail>
where
    R: AllocGlobal + Threads + Wait + Sync,
{
    let given = Given {
        second: second.as_slice(),
        ..ATTACH
    };
    made_of(rt, given, first)
}

/// A file with attachments and what is put into it, and a file that they are carried into and what is put into that.
struct Carried(File, &'static [Part], File, &'static [Part]);

impl Carried {
    fn left<R>(&self, rt: &R) -> Result<Left, Fail>
    where
        R: AllocGlobal + Threads + Wait + Sync,
    {
        let first = changed(rt.alloc(), &bytes_of(rt, &self.0)?, self.1)?;
        let second = changed(rt.alloc(), &bytes_of(rt, &self.2)?, self.3)?;
        carry(rt, first, &second)
    }
}

/// What is printed, how many bytes the file has that is made, and what `attachments` and `check` say of it.
fn carried_told<R>(rt: &R, row: &Carried) -> Result<String, Fail>
where
    R: AllocGlobal + Threads + Wait + Sync,
{
    let left = row.left(rt)?;
    let line = left.line.as_str();
    let size = left.file.as_slice().len();
    let list = said(rt, LIST, left.file.copy()?)?;
    let check = said(rt, &["check", "out.mf4"], left.file.copy()?)?;
    Ok(format!(in rt.alloc(); "{line}{size}\n{list}{check}")?)
}

const SORTED: File = File::Sorted(COUNTING);

// The attachment carried into a sorted and into a finished file, and into its own; none; and files that are refused, of which nothing is
// made.
const CARRIED: &[(Carried, &str)] = &[
    (
        Carried(File::Attached, &[], SORTED, &[]),
        "0 groups 1 samples 3 dropped 0\n1616\n0 attachment 0 a.txt size 3 embedded 3 md5 ok\n0 valid\n",
    ),
    (
        Carried(File::Attached, &[], File::Finished(COUNTING), &[]),
        "0 groups 1 samples 3 dropped 0\n1408\n0 attachment 0 a.txt size 3 embedded 3 md5 ok\n0 valid\n",
    ),
    (
        Carried(File::Attached, &[(224, b"\x07")], File::Attached, &[]),
        "0 groups 0 samples 0 dropped 1\n552\n0 attachment 0 a.txt size 3 embedded 3 md5 none\n0 valid\n",
    ),
    (
        Carried(SORTED, &[], SORTED, &[]),
        "0 groups 1 samples 3 dropped 0\n1440\n0 0 valid\n",
    ),
    (
        Carried(
            File::Attached,
            &[(192, b"\xA8"), (200, b"\0\0"), (208, b"\0\0")],
            SORTED,
            &[(0, b"X")],
        ),
        "3 too many AT at 168\n0\n3 not MDF\n3 not MDF\n",
    ),
    (
        Carried(File::Attached, &[], SORTED, &[(0, b"X")]),
        "3 not MDF\n0\n3 not MDF\n3 not MDF\n",
    ),
];

#[test]
fn attachments_are_carried(rt: HostRuntime) -> Result<(), Fail> {
    for (row, want) in CARRIED {
        is_told(carried_told(&rt, row), *want)?;
    }
    Ok(())
}

// The attachment behind the sorted file, whose header names it.
const BEHIND: [Part; 9] = [
    (112, b"\xA0\x05\0\0\0\0\0\0"),
    (1440, b"##AT\0\0\0\0\x63\0\0\0\0\0\0\0\x04\0\0\0\0\0\0\0"),
    (1464, b"\0\0\0\0\0\0\0\0\x08\x06\0\0\0\0\0\0"),
    (1480, b"\x28\x06\0\0\0\0\0\0\0\0\0\0\0\0\0\0"),
    (1496, b"\x05\0\0\0\0\0\0\0"),
    (
        1504,
        b"\x90\x01\x50\x98\x3C\xD2\x4F\xB0\xD6\x96\x3F\x7D\x28\xE1\x7F\x72",
    ),
    (1520, b"\x03\0\0\0\0\0\0\0\x03\0\0\0\0\0\0\0"),
    (1536, b"abc\0\0\0\0\0##TX"),
    (1576, b"##TX"),
];

#[test]
fn a_carried_attachment_has_its_blocks(rt: HostRuntime) -> Result<(), Fail> {
    let left = Carried(File::Attached, &[], SORTED, &[]).left(&rt)?;
    all_stand(left.file.as_slice(), &BEHIND)
}
