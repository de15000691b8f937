//! Files that are larger than what a command holds of them.
ghost use Rattle.std.specs.Prelude.{◌≡◌, None, IfOk};

use crate::runs::OPEN;
use mdf_disk::{Disk, MemoryDisk, Role};
use mdf_num::{Bytes, Failed, FaultCount};
use mdf_run_rig::{
    COUNTING, FINALIZE_WORDS, File, Part, asking, bytes_of, changed, disk_with, is_told,
    over_taken, ran,
};
use std::sync::Wait;
use std::test::Fail;
use std::thread::Threads;

/// A disk whose file begins with these bytes, and has this byte behind them up to its size. It tells nothing of it.
#[derive(Drop)]
struct Large {
    front: Bytes,
    behind: u8,
    size: u64,
    asked: Option<(Bytes, Role)>,
    faults: FaultCount,
}

impl Large {
    fn new(front: Bytes, behind: u8, size: u64) -> Large
        ensures { ⟦<Large as Disk>⟧.asked result ≡ None }
    {
        Large {
            front,
            behind,
            size,
            asked: None,
            faults: FaultCount::zero(),
        }
    }
}

impl Disk for Large {
    ghost use Rattle.std.specs.Prelude.{None, is_some};
    ghost use Rattle.std.proofs.Common.{rules};

    ghost asked = { λ d. d.asked };

    ghost attached = { λ d. is_some d.asked };

    ghost content = { λ _. None };

    ghost story = { λ _. None };

    ghost moment = { λ _. 0 };

    ghost faults = { λ d. d.faults };

    ghost agrees = { λ _. tt };

    ghost unasked = { λ d none. Prim.search rules };

    ghost unattached = { λ _ _. tt };

    fn attach(&mut self, name: Bytes, role: Role) -> Result<(), Failed> {
        self.asked = Some((name, role));
        Ok(())
    }

    fn size(&mut self) -> Result<u64, Failed> {
        Ok(self.size)
    }

    fn read_at(&mut self, at: u64, buf: &mut [u8]) -> Result<(), Failed> {
        let front = self.front.as_slice();
        let mut place = at;
        for byte in buf {
            *byte = if place < front.len() as u64 {
                front[place as usize]
            } else {
                self.behind
            };
            place = place.wrapping_add(1);
        }
        Ok(())
    }

    fn write_at(&mut self, _at: u64, _bytes: &[u8]) -> Result<(), Failed> {
        Err(self.faults.fail())
    }

    fn sync(&mut self) -> Result<(), Failed> {
        Err(self.faults.fail())
    }

    fn moment(&self) -> u64 {
        0
    }

    fn faults(&self) -> u64 {
        self.faults.get()
    }
}

// The sorted file of three samples: the count of its group at 936, and its DT at 1184. So 1,073,741,824 samples of 8 bytes are
// said to stand in it, up to 8,589,935,800.
const MANY: &[Part] = &[
    (936, b"\0\0\0\x40\0\0\0\0"),
    (1192, b"\x18\0\0\0\x02\0\0\0"),
    (1208, b"\0\0\0\0\0\0\0\0\0\0\0\0\0\0\0\0\0\0\0\0\0\0\0\0"),
];

// What the file begins with: nothing, or that file; its size; the command; and what is printed, where the name of an output is
// taken.
const LARGE: &[(bool, u64, &[&str], &str)] = &[
    (
        false,
        536_870_913,
        OPEN,
        "5 input over 536870913 536870912\n",
    ),
    (
        false,
        536_870_913,
        FINALIZE_WORDS,
        "5 input over 536870913 536870912\n",
    ),
    (false, 536_870_913, CHECK, "3 not MDF\n"),
    (
        false,
        1_099_511_627_777,
        CHECK,
        "5 input over 1099511627777 1099511627776\n",
    ),
    (
        false,
        1_099_511_627_777,
        EXPORT,
        "5 input over 1099511627777 1099511627776\n",
    ),
    (false, 1_099_511_627_776, EXPORT, "3 not MDF\n"),
    (true, 8_589_935_800, CHECK, "0 valid\n"),
    (
        true,
        8_589_935_800,
        INFO,
        "0 version 410\ngroup 0 g channels 1 samples 1073741824\ngroups 1 samples 1073741824 dropped 0\n",
    ),
    (
        true,
        8_589_935_800,
        &["export", "in.mf4", "1"],
        "3 no group 1 of 1\n",
    ),
    (
        true,
        8_589_935_800,
        &["sort", "in.mf4", "out.mf4"],
        "5 input over 8589935800 536870912\n",
    ),
];

const CHECK: &[&str] = &["check", "in.mf4"];

const INFO: &[&str] = &["info", "in.mf4"];

const EXPORT: &[&str] = &["export", "in.mf4", "0"];

const LIST: &[&str] = &["attachments", "in.mf4"];

/// A disk with such a file.
fn disk_of<R>(rt: &R, many: bool, size: u64) -> Result<Large, Fail>
where
    R: AllocGlobal + Threads + Wait + Sync,
    ensures { IfOk result (λ disk. ⟦<Large as Disk>⟧.asked disk ≡ None) }
{
    if !many {
        return Ok(Large::new(Bytes::empty(rt.alloc()), 0, size));
    }
    let sorted = bytes_of(rt, &File::Sorted(COUNTING))?;
    Ok(Large::new(changed(rt.alloc(), &sorted, MANY)?, 0, size))
}

/// What is printed and left of a command over that disk, where the name of the output is taken.
fn large_told<R>(rt: &R, many: bool, size: u64, words: &[&str]) -> Result<String, Fail>
where
    R: AllocGlobal + Threads + Wait + Sync,
{
    let first = disk_of(rt, many, size)?;
    over_taken(rt, asking(words, &[]), first)
}

/// What is left of a command that makes no file.
fn with_nothing_made<R: AllocGlobal>(rt: &R, text: &str) -> Result<String, Fail> {
    Ok(format!(in rt.alloc(); "{text}file 5 history 0 marks []")?)
}

/// Fails where another text is printed than that of a row, or a file is made.
fn is_so<R>(rt: &R, row: &(bool, u64, &[&str], &str)) -> Result<(), Fail>
where
    R: AllocGlobal + Threads + Wait + Sync,
{
    let want = with_nothing_made(rt, row.3)?;
    is_told(large_told(rt, row.0, row.1, row.2), want.as_str())
}

#[test]
fn a_large_file_is_read_piece_by_piece_or_refused(rt: HostRuntime) -> Result<(), Fail> {
    for row in LARGE {
        is_so(&rt, row)?;
    }
    Ok(())
}

/// How many calls of its disk a command makes of the finished file of three samples.
fn calls_of<R>(rt: &R, words: &[&str]) -> Result<u64, Fail>
where
    R: AllocGlobal + Threads + Wait + Sync,
{
    let file = bytes_of(rt, &File::Finished(COUNTING))?;
    let first = disk_with(rt.alloc(), file, &[])?;
    let ended = ran(rt, asking(words, &[]), first, MemoryDisk::new(rt.alloc()))?;
    Ok(ended.finished.first.calls())
}

// The attach, the size twice, and the one page.
#[test]
fn a_small_file_takes_four_calls(rt: HostRuntime) -> Result<(), Fail> {
    for words in [CHECK, INFO, EXPORT, LIST] {
        assert!(&rt; calls_of(&rt, words)? == 4);
    }
    Ok(())
}

/// The file of an attachment with other bytes put into it, the byte behind it, and its size.
struct Attached(&'static [Part], u8, u64);

// Two attachments that share their embedded data, so that a file of half as many bytes has all that are read, and one byte more;
// and an attachment of which the MIME type and the comment are the same text, up to the end of the file, so that it has twice all bytes
// of texts that are read, and a name of one byte more before them.
const AT_THE_LIMITS: &[(Attached, &str)] = &[
    (
        Attached(
            &[
                (176, b"\x60\0\0\x10"),
                (192, b"\x30\x01"),
                (200, b"\0\0"),
                (208, b"\0\0"),
                (224, b"\0"),
                (256, b"\0\0\0\x10"),
                (304, b"##AT\0\0\0\0\x60\0\0\x10\0\0\0\0\x04"),
                (328, b"\0\0\0\0\0\0\0\0\0\0"),
                (392, b"\0\0\0\x10"),
            ],
            0,
            268_435_856,
        ),
        "0 attachment 0 - size 3 embedded 268435456 md5 none\nattachment 1 - size 0 embedded 268435456 md5 none\n",
    ),
    (
        Attached(
            &[
                (176, b"\x60\0\0\x10"),
                (192, b"\x30\x01"),
                (200, b"\0\0"),
                (208, b"\0\0"),
                (224, b"\0"),
                (256, b"\0\0\0\x10"),
                (304, b"##AT\0\0\0\0\x61\0\0\x10\0\0\0\0\x04"),
                (328, b"\0\0\0\0\0\0\0\0\0\0"),
                (392, b"\x01\0\0\x10"),
            ],
            0,
            268_435_864,
        ),
        "3 too many AT at 304\n",
    ),
    (
        Attached(
            &[
                (200, b"\0\0"),
                (216, b"\x30\x01"),
                (312, b"\x18\0\0\x02"),
                (338, TEXT),
            ],
            b'a',
            33_554_760,
        ),
        "0 attachment 0 - size 3 embedded 3 md5 ok\n",
    ),
    (
        Attached(
            &[
                (216, b"\x30\x01"),
                (297, b"\0"),
                (312, b"\x18\0\0\x02"),
                (338, TEXT),
            ],
            b'a',
            33_554_760,
        ),
        "3 too many text at 304\n",
    ),
];

// What stands behind a text up to the length of the front.
const TEXT: &[u8] = b"aaaaaaaaaaaaaaaaaaaaaaaaaaaaaaaaaaaaaaaaaaaaaaaaaaaaaaaaaaaaaa";

/// What is listed of the attachments of such a file.
fn listed<R>(rt: &R, file: &Attached) -> Result<String, Fail>
where
    R: AllocGlobal + Threads + Wait + Sync,
{
    let mut front = bytes_of(rt, &File::Attached)?;
    front.push_slice(&[0u8; 56])?;
    let first = Large::new(changed(rt.alloc(), &front, file.0)?, file.1, file.2);
    over_taken(rt, asking(LIST, &[]), first)
}

#[test]
fn as_many_bytes_of_attachments_are_listed_as_may_be(rt: HostRuntime) -> Result<(), Fail> {
    for (file, text) in AT_THE_LIMITS {
        let want = with_nothing_made(&rt, *text)?;
        is_told(listed(&rt, file), want.as_str())?;
    }
    Ok(())
}
