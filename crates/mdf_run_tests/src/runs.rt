//! What `opened` prints, what is printed of words that are no command, and what is printed and left of recordings.

use mdf_num::{Bytes, Memory};
use mdf_run_rig::{
    Asked, COUNTING, EMPTY, File, LISTED, Part, THREE_TEXTS, all_are_told, all_stand, failing_disk,
    is_told, record, record_told, recorded, said,
};
use std::alloc::Global;
use std::sync::Wait;
use std::test::Fail;
use std::thread::Threads;

pub const OPEN: &[&str] = &["opened", "in.mf4"];

// The recording of two blocks, of which the length is given and the parts that are put into it; which calls of its disk and of the
// sink fail; the status and what is printed.
const OPENED: &[(Asked, &str)] = &[
    (
        Asked(OPEN, File::TwoBlocks(233), &[(232, b"\0")], &[], &[]),
        "0 blocks 0 bytes 0\n",
    ),
    (
        Asked(OPEN, File::TwoBlocks(313), &[], &[], &[]),
        "0 blocks 2 bytes 26\n",
    ),
    (
        Asked(OPEN, File::TwoBlocks(313), &[(272, b"\"")], &[], &[]),
        "0 blocks 1 bytes 10\n",
    ),
    (
        Asked(OPEN, File::TwoBlocks(312), &[], &[], &[]),
        "0 blocks 2 bytes 26\n",
    ),
    (
        Asked(OPEN, File::TwoBlocks(313), &[(0, b"\0")], &[], &[]),
        "3 not MDF\n",
    ),
    (
        Asked(OPEN, File::TwoBlocks(313), &[(274, b"X")], &[], &[]),
        "3 block at 272 is not ##DT\n",
    ),
    (
        Asked(OPEN, File::TwoBlocks(313), &[(28, b"\xA4")], &[], &[]),
        "3 version 420\n",
    ),
    (
        Asked(OPEN, File::TwoBlocks(313), &[(62, b"\x02")], &[], &[]),
        "3 not a recording 33 2\n",
    ),
    (
        Asked(OPEN, File::TwoBlocks(313), &[], &[0], &[]),
        "4 device fault\n",
    ),
    (
        Asked(OPEN, File::TwoBlocks(313), &[], &[1], &[]),
        "4 device fault\n",
    ),
    (
        Asked(OPEN, File::TwoBlocks(313), &[], &[2], &[]),
        "4 device fault\n",
    ),
    (Asked(OPEN, File::TwoBlocks(313), &[], &[], &[0]), "6 "),
    // a line is given at once
    (
        Asked(OPEN, File::TwoBlocks(313), &[], &[], &[1]),
        "0 blocks 2 bytes 26\n",
    ),
    (Asked(OPEN, File::TwoBlocks(0), &[], &[], &[0]), "3 "),
];

#[test]
fn opened_prints_its_line(rt: HostRuntime) -> Result<(), Fail> {
    all_are_told(&rt, OPENED)
}

const USAGE: &str =
    "1 usage: opened IN | record OUT | finalize IN OUT | check IN | info IN | sort IN OUT | cut IN OUT FROM TO | concat A B OUT | export IN GROUP | gen N OUT | attachments IN | attach A B OUT | rotate OUT\n";

// Words that are no command, a command a line, with one blank between two words.
const WRONG: &str = "frob
opened
opened a b
record
record a b
finalize a
Record a
 a
cut a b 0
cut a b x 5
cut a b 0 +5
cut a b -0 5
cut a b 007 8
cut a b 0\x20
cut a b 0 -
cut a b 0 18446744073709551616
cut a b -9223372036854775809 0
concat a b
concat a b c d
attach a b
attach a b c d
attachments
attachments a b
export a
export a -1
export a 18446744073709551616
gen 1
gen 0 a
gen 1000001 a
gen 01 a
gen +1 a
gen  a";

/// The words of a line.
fn words_of(alloc: Global, line: &'static str) -> Result<Vec<&'static str>, Memory> {
    let mut words = Vec::new(alloc);
    for word in line.split(' ') {
        words.push(word)?;
    }
    Ok(words)
}

/// What is printed where these are the words.
fn words_told<R>(rt: &R, words: &[&str]) -> Result<String, Fail>
where
    R: AllocGlobal + Threads + Wait + Sync,
{
    said(rt, words, Bytes::empty(rt.alloc()))
}

/// What is printed where the words are those of this line.
fn line_told<R>(rt: &R, line: &'static str) -> Result<String, Fail>
where
    R: AllocGlobal + Threads + Wait + Sync,
{
    let words = words_of(rt.alloc(), line)?;
    words_told(rt, words.as_slice())
}

#[test]
fn wrong_words_print_the_usage(rt: HostRuntime) -> Result<(), Fail> {
    is_told(words_told(&rt, &[]), USAGE)?;
    for line in WRONG.lines() {
        is_told(line_told(&rt, line), USAGE)?;
    }
    Ok(())
}

// Three samples of one channel, with a flush after the second, with one record of 9 bytes a block, and with session limits that have room for one sample and for two, of which
// each costs 145.
const SMALL_BLOCKS: &str =
    "block 9\ngroup 0 g\nchannel t u64 master\nbegin\n0 1\n0 2\n! 0\n0 3\nend\n";

const SHORT_SESSION: &str =
    "session 200\ngroup 0 g\nchannel t u64 master\nbegin\n0 1\n0 2\n! 0\n0 3\nend\n";

const TWO_SAMPLES: &str =
    "session 290\ngroup 0 g\nchannel t u64 master\nbegin\n0 1\n0 2\n! 0\n0 3\nend\n";

// Two groups of two sources. The second group adds 328 bytes to the head; each record has its id and a byte.
pub const TWO_SOURCES: &str =
    "group 0 a\nchannel x u8\ngroup 1 b\nchannel y u8\nbegin\n0 1\n0 2\n1 7\n1 8\nend\n";

// The first sample fills a block, and the second is longer.
const FULL_BLOCK: &str =
    "block 20\ngroup 0 g\nchannel v var\nbegin\n0 x010203040506\n0 x01020304050607\nend\n";

// A script; which calls of the source, of the disk and of the sink fail; the status and what is printed, with what is
// left. The head and its closed gate are 769 bytes. A block adds 24 bytes and its data, up to the next multiple of 8, and in
// form 2 56 bytes more.
// Making the file takes the calls 0 to 7 of the disk, and each block four.
const RECORDED: &[(Recording, &str)] = &[
    (
        Recording(COUNTING, &[], &[], &[]),
        "0 source 0 accepted 3\nsamples 3 durable 3\nfile 857 history 3 marks [0, 2, 3]",
    ),
    (
        Recording(LISTED, &[], &[], &[]),
        "0 source 0 accepted 3\nsamples 3 durable 3\nfile 969 history 3 marks [0, 2, 3]",
    ),
    (
        Recording(EMPTY, &[], &[], &[]),
        "0 source 0 accepted 0\nsamples 0 durable 0\nfile 769 history 0 marks [0]",
    ),
    (
        Recording(SMALL_BLOCKS, &[], &[], &[]),
        "0 source 0 accepted 3\nsamples 3 durable 3\nfile 889 history 3 marks [0, 1, 2, 3]",
    ),
    (
        Recording(TWO_SOURCES, &[], &[], &[]),
        "0 source 0 accepted 2\nsource 1 accepted 2\nsamples 4 durable 4\nfile 1129 history 4 marks [0, 4]",
    ),
    (
        Recording(THREE_TEXTS, &[], &[], &[]),
        "0 source 0 accepted 3\nsamples 3 durable 3\nfile 945 history 3 marks [0, 3]",
    ),
    (
        Recording(FULL_BLOCK, &[], &[], &[]),
        "8 script line 6\nfile 0 history 0 marks []",
    ),
    (
        Recording(COUNTING, &[0], &[], &[]),
        "2 source fault\nfile 0 history 0 marks []",
    ),
    (
        Recording(COUNTING, &[1], &[], &[]),
        "2 source fault\nfile 0 history 0 marks []",
    ),
    (
        Recording("group 0 g\ngroup 0 g\n", &[], &[], &[]),
        "8 script line 2\nfile 0 history 0 marks []",
    ),
    (Recording("", &[], &[], &[0]), "8 file 0 history 0 marks []"),
    (
        Recording(SHORT_SESSION, &[], &[], &[]),
        "5 source 0 accepted 1\nsamples 1 durable 1\nsession full 145 145 200\nfile 809 history 1 marks [0, 1]",
    ),
    (
        Recording(TWO_SAMPLES, &[], &[], &[]),
        "5 source 0 accepted 2\nsamples 2 durable 2\nsession full 290 145 290\nfile 817 history 2 marks [0, 2]",
    ),
    (
        Recording(SHORT_SESSION, &[], &[8], &[]),
        "4 source 0 accepted 1\nsamples 1 durable 0\ndevice fault\nfile 769 history 1 marks [0]",
    ),
    (
        Recording(COUNTING, &[], &[0], &[]),
        "4 device fault\nfile 0 history 0 marks []",
    ),
    (
        Recording(COUNTING, &[], &[8], &[]),
        "4 source 0 accepted 2\nsamples 2 durable 0\ndevice fault\nfile 769 history 2 marks [0]",
    ),
    (
        Recording(COUNTING, &[], &[12], &[]),
        "4 source 0 accepted 3\nsamples 3 durable 2\ndevice fault\nfile 817 history 3 marks [0, 2]",
    ),
    (
        Recording(COUNTING, &[], &[8], &[0]),
        "4 file 769 history 2 marks [0]",
    ),
    (
        Recording(COUNTING, &[], &[], &[0]),
        "6 file 857 history 3 marks [0, 2, 3]",
    ),
    (
        Recording(COUNTING, &[], &[], &[1]),
        "6 source 0 accepted 3\nfile 857 history 3 marks [0, 2, 3]",
    ),
    (
        Recording(COUNTING, &[], &[], &[2]),
        "0 source 0 accepted 3\nsamples 3 durable 3\nfile 857 history 3 marks [0, 2, 3]",
    ),
];

/// A script, and which calls of the source, of the disk and of the sink fail.
pub struct Recording(
    pub &'static str,
    pub &'static [u64],
    pub &'static [u64],
    pub &'static [u64],
);

fn recording_told<R>(rt: &R, row: &Recording) -> Result<String, Fail>
where
    R: AllocGlobal + Threads + Wait + Sync,
{
    let out = failing_disk(rt.alloc(), row.2)?;
    record_told(rt, record(row.0, row.1, row.3), out)
}

/// Fails where the recording of a row is told as another text than the one beside it.
pub fn all_are_recorded<R>(rt: &R, rows: &[(Recording, &str)]) -> Result<(), Fail>
where
    R: AllocGlobal + Threads + Wait + Sync,
{
    for (row, want) in rows {
        is_told(recording_told(rt, row), *want)?;
    }
    Ok(())
}

#[test]
fn a_script_is_recorded(rt: HostRuntime) -> Result<(), Fail> {
    all_are_recorded(&rt, RECORDED)
}

// The blocks of the head of that recording and the names in them, its two blocks of data, and the closed place behind
// them.
const COUNTED: [Part; 18] = [
    (0, b"UnFinMF 4.10    mdf4rec "),
    (64, b"##HD"),
    (168, b"##FH"),
    (224, b"##MD"),
    (376, b"##DG"),
    (440, b"##CG"),
    (544, b"##TX"),
    (568, b"g\0\0\0\0\0\0\0"),
    (576, b"##CN"),
    (736, b"##TX"),
    (760, b"t\0\0\0\0\0\0\0"),
    (768, b"##DT\0\0\0\0\x2A\0\0\0\0\0\0\0"),
    (792, b"\x01\x01\0\0\0\0\0\0\0"),
    (801, b"\x01\x02\0\0\0\0\0\0\0"),
    (810, b"\0\0\0\0\0\0"),
    (816, b"##DT\0\0\0\0\x21\0\0\0\0\0\0\0"),
    (840, b"\x01\x03\0\0\0\0\0\0\0"),
    (849, b"\0\0\0\0\0\0\0\0"),
];

#[test]
fn a_recording_has_its_blocks(rt: HostRuntime) -> Result<(), Fail> {
    let file = recorded(&rt, COUNTING)?;
    all_stand(file.as_slice(), &COUNTED)?;
    is_told(
        said(&rt, &["opened", "in.mf4"], file),
        "0 blocks 2 bytes 27\n",
    )
}

// What is other in form 2: the words, the list blocks, and where the data blocks stand.
const LISTED_PARTS: [Part; 10] = [
    (60, b"\x31\0\x03\0"),
    (
        768,
        b"##DL\0\0\0\0\x38\0\0\0\0\0\0\0\x02\0\0\0\0\0\0\0\x68\x03\0\0\0\0\0\0\x38\x03\0\0\0\0\0\0",
    ),
    (808, b"\0\0\0\0\x01\0\0\0\0\0\0\0\0\0\0\0"),
    (824, b"##DT\0\0\0\0\x2A\0\0\0\0\0\0\0\0\0\0\0\0\0\0\0"),
    (
        848,
        b"\x01\x01\0\0\0\0\0\0\0\x01\x02\0\0\0\0\0\0\0\0\0\0\0\0\0",
    ),
    (872, b"##DL\0\0\0\0\x38\0\0\0\0\0\0\0\x02\0\0\0\0\0\0\0"),
    (896, b"\xC8\x03\0\0\0\0\0\0\xA0\x03\0\0\0\0\0\0"),
    (912, b"\0\0\0\0\x01\0\0\0\x12\0\0\0\0\0\0\0"),
    (928, b"##DT\0\0\0\0\x21\0\0\0\0\0\0\0\0\0\0\0\0\0\0\0"),
    (952, b"\x01\x03\0\0\0\0\0\0\0\0\0\0\0\0\0\0\0"),
];

#[test]
fn a_recording_of_form_2_has_its_list_blocks(rt: HostRuntime) -> Result<(), Fail> {
    let file = recorded(&rt, LISTED)?;
    all_stand(file.as_slice(), &LISTED_PARTS)?;
    is_told(
        said(&rt, &["opened", "in.mf4"], file),
        "0 blocks 2 bytes 27\n",
    )
}
