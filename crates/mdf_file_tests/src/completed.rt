//! Files that another tool left unfinished: what comes of each where its last block of data and its cycle counts are completed.

use mdf_model::{Measurement, ReadFault, take_file};
use mdf_num::{Bytes, Memory};
use std::alloc::Global;
use std::test::Fail;
use test_rig::{Piece, Told, all_are_told, is_told, marked_file, put, put_numbers, shown};
use tool_complete::{Whole, completed_of, unfinished_of};

const HD: Piece = (64, b"##HD", &[168, 0, 0, 0, 0, 0], &[0; 32]);

// A channel of 8 bytes; and one of variable length, whose offset has 8 bytes.
const NUMBER: &[u8; 72] =
    b"\0\0\0\0\0\0\0\0\x40\0\0\0\0\0\0\0\0\0\0\0\0\0\0\0\0\0\0\0\0\0\0\0\0\0\0\0\0\0\0\0\0\0\0\0\0\0\0\0\0\0\0\0\0\0\0\0\0\0\0\0\0\0\0\0\0\0\0\0\0\0\0\0";

const VALUES: &[u8; 72] =
    b"\x01\0\x07\0\0\0\0\0\x40\0\0\0\0\0\0\0\0\0\0\0\0\0\0\0\0\0\0\0\0\0\0\0\0\0\0\0\0\0\0\0\0\0\0\0\0\0\0\0\0\0\0\0\0\0\0\0\0\0\0\0\0\0\0\0\0\0\0\0\0\0\0\0";

// Channel groups: of records of 8 bytes and the id 1, of 9 bytes, and of values and the id 2.
const EIGHT: &[u8; 32] = b"\x01\0\0\0\0\0\0\0\0\0\0\0\0\0\0\0\0\0\0\0\0\0\0\0\x08\0\0\0\0\0\0\0";

const NINE: &[u8; 32] = b"\x01\0\0\0\0\0\0\0\0\0\0\0\0\0\0\0\0\0\0\0\0\0\0\0\x09\0\0\0\0\0\0\0";

const OF_VALUES: &[u8; 32] =
    b"\x02\0\0\0\0\0\0\0\0\0\0\0\0\0\0\0\x01\0\0\0\0\0\0\0\0\0\0\0\0\0\0\0";

// The id size of a data group: none, and one byte.
const NO_ID: &[u8; 8] = &[0; 8];

const ONE_BYTE: &[u8; 8] = b"\x01\0\0\0\0\0\0\0";

const CN: Piece = (336, b"##CN", &[0; 8], NUMBER);

// Three records of 8 bytes in one block: its length stands at 504, its body begins at 520. The cycle count stands at 312.
const ONE: &[Piece] = &[
    HD,
    (168, b"##DG", &[0, 232, 496, 0], NO_ID),
    (232, b"##CG", &[0, 336, 0, 0, 0, 0], EIGHT),
    CN,
    (496, b"##DT", &[], &[1; 24]),
];

// Three records of 9 bytes in two blocks that a DLBLOCK lists, with ids of one byte and without ids.
const LIST: Piece = (496, b"##DL", &[0, 560, 600], &[0; 16]);

const FIRST: Piece = (560, b"##DT", &[], b"\x01\0\0\0\0\0\0\0\0\x01\0\0\0");

const SECOND: Piece = (600, b"##DT", &[], b"\0\0\0\0\0\x01\0\0\0\0\0\0\0\0");

const WITH_IDS: &[Piece] = &[
    HD,
    (168, b"##DG", &[0, 232, 496, 0], ONE_BYTE),
    (232, b"##CG", &[0, 336, 0, 0, 0, 0], EIGHT),
    CN,
    LIST,
    FIRST,
    SECOND,
];

const WITHOUT_IDS: &[Piece] = &[
    HD,
    (168, b"##DG", &[0, 232, 496, 0], NO_ID),
    (232, b"##CG", &[0, 336, 0, 0, 0, 0], NINE),
    CN,
    LIST,
    FIRST,
    SECOND,
];

// A value of 3 bytes, its record, and a value of 5 bytes.
const VARIABLE: &[Piece] = &[
    HD,
    (168, b"##DG", &[0, 232, 600, 0], ONE_BYTE),
    (232, b"##CG", &[496, 336, 0, 0, 0, 0], EIGHT),
    (336, b"##CN", &[0, 0, 0, 0, 0, 496, 0, 0], VALUES),
    (496, b"##CG", &[0; 6], OF_VALUES),
    (
        600,
        b"##DT",
        &[],
        b"\x02\x03\0\0\0abc\x01\0\0\0\0\0\0\0\0\x02\x05\0\0\0defgh",
    ),
];

// Two data groups of records of 8 bytes. The block of the second stands behind, its length at 880.
const TWO: &[Piece] = &[
    HD,
    (168, b"##DG", &[544, 232, 496, 0], NO_ID),
    (232, b"##CG", &[0, 336, 0, 0, 0, 0], EIGHT),
    CN,
    (496, b"##DT", &[], &[1; 24]),
    (544, b"##DG", &[0, 608, 872, 0], NO_ID),
    (608, b"##CG", &[0, 712, 0, 0, 0, 0], EIGHT),
    (712, b"##CN", &[0; 8], NUMBER),
    (872, b"##DT", &[], &[2; 24]),
];

/// An unfinished file: its standard flags, its blocks, how many bytes it has with them, numbers that are changed, and how many bytes
/// it has then, be it cut or longer by zeros.
#[derive(Drop)]
struct Unfinished(u8, &'static [Piece], usize, &'static [(usize, u64)], usize);

// Unfinished files of one block, and what comes of each: how many groups there are, how many samples the first and the last have, and
// how many bytes were dropped; or why there is no measurement.
const OF_ONE: &[(Unfinished, &str)] = &[
    // both flags, the block without its length
    (Unfinished(5, ONE, 544, &[(504, 24)], 537), "1 2 2 1"),
    (Unfinished(5, ONE, 544, &[(504, 0)], 537), "1 2 2 1"),
    (Unfinished(5, ONE, 544, &[(504, u64::MAX)], 537), "1 2 2 1"),
    (Unfinished(5, ONE, 544, &[(504, 24)], 544), "1 3 3 0"),
    (Unfinished(5, ONE, 544, &[(504, 24)], 536), "1 2 2 0"),
    (Unfinished(5, ONE, 544, &[(504, 24)], 520), "1 0 0 0"),
    (
        Unfinished(5, ONE, 544, &[(504, 24)], 519),
        "Block { at: 496, want: Dt }",
    ),
    (Unfinished(5, ONE, 544, &[], 551), "1 3 3 7"),
    (Unfinished(5, ONE, 544, &[], 552), "1 4 4 0"),
    (Unfinished(5, ONE, 544, &[], 576), "1 7 7 0"),
    // records without bytes are as many as the group says, and all bytes are the rest
    (
        Unfinished(5, ONE, 544, &[(264, 0), (312, 7), (328, 0)], 544),
        "1 7 7 24",
    ),
    // an id of 8 bytes that no group has, and one that the group has
    (Unfinished(5, ONE, 544, &[(224, 8)], 544), "1 0 0 24"),
    (
        Unfinished(5, ONE, 544, &[(224, 8), (304, 0x0101_0101_0101_0101)], 544),
        "1 1 1 8",
    ),
    (
        Unfinished(5, ONE, 544, &[(224, 8), (304, 0x0101_0101_0101_0101)], 537),
        "1 1 1 1",
    ),
    (
        Unfinished(5, ONE, 544, &[(224, 3)], 544),
        "Layout { at: 168 }",
    ),
    // the length alone
    (
        Unfinished(4, ONE, 544, &[(504, 24), (312, 2)], 537),
        "1 2 2 1",
    ),
    (
        Unfinished(4, ONE, 544, &[(504, 24), (312, 1)], 537),
        "1 1 1 1",
    ),
    (
        Unfinished(4, ONE, 544, &[(504, 24), (312, 3)], 537),
        "Cycles { group: 0, said: 3, found: 2 }",
    ),
    // the counts alone
    (Unfinished(1, ONE, 544, &[], 544), "1 3 3 0"),
    (
        Unfinished(1, ONE, 544, &[(504, 47), (312, 9)], 544),
        "1 2 2 0",
    ),
    (
        Unfinished(1, ONE, 544, &[], 537),
        "Block { at: 496, want: Dt }",
    ),
    // other flags
    (
        Unfinished(0, ONE, 544, &[], 544),
        "NotRecording { std: 0, custom: 0 }",
    ),
    (
        Unfinished(7, ONE, 544, &[], 544),
        "NotRecording { std: 7, custom: 0 }",
    ),
    (
        Unfinished(21, ONE, 544, &[], 544),
        "NotRecording { std: 21, custom: 0 }",
    ),
    (
        Unfinished(37, ONE, 544, &[], 544),
        "NotRecording { std: 37, custom: 0 }",
    ),
    (
        Unfinished(2, ONE, 544, &[], 544),
        "NotRecording { std: 2, custom: 0 }",
    ),
    (
        Unfinished(8, ONE, 544, &[], 544),
        "NotRecording { std: 8, custom: 0 }",
    ),
    (
        Unfinished(16, ONE, 544, &[], 544),
        "NotRecording { std: 16, custom: 0 }",
    ),
    (
        Unfinished(64, ONE, 544, &[], 544),
        "NotRecording { std: 64, custom: 0 }",
    ),
    // the custom flag 1 before `##HD`, `MDF     `, the version 4.20, and a file that is cut before its header and behind it
    (
        Unfinished(5, ONE, 544, &[(60, 0x4448_2323_0001_0005)], 544),
        "NotRecording { std: 5, custom: 1 }",
    ),
    (
        Unfinished(5, ONE, 544, &[(0, 0x2020_2020_2046_444d)], 544),
        "NotRecording { std: 5, custom: 0 }",
    ),
    (
        Unfinished(5, ONE, 544, &[(24, 420 << 32)], 544),
        "Version { ver: 420 }",
    ),
    (Unfinished(5, ONE, 544, &[], 63), "NotMdf"),
    (
        Unfinished(5, ONE, 544, &[], 64),
        "Block { at: 64, want: Hd }",
    ),
];

// So of hostile links and headers of blocks.
const OF_LINKS: &[(Unfinished, &str)] = &[
    // the block has a link: it is cut in it, behind it, and not at all; and more links than a file has bytes
    (
        Unfinished(5, ONE, 544, &[(512, 1), (504, 24)], 527),
        "Block { at: 496, want: Dt }",
    ),
    (
        Unfinished(5, ONE, 544, &[(512, 1), (504, 24)], 528),
        "1 0 0 0",
    ),
    (
        Unfinished(5, ONE, 544, &[(512, 1), (504, 24)], 544),
        "1 2 2 0",
    ),
    (
        Unfinished(5, ONE, 544, &[(512, u64::MAX)], 544),
        "Block { at: 496, want: Dt }",
    ),
    // the data link is 0, no multiple of 8, and past the end
    (Unfinished(5, ONE, 544, &[(208, 0)], 544), "1 0 0 0"),
    (
        Unfinished(5, ONE, 544, &[(208, 497)], 544),
        "Block { at: 497, want: Dt }",
    ),
    (
        Unfinished(5, ONE, 544, &[(208, 544)], 544),
        "Block { at: 544, want: Dt }",
    ),
    (
        Unfinished(5, ONE, 544, &[(208, u64::MAX - 7)], 544),
        "Block { at: 18446744073709551608, want: Dt }",
    ),
    // a block that is compressed
    (
        Unfinished(5, ONE, 544, &[(496, 0x5a44_2323)], 544),
        "Compressed { at: 496 }",
    ),
    // the chain of data groups leads past the end: no length is set
    (
        Unfinished(5, ONE, 544, &[(192, 1 << 40), (504, 24)], 537),
        "Block { at: 1099511627776, want: Dg }",
    ),
    // a list that lists itself, nothing, more than a file has bytes, and a block past the end before the last one
    (
        Unfinished(5, WITH_IDS, 638, &[(536, 496)], 638),
        "Block { at: 496, want: Dt }",
    ),
    (Unfinished(5, WITH_IDS, 638, &[(512, 1)], 638), "1 0 0 0"),
    (
        Unfinished(5, WITH_IDS, 638, &[(512, u64::MAX)], 638),
        "Block { at: 496, want: Dl }",
    ),
    (
        Unfinished(5, WITH_IDS, 638, &[(528, 1 << 40), (608, 24)], 638),
        "Block { at: 1099511627776, want: Dt }",
    ),
    // the last block twice: with ids no record begins in it, and without ids three of 9 bytes do in 28, of which two are left in 26
    (Unfinished(5, WITH_IDS, 638, &[(528, 600)], 638), "1 0 0 14"),
    (
        Unfinished(5, WITHOUT_IDS, 638, &[(528, 600)], 638),
        "Cycles { group: 0, said: 3, found: 2 }",
    ),
];

// So of chains that come back to their first block: of data groups, where no length is set; and of lists, where block 1,048,577 of 496,
// 560, 600, 496 and so on is one too many.
const OF_LOOPS: &[(Unfinished, &str)] = &[
    (
        Unfinished(5, ONE, 544, &[(192, 168), (200, 0), (504, 24)], 537),
        "TooMany { what: Dg, at: 168 }",
    ),
    (
        Unfinished(5, WITH_IDS, 638, &[(520, 496)], 638),
        "TooMany { what: Block, at: 560 }",
    ),
];

// So of two blocks, without ids.
const OF_TWO: &[(Unfinished, &str)] = &[
    (Unfinished(5, WITHOUT_IDS, 638, &[], 638), "1 3 3 0"),
    (Unfinished(5, WITHOUT_IDS, 638, &[], 637), "1 2 2 8"),
    (Unfinished(5, WITHOUT_IDS, 638, &[], 630), "1 2 2 1"),
    (Unfinished(5, WITHOUT_IDS, 638, &[], 629), "1 2 2 0"),
    (Unfinished(5, WITHOUT_IDS, 638, &[], 628), "1 1 1 4"),
    (Unfinished(5, WITHOUT_IDS, 638, &[], 625), "1 1 1 1"),
    (Unfinished(5, WITHOUT_IDS, 638, &[], 624), "1 1 1 0"),
    (
        Unfinished(5, WITHOUT_IDS, 638, &[], 623),
        "Block { at: 600, want: Dt }",
    ),
];

// So with ids.
const OF_IDS: &[(Unfinished, &str)] = &[
    (Unfinished(5, WITH_IDS, 638, &[], 638), "1 3 3 0"),
    (Unfinished(5, WITH_IDS, 638, &[], 637), "1 2 2 8"),
    (Unfinished(5, WITH_IDS, 638, &[], 630), "1 2 2 1"),
    (Unfinished(5, WITH_IDS, 638, &[], 629), "1 2 2 0"),
    (Unfinished(5, WITH_IDS, 638, &[], 628), "Cut { at: 9 }"),
    (Unfinished(5, WITH_IDS, 638, &[], 625), "Cut { at: 9 }"),
    (Unfinished(5, WITH_IDS, 638, &[], 624), "Cut { at: 9 }"),
    (
        Unfinished(5, WITH_IDS, 638, &[], 623),
        "Block { at: 600, want: Dt }",
    ),
    // the third record has another id, and the second has
    (Unfinished(5, WITH_IDS, 638, &[(629, 7)], 638), "1 2 2 9"),
    (
        Unfinished(1, WITH_IDS, 638, &[(629, 7)], 638),
        "UnknownId { id: 7, at: 18 }",
    ),
    (
        Unfinished(5, WITH_IDS, 638, &[(589, 7 << 32)], 638),
        "UnknownId { id: 7, at: 9 }",
    ),
    // a list that goes on with no list, with itself, and in the other order
    (
        Unfinished(5, WITH_IDS, 638, &[(520, 560)], 638),
        "Block { at: 560, want: Dl }",
    ),
    (
        Unfinished(5, WITH_IDS, 638, &[(520, 560), (608, 0)], 638),
        "Block { at: 560, want: Dl }",
    ),
    (
        Unfinished(5, WITH_IDS, 638, &[(568, 0)], 638),
        "Block { at: 560, want: Dt }",
    ),
    (
        Unfinished(5, WITH_IDS, 638, &[(528, 600), (536, 560)], 638),
        "UnknownId { id: 0, at: 0 }",
    ),
    // a link past the end of the file
    (
        Unfinished(5, WITH_IDS, 638, &[(536, 1 << 40)], 638),
        "Block { at: 1099511627776, want: Dt }",
    ),
];

// So of values of variable length, and of two data groups.
const OF_GROUPS: &[(Unfinished, &str)] = &[
    // a value is cut, in its length and in its bytes
    (Unfinished(5, VARIABLE, 651, &[(608, 24)], 651), "1 1 1 0"),
    (Unfinished(5, VARIABLE, 651, &[(608, 24)], 650), "1 1 1 9"),
    (Unfinished(5, VARIABLE, 651, &[(608, 24)], 643), "1 1 1 2"),
    (Unfinished(5, VARIABLE, 651, &[(608, 24)], 641), "1 1 1 0"),
    // the record is cut, and the first value
    (Unfinished(5, VARIABLE, 651, &[(608, 24)], 636), "1 0 0 4"),
    (Unfinished(5, VARIABLE, 651, &[(608, 24)], 627), "1 0 0 3"),
    // the second value says to be longer than a file, and has an id that no group has
    (
        Unfinished(5, VARIABLE, 651, &[(608, 24), (642, 0xffff_ffff)], 651),
        "1 1 1 10",
    ),
    (
        Unfinished(5, VARIABLE, 651, &[(608, 24), (641, 9)], 651),
        "1 1 1 10",
    ),
    // the record names the second value, which is whole; and which is cut
    (
        Unfinished(5, VARIABLE, 651, &[(608, 24), (633, 7)], 651),
        "1 1 1 0",
    ),
    (
        Unfinished(5, VARIABLE, 651, &[(608, 24), (633, 7)], 650),
        "Offset { channel: 0, row: 0, offset: 7 }",
    ),
    // two data groups, the last block without its length; and cut before its header
    (Unfinished(5, TWO, 920, &[(880, 24)], 915), "2 3 2 3"),
    (Unfinished(5, TWO, 920, &[(880, 24)], 896), "2 3 0 0"),
    (
        Unfinished(5, TWO, 920, &[(880, 24)], 895),
        "Block { at: 872, want: Dt }",
    ),
    // the last block is that of the first data group, and both have one, which reaches over the second
    (
        Unfinished(5, TWO, 920, &[(208, 872), (584, 496), (880, 24)], 915),
        "2 2 3 3",
    ),
    (Unfinished(5, TWO, 920, &[(584, 496)], 915), "2 49 49 3"),
    // the data link of the first leads to no block
    (
        Unfinished(5, TWO, 920, &[(208, 3), (880, 24)], 915),
        "Block { at: 3, want: Dt }",
    ),
    // the second has no channel group, and one of values: all of its bytes are the rest
    (Unfinished(5, TWO, 920, &[(576, 0)], 920), "1 3 3 24"),
    (Unfinished(5, TWO, 920, &[(696, 1)], 920), "1 3 3 24"),
    // both have one channel group, which says how many records the second has
    (
        Unfinished(5, TWO, 920, &[(576, 232), (880, 24)], 915),
        "2 2 2 3",
    ),
];

// The bytes of a file.
fn bytes_of(alloc: Global, row: &Unfinished) -> Result<Vec<u8>, Fail> {
    let ident = b"UnFinMF 4.10    another ";
    let mut file = marked_file(alloc, row.2, ident, &[row.1])?;
    put(file.as_mut_slice(), 28, b"\x9a\x01");
    put(file.as_mut_slice(), 60, &[row.0]);
    put_numbers(file.as_mut_slice(), row.3);
    file.resize(row.4, 0)?;
    Ok(file)
}

// The measurement of the completed file, with what was dropped.
fn completed(alloc: Global, file: Vec<u8>) -> Result<(Measurement, u64), ReadFault> {
    unfinished_of(file.as_slice())?;
    let Ok(Whole { file, rest }) = completed_of(alloc, Bytes::from_vec(file)) else {
        return Err(ReadFault::Memory);
    };
    let measurement = take_file(alloc, file)?;
    Ok((measurement, rest))
}

fn samples_told(alloc: Global, measurement: &Measurement, rest: u64) -> Result<String, Fail> {
    let groups = measurement.groups();
    if groups == 0 {
        return Err(Fail::new(Memory));
    }
    let first = measurement.samples(0);
    let last = measurement.samples(groups - 1);
    Ok(format!(in alloc; "{groups} {first} {last} {rest}")?)
}

impl Told for Unfinished {
    fn told(&self, alloc: Global) -> Result<String, Fail> {
        let file = bytes_of(alloc, self)?;
        match completed(alloc, file) {
            Ok((measurement, rest)) => samples_told(alloc, &measurement, rest),
            Err(fault) => shown(alloc, &fault),
        }
    }
}

#[test]
fn unfinished_files_are_completed(rt: HostRuntime) -> Result<(), Fail> {
    all_are_told(&rt, OF_ONE)?;
    all_are_told(&rt, OF_LINKS)?;
    all_are_told(&rt, OF_TWO)?;
    all_are_told(&rt, OF_IDS)?;
    all_are_told(&rt, OF_GROUPS)
}

#[test]
fn loops_are_refused(rt: HostRuntime) -> Result<(), Fail> {
    all_are_told(&rt, OF_LOOPS)
}

/// Asserts what comes of the file of one block that is cut behind so many bytes of its records: each 8 bytes are one.
fn cut_is_told(alloc: Global, kept: u8) -> Result<(), Fail> {
    let (count, rest) = (kept / 8, kept % 8);
    let want = format!(in alloc; "1 {count} {count} {rest}")?;
    let told = Unfinished(5, ONE, 544, &[(504, 24)], 520 + usize::from(kept)).told(alloc);
    is_told(told, want.as_str())
}

#[test]
fn a_block_is_cut_anywhere(rt: HostRuntime) -> Result<(), Fail> {
    for kept in 0..25u8 {
        cut_is_told(rt.alloc(), kept)?;
    }
    Ok(())
}
