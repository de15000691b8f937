use crate::finalized::{
    COUNTED, FINALIZED, FRONT, IDENT, MASTER, RECORDED, START, STARTED, TIME, finalized,
};
use crate::measurements::{FILE, MASTER as SHORT_MASTER, TEXT};
use crate::recorded::{FH, HD, MD};
use mdf_model::{Measurement, read_measurement};
use mdf_num::Bytes;
use std::alloc::Global;
use std::test::Fail;
use test_rig::{Piece, marked_file};
use tool_sort::spell_sorted;

// The body of the new entry of the history, whose time is 0x1112131415161718 ns, and its comments.
pub(crate) const NOW: &[u8; 16] = b"\x18\x17\x16\x15\x14\x13\x12\x11\0\0\0\0\0\0\0\0";

pub(crate) const SORTED: &[u8; 128] =
    b"<FHcomment><TX>sort</TX><tool_id>mdf4rec</tool_id><tool_vendor>none</tool_vendor><tool_version>1</tool_version></FHcomment>\0\0\0\0\0";

const JOINED: &[u8; 128] =
    b"<FHcomment><TX>concat</TX><tool_id>mdf4rec</tool_id><tool_vendor>none</tool_vendor><tool_version>1</tool_version></FHcomment>\0\0\0";

// Groups without record ids: of three records of 8 data bytes, of two of 4, and of two of 8.
pub(crate) const THREE: &[u8; 32] =
    b"\0\0\0\0\0\0\0\0\x03\0\0\0\0\0\0\0\0\0\0\0\0\0\0\0\x08\0\0\0\0\0\0\0";

const SHORT: &[u8; 32] = b"\0\0\0\0\0\0\0\0\x02\0\0\0\0\0\0\0\0\0\0\0\0\0\0\0\x04\0\0\0\0\0\0\0";

const TWO: &[u8; 32] = b"\0\0\0\0\0\0\0\0\x02\0\0\0\0\0\0\0\0\0\0\0\0\0\0\0\x08\0\0\0\0\0\0\0";

// What is done.
#[derive(Clone, Copy)]
enum Done {
    Sort,
    Concat,
}

// The size and the blocks of a finalized file, what is done, and the size and the blocks of the sorted file.
type Row = (
    usize,
    &'static [&'static [Piece]],
    Done,
    usize,
    &'static [Piece],
);

const FILES: &[Row] = &[
    (
        1032,
        &[FRONT, COUNTED],
        Done::Sort,
        1232,
        &[
            (64, b"##HD", &[792, 168, 0, 0, 0, 0], START),
            (168, b"##FH", &[376, 224], STARTED),
            (224, b"##MD", &[], RECORDED),
            (376, b"##FH", &[584, 432], TIME),
            (432, b"##MD", &[], FINALIZED),
            (584, b"##FH", &[0, 640], NOW),
            (640, b"##MD", &[], SORTED),
            (792, b"##DG", &[0, 856, 1184, 0], &[0; 8]),
            (856, b"##CG", &[0, 992, 960, 0, 0, 0], THREE),
            (960, b"##TX", &[], b"g\0\0\0\0\0\0\0"),
            (992, b"##CN", &[0, 0, 1152, 0, 0, 0, 0, 0], MASTER),
            (1152, b"##TX", &[], b"t\0\0\0\0\0\0\0"),
            (
                1184,
                b"##DT",
                &[],
                b"\x01\0\0\0\0\0\0\0\x02\0\0\0\0\0\0\0\x03\0\0\0\0\0\0\0",
            ),
        ],
    ),
    // two data groups, the second of which has a group of values
    (
        1016,
        &[&FILE],
        Done::Concat,
        1144,
        &[
            (64, b"##HD", &[376, 168, 0, 0, 0, 0], &[0; 32]),
            (168, b"##FH", &[0, 224], NOW),
            (224, b"##MD", &[], JOINED),
            (376, b"##DG", &[736, 440, 704, 0], &[0; 8]),
            (440, b"##CG", &[0, 544, 0, 0, 0, 0], SHORT),
            (544, b"##CN", &[0, 0, 0, 0, 0, 0, 0, 0], &SHORT_MASTER),
            (704, b"##DT", &[], b"\x07\0\0\0\x08\0\0\0"),
            (736, b"##DG", &[0, 800, 1064, 0], &[0; 8]),
            (800, b"##CG", &[0, 904, 0, 0, 0, 0], TWO),
            (904, b"##CN", &[0, 0, 0, 0, 0, 1104, 0, 0], &TEXT),
            (1064, b"##DT", &[], b"\0\0\0\0\0\0\0\0\x07\0\0\0\0\0\0\0"),
            (1104, b"##SD", &[], b"\x03\0\0\0abc\0\0\0\0"),
        ],
    ),
];

// The sorted file of it.
fn spelled(alloc: Global, measurement: Measurement, done: Done) -> Result<Bytes, Fail> {
    let now = 0x1112_1314_1516_1718;
    let pieces = match done {
        Done::Sort => spell_sorted(alloc, measurement, "sort", now),
        Done::Concat => spell_sorted(alloc, measurement, "concat", now),
    }?;
    Ok(pieces.joined()?)
}

// Whether the sorted file of it is the one of these blocks.
fn is_sorted(
    alloc: Global,
    file: &[u8],
    done: Done,
    size: usize,
    pieces: &[Piece],
) -> Result<bool, Fail> {
    let want = marked_file(alloc, size, IDENT, &[pieces])?;
    let Ok(measurement) = read_measurement(alloc, file) else {
        return Ok(false);
    };
    Ok(spelled(alloc, measurement, done)?.as_slice() == want.as_slice())
}

// Whether that of a row is.
fn is_row_sorted(alloc: Global, row: &Row) -> Result<bool, Fail> {
    let (size, tables, done, long, pieces) = *row;
    let file = marked_file(alloc, size, IDENT, tables)?;
    is_sorted(alloc, file.as_slice(), done, long, pieces)
}

#[test]
fn measurements_are_sorted(rt: HostRuntime) -> Result<(), Fail> {
    for row in FILES {
        assert!(rt; is_row_sorted(rt.alloc(), row)?);
    }
    Ok(())
}

// A channel of 8 bits, and its group in a recording, with record id 1 and 2, and in a sorted file, with two records.
const BYTE: &[u8; 72] =
    b"\0\0\0\0\0\0\0\0\x08\0\0\0\0\0\0\0\0\0\0\0\0\0\0\0\0\0\0\0\0\0\0\0\0\0\0\0\0\0\0\0\0\0\0\0\0\0\0\0\0\0\0\0\0\0\0\0\0\0\0\0\0\0\0\0\0\0\0\0\0\0\0\0";

const ONE: &[u8; 32] = b"\x01\0\0\0\0\0\0\0\0\0\0\0\0\0\0\0\0\0\0\0\0\0\0\0\x01\0\0\0\0\0\0\0";

const OTHER: &[u8; 32] = b"\x02\0\0\0\0\0\0\0\0\0\0\0\0\0\0\0\0\0\0\0\0\0\0\0\x01\0\0\0\0\0\0\0";

const BYTES: &[u8; 32] = b"\0\0\0\0\0\0\0\0\x02\0\0\0\0\0\0\0\0\0\0\0\0\0\0\0\x01\0\0\0\0\0\0\0";

// The head of a recording of two such groups.
const TWO_GROUPS: &[Piece] = &[
    HD,
    FH,
    MD,
    (376, b"##DG", &[0, 440, 968, 0], b"\x01\0\0\0\0\0\0\0"),
    (440, b"##CG", &[704, 544, 0, 0, 0, 0], ONE),
    (544, b"##CN", &[0, 0, 0, 0, 0, 0, 0, 0], BYTE),
    (704, b"##CG", &[0, 808, 0, 0, 0, 0], OTHER),
    (808, b"##CN", &[0, 0, 0, 0, 0, 0, 0, 0], BYTE),
];

// The records of 1 and 2 in the first group and of 7 and 8 in the second, in each order in which two sources may come.
const ORDERS: &[&[u8; 8]] = &[
    b"\x01\x01\x01\x02\x02\x07\x02\x08",
    b"\x01\x01\x02\x07\x01\x02\x02\x08",
    b"\x01\x01\x02\x07\x02\x08\x01\x02",
    b"\x02\x07\x01\x01\x01\x02\x02\x08",
    b"\x02\x07\x01\x01\x02\x08\x01\x02",
    b"\x02\x07\x02\x08\x01\x01\x01\x02",
];

// The one sorted file of all of them.
const APART: &[Piece] = &[
    (64, b"##HD", &[792, 168, 0, 0, 0, 0], START),
    (168, b"##FH", &[376, 224], STARTED),
    (224, b"##MD", &[], RECORDED),
    (376, b"##FH", &[584, 432], TIME),
    (432, b"##MD", &[], FINALIZED),
    (584, b"##FH", &[0, 640], NOW),
    (640, b"##MD", &[], SORTED),
    (792, b"##DG", &[1152, 856, 1120, 0], &[0; 8]),
    (856, b"##CG", &[0, 960, 0, 0, 0, 0], BYTES),
    (960, b"##CN", &[0, 0, 0, 0, 0, 0, 0, 0], BYTE),
    (1120, b"##DT", &[], b"\x01\x02"),
    (1152, b"##DG", &[0, 1216, 1480, 0], &[0; 8]),
    (1216, b"##CG", &[0, 1320, 0, 0, 0, 0], BYTES),
    (1320, b"##CN", &[0, 0, 0, 0, 0, 0, 0, 0], BYTE),
    (1480, b"##DT", &[], b"\x07\x08"),
];

// Whether the sorted file of a recording of these records is the one.
fn is_apart(alloc: Global, content: &'static [u8]) -> Result<bool, Fail> {
    match finalized(alloc, TWO_GROUPS, (&[2, 2], &[0, 0], content, &[]))? {
        Some(file) => is_sorted(alloc, file.as_slice(), Done::Sort, 1512, APART),
        None => Ok(false),
    }
}

#[test]
fn recordings_in_six_orders_have_one_sorted_file(rt: HostRuntime) -> Result<(), Fail> {
    for content in ORDERS {
        assert!(rt; is_apart(rt.alloc(), *content)?, "{content:?}");
    }
    Ok(())
}
