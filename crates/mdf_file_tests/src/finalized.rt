use crate::recorded::{BLOCKS, FH, HD, MD};
use mdf_conv::Budget;
use mdf_group::{DataRow, read_groups};
use mdf_head::{Head, History, read_head};
use mdf_num::{Bytes, Rows};
use mdf_spell::{FINALIZED_IDENT, Recovered, finalized_front, with_data};
use mdf_vlsd::{Streams, ValueStream};
use std::alloc::Global;
use std::test::Fail;
use test_rig::{Piece, file_of, put, put_block};

// The identification: finalized, version 4.10, no flags.
pub(crate) const IDENT: &[u8; 64] =
    b"MDF     4.10    mdf4rec \0\0\0\0\x9a\x01\0\0\0\0\0\0\0\0\0\0\0\0\0\0\0\0\0\0\0\0\0\0\0\0\0\0\0\0\0\0\0\0\0\0";

// The bodies of the second entry of the history, whose time is 0x0102030405060708 ns, of the header, and of the first entry.
pub(crate) const TIME: &[u8; 16] = b"\x08\x07\x06\x05\x04\x03\x02\x01\0\0\0\0\0\0\0\0";

pub(crate) const START: &[u8; 32] =
    b"\x01\x02\x03\x04\x05\x06\x07\x08\0\0\0\0\0\0\0\0\0\0\0\0\0\0\0\0\0\0\0\0\0\0\0\0";

pub(crate) const STARTED: &[u8; 16] = b"\x01\x02\x03\x04\x05\x06\x07\x08\0\0\0\0\0\0\0\0";

pub(crate) const RECORDED: &[u8; 128] =
    b"<FHcomment><TX>record</TX><tool_id>mdf4rec</tool_id><tool_vendor>none</tool_vendor><tool_version>1</tool_version></FHcomment>\0\0\0";

pub(crate) const FINALIZED: &[u8; 128] =
    b"<FHcomment><TX>finalize</TX><tool_id>mdf4rec</tool_id><tool_vendor>none</tool_vendor><tool_version>1</tool_version></FHcomment>\0";

pub(crate) const MASTER: &[u8; 72] =
    b"\x02\x01\0\0\0\0\0\0\x40\0\0\0\0\0\0\0\0\0\0\0\0\0\0\0\0\0\0\0\0\0\0\0\0\0\0\0\0\0\0\0\0\0\0\0\0\0\0\0\0\0\0\0\0\0\0\0\0\0\0\0\0\0\0\0\0\0\0\0\0\0\0\0";

// A group of records of 8 data bytes, without records and with three.
const EMPTY: &[u8; 32] = b"\x01\0\0\0\0\0\0\0\0\0\0\0\0\0\0\0\0\0\0\0\0\0\0\0\x08\0\0\0\0\0\0\0";

const THREE: &[u8; 32] = b"\x01\0\0\0\0\0\0\0\x03\0\0\0\0\0\0\0\0\0\0\0\0\0\0\0\x08\0\0\0\0\0\0\0";

// Two channels of variable length, whose offsets of 64 bits stand in bytes 0 to 7 and 8 to 15.
const FIRST: &[u8; 72] =
    b"\x01\0\x0a\0\0\0\0\0\x40\0\0\0\0\0\0\0\0\0\0\0\0\0\0\0\0\0\0\0\0\0\0\0\0\0\0\0\0\0\0\0\0\0\0\0\0\0\0\0\0\0\0\0\0\0\0\0\0\0\0\0\0\0\0\0\0\0\0\0\0\0\0\0";

const SECOND: &[u8; 72] =
    b"\x01\0\x0a\0\x08\0\0\0\x40\0\0\0\0\0\0\0\0\0\0\0\0\0\0\0\0\0\0\0\0\0\0\0\0\0\0\0\0\0\0\0\0\0\0\0\0\0\0\0\0\0\0\0\0\0\0\0\0\0\0\0\0\0\0\0\0\0\0\0\0\0\0\0";

// Their group, without records and with one, and a group of values, without and with one of 3 bytes.
const OFFSETS: &[u8; 32] = b"\x01\0\0\0\0\0\0\0\0\0\0\0\0\0\0\0\0\0\0\0\0\0\0\0\x10\0\0\0\0\0\0\0";

const ONE: &[u8; 32] = b"\x01\0\0\0\0\0\0\0\x01\0\0\0\0\0\0\0\0\0\0\0\0\0\0\0\x10\0\0\0\0\0\0\0";

const VALUES: &[u8; 32] = b"\x02\0\0\0\0\0\0\0\0\0\0\0\0\0\0\0\x01\0\0\0\0\0\0\0\0\0\0\0\0\0\0\0";

const VALUE: &[u8; 32] =
    b"\x02\0\0\0\0\0\0\0\x01\0\0\0\0\0\0\0\x01\0\0\0\0\0\0\0\x03\0\0\0\0\0\0\0";

// A recording's head of another tool, whose second channel names no group of values.
pub(crate) const VARIABLE: &[Piece] = &[
    HD,
    FH,
    MD,
    (376, b"##DG", &[0, 440, 968, 0], b"\x01\0\0\0\0\0\0\0"),
    (440, b"##CG", &[864, 544, 0, 0, 0, 0], OFFSETS),
    (544, b"##CN", &[704, 0, 0, 0, 0, 864, 0, 0], FIRST),
    (704, b"##CN", &[0, 0, 0, 0, 0, 0, 0, 0], SECOND),
    (864, b"##CG", &[0, 0, 0, 0, 0, 0], VALUES),
];

// What all finalized files have before their data group, which stands at 584.
pub(crate) const FRONT: &[Piece] = &[
    (64, b"##HD", &[584, 168, 0, 0, 0, 0], START),
    (168, b"##FH", &[376, 224], STARTED),
    (224, b"##MD", &[], RECORDED),
    (376, b"##FH", &[0, 432], TIME),
    (432, b"##MD", &[], FINALIZED),
];

// The records of the numbers 1, 2 and 3; and a value, and the record of two offsets behind it.
const RECORDS: &[u8; 27] = b"\x01\x01\0\0\0\0\0\0\0\x01\x02\0\0\0\0\0\0\0\x01\x03\0\0\0\0\0\0\0";

const MIXED: &[u8; 25] = b"\x02\x03\0\0\0abc\x01\0\0\0\0\0\0\0\0\0\0\0\0\0\0\0\0";

// The data group of the finalized file of three numbers.
pub(crate) const COUNTED: &[Piece] = &[
    (584, b"##DG", &[0, 648, 976, 0], b"\x01\0\0\0\0\0\0\0"),
    (648, b"##CG", &[0, 784, 752, 0, 0, 0], THREE),
    (752, b"##TX", &[], b"g\0\0\0\0\0\0\0"),
    (784, b"##CN", &[0, 0, 944, 0, 0, 0, 0, 0], MASTER),
    (944, b"##TX", &[], b"t\0\0\0\0\0\0\0"),
    (976, b"##DT", &[], RECORDS),
];

// What was counted of the groups, the bytes of their values, the records, and the streams of values.
pub(crate) type Data = (
    &'static [u64],
    &'static [u64],
    &'static [u8],
    &'static [&'static [u8]],
);

// The blocks of a recording's head, its data, the size of the finalized file, and its blocks from the data group on.
const FILES: &[(&[Piece], Data, usize, &[Piece])] = &[
    (
        BLOCKS,
        (&[0], &[0], &[], &[]),
        1000,
        &[
            (584, b"##DG", &[0, 648, 976, 0], b"\x01\0\0\0\0\0\0\0"),
            (648, b"##CG", &[0, 784, 752, 0, 0, 0], EMPTY),
            (752, b"##TX", &[], b"g\0\0\0\0\0\0\0"),
            (784, b"##CN", &[0, 0, 944, 0, 0, 0, 0, 0], MASTER),
            (944, b"##TX", &[], b"t\0\0\0\0\0\0\0"),
            (976, b"##DT", &[], &[]),
        ],
    ),
    (BLOCKS, (&[3], &[0], RECORDS, &[]), 1032, COUNTED),
    (
        VARIABLE,
        (
            &[1, 1],
            &[0, 3],
            MIXED,
            &[b"\x03\0\0\0abc", b"\x02\0\0\0xy"],
        ),
        1264,
        &[
            (584, b"##DG", &[0, 648, 1176, 0], b"\x01\0\0\0\0\0\0\0"),
            (648, b"##CG", &[1072, 752, 0, 0, 0, 0], ONE),
            (752, b"##CN", &[912, 0, 0, 0, 0, 1072, 0, 0], FIRST),
            (912, b"##CN", &[0, 0, 0, 0, 0, 1232, 0, 0], SECOND),
            (1072, b"##CG", &[0, 0, 0, 0, 0, 0], VALUE),
            (1176, b"##DT", &[], MIXED),
            (1232, b"##SD", &[], b"\x02\0\0\0xy"),
        ],
    ),
];

// The streams of values.
fn streams_of(alloc: Global, parts: &[&[u8]]) -> Result<Streams, Fail> {
    let mut streams = Streams::empty(alloc);
    for part in parts {
        streams.push(ValueStream::from_bytes(Bytes::from_slice(alloc, part)?))?;
    }
    Ok(streams)
}

// The finalized file of these parts, if each channel group has its numbers.
fn written(
    alloc: Global,
    head: &Head,
    history: &Rows<History>,
    row: &DataRow,
    data: Data,
) -> Result<Option<Bytes>, Fail> {
    let (counts, totals, content, parts) = data;
    if counts.len() as u64 != row.groups.len() || totals.len() as u64 != row.groups.len() {
        return Ok(None);
    }
    let streams = streams_of(alloc, parts)?;
    let recovered = Recovered {
        head,
        history: history.as_slice(),
        row,
        counts,
        totals,
        content,
        streams: streams.as_slice(),
    };
    let front = finalized_front(alloc, &recovered, 0x0102_0304_0506_0708)?;
    let content = Bytes::from_slice(alloc, content)?;
    let blocks = with_data(alloc, front, content, streams.as_slice())?;
    Ok(Some(blocks.bytes(&FINALIZED_IDENT)?))
}

// That of the first data group.
fn first_written(
    alloc: Global,
    head: &Head,
    history: &Rows<History>,
    rows: &Rows<DataRow>,
    data: Data,
) -> Result<Option<Bytes>, Fail> {
    match rows.get(0) {
        Some(row) => written(alloc, head, history, row, data),
        None => Ok(None),
    }
}

// That of the data groups that the header names.
fn groups_written(
    alloc: Global,
    file: &[u8],
    head: &Head,
    history: &Rows<History>,
    budget: &mut Budget,
    data: Data,
) -> Result<Option<Bytes>, Fail> {
    match read_groups(alloc, file, head.first_dg, budget) {
        Ok(rows) => first_written(alloc, head, history, &rows, data),
        Err(_) => Ok(None),
    }
}

// The finalized file of a recording with this head and these data.
pub(crate) fn finalized(
    alloc: Global,
    blocks: &[Piece],
    data: Data,
) -> Result<Option<Bytes>, Fail> {
    let file = file_of(alloc, 968, blocks)?;
    let mut budget = Budget::of_file();
    let Ok((head, history)) = read_head(alloc, file.as_slice(), &mut budget.text) else {
        return Ok(None);
    };
    groups_written(alloc, file.as_slice(), &head, &history, &mut budget, data)
}

// The bytes of it, worked out from the tables of the blocks.
fn expected(alloc: Global, size: usize, pieces: &[Piece]) -> Result<Vec<u8>, Fail> {
    let mut file = file_of(alloc, size, FRONT)?;
    put(file.as_mut_slice(), 0, IDENT);
    for piece in pieces {
        put_block(file.as_mut_slice(), piece);
    }
    Ok(file)
}

// Whether the finalized file of these blocks and data is the one of those blocks.
fn is_finalized(
    alloc: Global,
    blocks: &[Piece],
    data: Data,
    size: usize,
    pieces: &[Piece],
) -> Result<bool, Fail> {
    let want = expected(alloc, size, pieces)?;
    match finalized(alloc, blocks, data)? {
        Some(file) => Ok(file.as_slice() == want.as_slice()),
        None => Ok(false),
    }
}

#[test]
fn recordings_are_finalized(rt: HostRuntime) -> Result<(), Fail> {
    for (blocks, data, size, pieces) in FILES {
        assert!(rt; is_finalized(rt.alloc(), *blocks, *data, *size, *pieces)?);
    }
    Ok(())
}
