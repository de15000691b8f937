use mdf_block::{Draft, Kind, Link};
use mdf_conv::Budget;
use mdf_group::{DataRow, GroupRow, read_groups};
use mdf_num::{Bytes, Rows};
use mdf_tree::{Counted, place_group};
use std::alloc::Global;
use std::test::Fail;
use test_rig::{Piece, file_of};

// The bodies of a channel group, of a group of values, and of two channels, the second of variable length.
const GROUP: &[u8; 32] =
    b"\x09\0\0\0\0\0\0\0\x08\0\0\0\0\0\0\x01\0\0\x2e\0\0\0\0\0\x34\x33\x32\x31\x06\0\0\0";

const VALUES: &[u8; 32] =
    b"\x0a\0\0\0\0\0\0\0\x03\0\0\0\0\0\0\0\x01\0\0\0\0\0\0\0\x11\0\0\0\0\0\0\0";

const CHANNEL: &[u8; 72] =
    b"\x02\x01\x04\x03\x04\x03\x02\x01\x14\x13\x12\x11\x02\x01\0\x80\x24\x23\x22\x21\x07\0\0\0\x01\0\0\0\0\0\0\0\x02\0\0\0\0\0\0\0\x03\0\0\0\0\0\0\0\x04\0\0\0\0\0\0\0\x05\0\0\0\0\0\0\0\0\0\0\0\0\0\0\x80";

const VARIABLE: &[u8; 72] =
    b"\x01\0\x0a\0\x08\0\0\0\x40\0\0\0\0\0\0\0\0\0\0\0\0\0\0\0\0\0\0\0\0\0\0\0\0\0\0\0\0\0\0\0\0\0\0\0\0\0\0\0\0\0\0\0\0\0\0\0\0\0\0\0\0\0\0\0\0\0\0\0\0\0\0\0";

// The bodies of four conversions, with 2, 1, 2 and no references, the last with two numbers.
const OUTER: &[u8; 24] = b"\x07\x03\x02\x01\x02\0\0\0\x01\0\0\0\0\0\0\x80\x09\0\0\0\0\0\0\0";

const SECOND: &[u8; 24] = b"\x05\0\0\0\x01\0\0\0\0\0\0\0\0\0\0\0\0\0\0\0\0\0\0\0";

const THIRD: &[u8; 24] = b"\x07\0\0\0\x02\0\0\0\0\0\0\0\0\0\0\0\0\0\0\0\0\0\0\0";

const LINEAR: &[u8; 40] =
    b"\x01\xff\0\0\0\0\x02\0\0\0\0\0\0\0\0\0\0\0\0\0\0\0\0\0\x05\0\0\0\0\0\0\0\0\0\0\0\0\0\xf0\x3f";

// A data group in the order in which trees are written: a channel group and its first channel each have a source, that
// channel has four conversions one in another, and the second channel has its values in the second group.
const TREE: &[Piece] = &[
    (64, b"##DG", &[0, 128, 0, 0], b"\x01\0\0\0\0\0\0\0"),
    (128, b"##CG", &[1360, 384, 232, 264, 0, 0], GROUP),
    (232, b"##TX", &[], b"engine\0\0"),
    (264, b"##SI", &[320, 352, 0], b"\x01\x02\x01\0\0\0\0\0"),
    (320, b"##TX", &[], b"ecu\0\0\0\0\0"),
    (352, b"##TX", &[], b"bus\0\0\0\0\0"),
    (
        384,
        b"##CN",
        &[1168, 0, 544, 576, 664, 0, 1104, 1136],
        CHANNEL,
    ),
    (544, b"##TX", &[], b"speed\0\0\0"),
    (576, b"##SI", &[632, 0, 0], b"\x03\0\0\0\0\0\0\0"),
    (632, b"##TX", &[], b"amp\0\0\0\0\0"),
    (664, b"##CC", &[0, 0, 0, 0, 760, 792], OUTER),
    (760, b"##TX", &[], b"low\0\0\0\0\0"),
    (792, b"##CC", &[0, 880, 0, 0, 912], SECOND),
    (880, b"##TX", &[], b"V\0\0\0\0\0\0\0"),
    (912, b"##CC", &[0, 0, 0, 0, 0, 1008], THIRD),
    (1008, b"##CC", &[0, 0, 0, 0], LINEAR),
    (1104, b"##TX", &[], b"km/h\0\0\0\0"),
    (1136, b"##MD", &[], b"<p/>\0\0\0\0"),
    (1168, b"##CN", &[0, 0, 1328, 0, 0, 1360, 0, 0], VARIABLE),
    (1328, b"##TX", &[], b"v\0\0\0\0\0\0\0"),
    (1360, b"##CG", &[0, 0, 0, 0, 0, 0], VALUES),
];

// Places groups with the numbers that they have, where the group of values is block 20.
fn place_groups(alloc: Global, draft: &mut Draft, groups: &[GroupRow]) -> Result<(), Fail> {
    for (i, row) in groups.iter().enumerate() {
        let counted = Counted {
            id: row.id,
            cycles: row.cycles,
            data_bytes: row.data_bytes,
            inval_bytes: row.inval_bytes,
        };
        let more = i + 1 < groups.len();
        place_group(alloc, draft, row, counted, more, &[Link::Block(20)])?;
    }
    Ok(())
}

// A file of this data group alone, behind 64 zero bytes.
fn written(alloc: Global, row: &DataRow) -> Result<Bytes, Fail> {
    let mut draft = Draft::new(alloc);
    let links = vec![in alloc; Link::Nothing, Link::Block(1), Link::Nothing, Link::Nothing]?;
    let body = Bytes::from_slice(alloc, &[row.id_size, 0, 0, 0, 0, 0, 0, 0])?;
    draft.place_linked(Kind::Dg, links, body)?;
    place_groups(alloc, &mut draft, row.groups.as_slice())?;
    Ok(draft.bytes(&[0; 64])?)
}

// Whether a row is written as it stands in the file.
fn is_row_kept(alloc: Global, row: &DataRow, file: &[u8]) -> Result<bool, Fail> {
    Ok(written(alloc, row)?.as_slice() == file)
}

fn are_rows_kept(alloc: Global, rows: &Rows<DataRow>, file: &[u8]) -> Result<bool, Fail> {
    match rows.get(0) {
        Some(row) => is_row_kept(alloc, row, file),
        None => Ok(false),
    }
}

// Whether the rows that are read of the tree are written as it stands, so that they are read back equal.
fn is_file_kept(alloc: Global, file: &[u8]) -> Result<bool, Fail> {
    match read_groups(alloc, file, 64, &mut Budget::of_file()) {
        Ok(rows) => are_rows_kept(alloc, &rows, file),
        Err(_) => Ok(false),
    }
}

fn is_kept(alloc: Global) -> Result<bool, Fail> {
    let file = file_of(alloc, 1464, TREE)?;
    is_file_kept(alloc, file.as_slice())
}

#[test]
fn a_tree_with_sources_and_nested_conversions_is_written_as_it_was_read(
    rt: HostRuntime,
) -> Result<(), Fail> {
    assert!(rt; is_kept(rt.alloc())?);
    Ok(())
}
