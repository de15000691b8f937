ghost use Rattle.std.specs.Prelude.{◌≡◌, [], ◌∷◌, IfOk};
ghost use Rattle.mdf_group.specs.Recordable.{AreRecordable};
ghost use Rattle.mdf_file_tests.specs.Recorded.{master, group};

use mdf_block::Note;
use mdf_format::Form;
use mdf_group::{ChannelRow, GroupRow};
use mdf_num::{Bytes, Rows};
use mdf_spell::recording_head;
use std::alloc::Global;
use std::test::Fail;
use test_rig::{Piece, marked_file};

// The identification: unfinalized, version 4.10, the standard flags 33 and the custom flag 1.
pub(crate) const IDENT: [u8; 64] = [
    85, 110, 70, 105, 110, 77, 70, 32, 52, 46, 49, 48, 32, 32, 32, 32, 109, 100, 102, 52, 114, 101,
    99, 32, 0, 0, 0, 0, 154, 1, 0, 0, 0, 0, 0, 0, 0, 0, 0, 0, 0, 0, 0, 0, 0, 0, 0, 0, 0, 0, 0, 0,
    0, 0, 0, 0, 0, 0, 0, 0, 33, 0, 1, 0,
];

// The start time is 0x0807060504030201 ns, in the header and in the entry of the history.
pub(crate) const HD: Piece = (
    64,
    b"##HD",
    &[376, 168, 0, 0, 0, 0],
    b"\x01\x02\x03\x04\x05\x06\x07\x08\0\0\0\0\0\0\0\0\0\0\0\0\0\0\0\0\0\0\0\0\0\0\0\0",
);

pub(crate) const FH: Piece = (
    168,
    b"##FH",
    &[0, 224],
    b"\x01\x02\x03\x04\x05\x06\x07\x08\0\0\0\0\0\0\0\0",
);

pub(crate) const MD: Piece = (
    224,
    b"##MD",
    &[],
    b"<FHcomment><TX>record</TX><tool_id>mdf4rec</tool_id><tool_vendor>none</tool_vendor><tool_version>1</tool_version></FHcomment>\0\0\0",
);

// The data begin behind the last block, at 768.
const DG: Piece = (376, b"##DG", &[0, 440, 768, 0], b"\x01\0\0\0\0\0\0\0");

// Record id 1, no cycles yet, and records of 8 data bytes.
const CG: Piece = (
    440,
    b"##CG",
    &[0, 576, 544, 0, 0, 0],
    b"\x01\0\0\0\0\0\0\0\0\0\0\0\0\0\0\0\0\0\0\0\0\0\0\0\x08\0\0\0\0\0\0\0",
);

const GROUP_NAME: Piece = (544, b"##TX", &[], b"g\0\0\0\0\0\0\0");

// A master that counts time, an unsigned number of 64 bits.
const CN: Piece = (
    576,
    b"##CN",
    &[0, 0, 736, 0, 0, 0, 0, 0],
    b"\x02\x01\0\0\0\0\0\0\x40\0\0\0\0\0\0\0\0\0\0\0\0\0\0\0\0\0\0\0\0\0\0\0\0\0\0\0\0\0\0\0\0\0\0\0\0\0\0\0\0\0\0\0\0\0\0\0\0\0\0\0\0\0\0\0\0\0\0\0\0\0\0\0",
);

const CHANNEL_NAME: Piece = (736, b"##TX", &[], b"t\0\0\0\0\0\0\0");

/// The blocks of the head of a recording of one group of one master.
pub(crate) const BLOCKS: &[Piece] = &[HD, FH, MD, DG, CG, GROUP_NAME, CN, CHANNEL_NAME];

fn text(alloc: Global, bytes: &[u8]) -> Result<Note, Fail>
    ensures { IfOk result (λ note. note ≡ Note.Plain bytes.now) }
{
    Ok(Note::Plain(Bytes::from_slice(alloc, bytes)?))
}

fn channels(alloc: Global) -> Result<Rows<ChannelRow>, Fail>
    ensures { IfOk result (λ rows. rows ≡ master ∷ []) }
{
    let mut rows = Rows::empty(alloc);
    rows.push(ChannelRow {
        at: 0,
        kind: 2,
        sync: 1,
        data_type: 0,
        bit: 0,
        byte: 0,
        bits: 64,
        flags: 0,
        inval: 0,
        precision: 0,
        ranges: [0; 6],
        name: text(alloc, b"t")?,
        source: None,
        conv: None,
        unit: Note::Nothing,
        comment: Note::Nothing,
        values: 0,
        extra: 0,
    })?;
    Ok(rows)
}

fn groups(alloc: Global) -> Result<Rows<GroupRow>, Fail>
    ensures { IfOk result (λ rows. rows ≡ group ∷ []) }
{
    let name = text(alloc, b"g")?;
    let channels = channels(alloc)?;
    let mut rows = Rows::empty(alloc);
    rows.push(GroupRow {
        at: 0,
        id: 0,
        cycles: 0,
        flags: 0,
        separator: 0,
        data_bytes: 8,
        inval_bytes: 0,
        name,
        source: None,
        comment: Note::Nothing,
        channels,
    })?;
    Ok(rows)
}

// The rows to be recorded.
#[tactic(auto, using(crate::proofs::Literals::recordable))]
fn recordable(alloc: Global) -> Result<Rows<GroupRow>, Fail>
    ensures { IfOk result (λ rows. AreRecordable rows) }
{
    groups(alloc)
}

// The head of their recording.
fn head(alloc: Global) -> Result<Bytes, Fail> {
    let rows = recordable(alloc)?;
    Ok(recording_head(alloc, 0x0807_0605_0403_0201, &rows, Form::Bare)?)
}

// Whether the head is the one of the tables of the blocks.
fn is_expected(alloc: Global) -> Result<bool, Fail> {
    let want = marked_file(alloc, 768, &IDENT, &[BLOCKS])?;
    Ok(head(alloc)?.as_slice() == want.as_slice())
}

#[test]
fn a_recording_begins_with_these_bytes(rt: HostRuntime) -> Result<(), Fail> {
    assert!(rt; is_expected(rt.alloc())?);
    Ok(())
}
