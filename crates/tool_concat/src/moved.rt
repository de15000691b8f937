ghost use Rattle.std.specs.Prelude.{ℕ, ◌≡◌, ◌+◌, ◌*◌, ◌^◌, ◌<◌, ◌++◌, List, length, take, IsTrue, IfOk, OnOk};
ghost use Rattle.mdf_format.specs.Field.{HasBit, bit_of};
ghost use Rattle.mdf_format.specs.Row.{IsNumberPlaced};
ghost use Rattle.mdf_layout.specs.Layout.{record_size};
ghost use Rattle.mdf_layout.specs.Rule.{spot_in};
ghost use Rattle.mdf_layout.specs.declared.field.FieldKind.TheVariants as kinds;
ghost use Rattle.tool_concat.specs.Moved.{AreMoved, AreOffsetsMoved, HasNoOffsets, IsMoved, offset_in};
ghost use Rattle.tool_concat.specs.Placed.{AreAllHeld, AreHeld, AreOffsetsPlaced};

use crate::record::{offset_field, record_in, row_at, stream_length};
use mdf_bits::{get, put};
use mdf_layout::{FieldRow, Shape, is_variable};
use mdf_num::{Bytes, Memory};
use mdf_vlsd::ValueStream;
use std::alloc::Global;

/// Moves the offset of a channel in the data bytes of a record. No other bit changes.
fn move_offset(row: FieldRow, shift: u64, bytes: &mut [u8])
    requires kind { row.kind ≡ kinds.Variable }
    requires placed { IsNumberPlaced (length bytes.old) (spot_in row) }
    requires held { offset_in row bytes.old + shift < 2 ^ row.bits }
    ensures offset { offset_in row bytes.new ≡ offset_in row bytes.old + shift }
    ensures others { (p : ℕ) → ¬ HasBit (spot_in row) p → bit_of bytes.new p ≡ bit_of bytes.old p }
    ensures long { length bytes.new ≡ length bytes.old }
{
    let field = offset_field(row, bytes.len());
    let offset = get(bytes, field);
    put(bytes, field, offset + shift);
}

/// Moves the offsets of the channels of variable length in the data bytes of a record. No other bit changes.
fn move_offsets(rows: &[FieldRow], streams: &[ValueStream], bytes: &mut [u8])
    requires placed { AreOffsetsPlaced rows.now (length bytes.old) }
    requires held { AreHeld rows.now streams.now bytes.old }
    ensures { AreOffsetsMoved rows.now streams.now (length rows.now) bytes.old bytes.new }
{
    let mut stream = 0;
    for channel in 0..rows.len() {
        let row = row_at(rows, channel);
        if !is_variable(row) {
            continue;
        }
        move_offset(row, stream_length(streams, stream), bytes);
        stream += 1;
    }
}

/// Adds a record with its offsets moved. The scratch takes its data bytes, and its old content is dropped.
fn add_moved(
    content: &mut Bytes,
    scratch: &mut Vec<u8>,
    shape: &Shape,
    streams: &[ValueStream],
    bytes: &[u8],
) -> Result<(), Memory>
    requires long { length bytes.now ≡ record_size shape.now }
    requires placed { AreOffsetsPlaced shape.now.rows shape.now.data_bytes }
    requires held { AreHeld shape.now.rows streams.now (take shape.now.data_bytes bytes.now) }
    ensures { OnOk result ((last : List ℕ) × (content.new ≡ content.old ++ last) × IsMoved shape.now streams.now bytes.now last) }
{
    let (front, inval) = bytes.split_at(shape.data_bytes() as usize);
    scratch.clear();
    scratch.extend_from_slice(front)?;
    move_offsets(shape.fields().as_slice(), streams, scratch.as_mut_slice());
    content.push_pair(scratch.as_slice(), inval)
}

/// Whether none of the channels is of variable length.
fn has_no_offsets(rows: &[FieldRow]) -> bool
    ensures { IsTrue result → HasNoOffsets rows.now }
{
    for row in rows {
        if is_variable(*row) {
            return false;
        }
    }
    true
}

/// The records of a group without offsets behind bytes. There is nothing to move, so that they are copied at once.
fn with_others(
    before: Bytes,
    shape: &Shape,
    streams: &[ValueStream],
    others: &[u8],
    count: u64,
) -> Result<Bytes, Memory>
    requires long { length others.now ≡ count * record_size shape.now }
    requires none { HasNoOffsets shape.now.rows }
    ensures { IfOk result (λ content. (moved : List ℕ) × (content ≡ before ++ moved) × AreMoved shape.now streams.now others.now count moved) }
{
    let mut content = before;
    content.push_slice(others)?;
    Ok(content)
}

/// The records of a group behind bytes, in their memory, with their offsets moved by the lengths of streams.
pub(crate) fn with_moved(
    alloc: Global,
    before: Bytes,
    shape: &Shape,
    streams: &[ValueStream],
    others: &[u8],
    count: u64,
) -> Result<Bytes, Memory>
    requires long { length others.now ≡ count * record_size shape.now }
    requires held { AreAllHeld shape.now streams.now others.now count }
    ensures { IfOk result (λ content. (moved : List ℕ) × (content ≡ before ++ moved) × AreMoved shape.now streams.now others.now count moved) }
{
    if has_no_offsets(shape.fields().as_slice()) {
        return with_others(before, shape, streams, others, count);
    }
    let mut content = before;
    let mut scratch = Vec::new(alloc);
    let _fields = shape.fields();
    for i in 0..count {
        let bytes = record_in(shape, others, count, i);
        add_moved(&mut content, &mut scratch, shape, streams, bytes)?;
    }
    Ok(content)
}
