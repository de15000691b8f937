ghost use Rattle.std.specs.Prelude.{◌≡◌, ℕ, ◌+◌, ◌^◌, ◌<◌, ◌≤◌, List, length, take, drop, false, All, Some};
ghost use Rattle.std.specs.List.{slice_index_or};
ghost use Rattle.mdf_format.specs.Field.{HasBit, bit_of};
ghost use Rattle.mdf_format.specs.Number.{bytes_at};
ghost use Rattle.mdf_layout.specs.Rule.{spot_in, IsPlacedAs, IsInvalIn};
ghost use Rattle.mdf_layout.specs.Values.{Finder, sample_by, IsRowPlaced};
ghost use Rattle.mdf_layout.specs.Written.{
  ValueFits,
  AreEntriesOf,
  AreApart,
  IsFree,
  IsFreePosition,
  OffsetsFit,
  HoldsValue,
  HoldsMark,
  HoldValues,
  HoldMarks,
  AreFound,
};
ghost use Rattle.mdf_layout.specs.declared.field.FieldKind.TheVariants as kinds;

use crate::reading::streams_with;
use crate::rule::{number_field, row_at};
use crate::{Entry, FieldKind, FieldRow, Value};
use mdf_bits::{mark_invalid, pattern_of, put};

/// Makes all bytes 0.
pub(crate) fn clear(out: &mut [u8])
    ensures zero { (p : ℕ) → bit_of out.new p ≡ 0 }
    ensures size { length out.new ≡ length out.old }
{
    out.fill(0);
}

/// Writes bytes into a record from `start` on.
pub(crate) fn put_bytes(content: &mut [u8], start: usize, bytes: &[u8])
    requires { start + length bytes.now ≤ length content.old }
    ensures there { bytes_at (length bytes.now) content.new start ≡ bytes.now }
    ensures before { take start content.new ≡ take start content.old }
    ensures behind { drop (start + length bytes.now) content.new ≡ drop (start + length bytes.now) content.old }
    ensures size { length content.new ≡ length content.old }
{
    content[start..start + bytes.len()].copy_from_slice(bytes);
}

/// Writes the value of a channel, or the offset of it, into a record. No other bit changes.
fn put_value(row: FieldRow, entry: &Entry, offset: u64, content: &mut [u8])
    requires placed { IsPlacedAs row.kind (length content.old) (spot_in row) }
    requires fits { ValueFits row.kind row.bits entry.now.value }
    requires offset { row.kind ≡ kinds.Variable → offset < 2 ^ row.bits }
    ensures value { HoldsValue row.kind (spot_in row) content.new offset entry.now.value }
    ensures others { (p : ℕ) → ¬ HasBit (spot_in row) p → bit_of content.new p ≡ bit_of content.old p }
    ensures size { length content.new ≡ length content.old }
{
    match row.kind {
        FieldKind::Unsigned => match &entry.value {
            Value::Unsigned(number) => put(content, number_field(row), *number),
            _ => {}
        },
        FieldKind::Signed => match &entry.value {
            Value::Signed(number) => put(
                content,
                number_field(row),
                pattern_of(*number, row.bits as u8),
            ),
            _ => {}
        },
        FieldKind::Fixed => match &entry.value {
            Value::Bytes(bytes) => put_bytes(content, row.byte as usize, bytes.as_slice()),
            _ => {}
        },
        FieldKind::Variable => put(content, number_field(row), offset),
        FieldKind::Virtual => {}
    }
}

/// The offset for a channel, counted from 0 among those of variable length; 0 past the end.
fn offset_at(offsets: &[u64], stream: usize) -> u64
    ensures { result ≡ slice_index_or offsets.now stream 0 }
{
    offsets.get(stream).copied().unwrap_or(0)
}

/// Writes the values of the channels, or the offsets of them, into the data bytes of a record. No other bit changes.
fn put_values(rows: &[FieldRow], values: &[Entry], offsets: &[u64], content: &mut [u8])
    requires placed { All (λ row. IsPlacedAs row.kind (length content.old) (spot_in row)) rows.now }
    requires apart { AreApart rows.now }
    requires fits { AreEntriesOf rows.now values.now }
    requires offsets { OffsetsFit rows.now offsets.now }
    requires few { length rows.now < 2 ^ 32 }
    ensures values { HoldValues rows.now values.now offsets.now (length rows.now) content.new }
    ensures others { (p : ℕ) → IsFree rows.now p → bit_of content.new p ≡ bit_of content.old p }
    ensures size { length content.new ≡ length content.old }
{
    let mut stream = 0;
    for channel in 0..rows.len() {
        let row = row_at(rows, channel);
        put_value(row, &values[channel], offset_at(offsets, stream), content);
        stream = streams_with(row, stream);
    }
}

/// Sets the invalidation bit of a channel where its value is invalid. No other bit changes.
fn mark(row: FieldRow, entry: &Entry, inval: &mut [u8])
    requires inside { IsInvalIn (length inval.old) row.inval }
    requires clear { (p : ℕ) → row.inval ≡ Some p → bit_of inval.old p ≡ 0 }
    ensures mark { HoldsMark row inval.new entry.now.valid }
    ensures others { (p : ℕ) → ¬ (row.inval ≡ Some p) → bit_of inval.new p ≡ bit_of inval.old p }
    ensures size { length inval.new ≡ length inval.old }
{
    if entry.valid {
        return;
    }
    match row.inval {
        Some(position) => mark_invalid(inval, position),
        None => {}
    }
}

/// Sets the invalidation bits of the channels whose values are invalid. No other bit changes.
fn mark_all(rows: &[FieldRow], values: &[Entry], inval: &mut [u8])
    requires inside { All (λ row. IsInvalIn (length inval.old) row.inval) rows.now }
    requires apart { AreApart rows.now }
    requires count { length values.now ≡ length rows.now }
    requires clear { (p : ℕ) → bit_of inval.old p ≡ 0 }
    ensures marks { HoldMarks rows.now values.now (length rows.now) inval.new }
    ensures others { (p : ℕ) → IsFreePosition rows.now p → bit_of inval.new p ≡ 0 }
    ensures size { length inval.new ≡ length inval.old }
{
    for channel in 0..rows.len() {
        mark(row_at(rows, channel), &values[channel], inval);
    }
}

/// Writes the invalidation bytes of a record. Where it has none, no channel is looked at.
fn put_marks(rows: &[FieldRow], values: &[Entry], inval: &mut [u8])
    requires inside { All (λ row. IsInvalIn (length inval.old) row.inval) rows.now }
    requires apart { AreApart rows.now }
    requires count { length values.now ≡ length rows.now }
    ensures marks { HoldMarks rows.now values.now (length rows.now) inval.new }
    ensures others { (p : ℕ) → IsFreePosition rows.now p → bit_of inval.new p ≡ 0 }
    ensures size { length inval.new ≡ length inval.old }
{
    if inval.is_empty() {
        return;
    }
    clear(inval);
    mark_all(rows, values, inval);
}

/// Writes a record of these values into its data bytes and its invalidation bytes, with the offset of each value of
/// variable length in the field of its channel. The bits of no channel must be 0 in the data bytes, and stay so. `decode`
/// gives the values back where each offset meets its value and each index is that of the record. It takes no memory.
pub(crate) fn encode_into(
    rows: &[FieldRow],
    values: &[Entry],
    offsets: &[u64],
    content: &mut [u8],
    inval: &mut [u8],
)
    requires placed { All (IsRowPlaced (length content.old) (length inval.old)) rows.now }
    requires valid { All (λ row. row.all_invalid ≡ false) rows.now }
    requires apart { AreApart rows.now }
    requires fits { AreEntriesOf rows.now values.now }
    requires offsets { OffsetsFit rows.now offsets.now }
    requires few { length rows.now < 2 ^ 32 }
    requires free { (p : ℕ) → IsFree rows.now p → bit_of content.old p ≡ 0 }
    ensures sample { (finders : List Finder) (index : ℕ) → AreFound rows.now values.now offsets.now finders index
        → sample_by rows.now content.new inval.new finders index ≡ Some values.now }
    ensures values { HoldValues rows.now values.now offsets.now (length rows.now) content.new }
    ensures marks { HoldMarks rows.now values.now (length rows.now) inval.new }
    ensures unused { (p : ℕ) → IsFree rows.now p → bit_of content.new p ≡ 0 }
    ensures unused_positions { (p : ℕ) → IsFreePosition rows.now p → bit_of inval.new p ≡ 0 }
    ensures size { length content.new ≡ length content.old }
    ensures inval_size { length inval.new ≡ length inval.old }
{
    put_values(rows, values, offsets, content);
    put_marks(rows, values, inval);
}
