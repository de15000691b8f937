// The rules that the channels of a layout keep.
ghost use Rattle.std.specs.Prelude.{◌≡◌, ◌+◌, ◌*◌, ◌^◌, ◌<◌, ◌≤◌, ◌&&◌, length, slice_get, Some, IfSome, IfNone, All};
ghost use Rattle.std.specs.List.{slice_index_or};
ghost use Rattle.mdf_layout.specs.Values.{IsRowPlaced};
ghost use Rattle.mdf_layout.specs.Run.{MeetNone};
ghost use Rattle.mdf_format.specs.Field.{covered_size, covered_end, place_of};
ghost use Rattle.mdf_bits.specs.Field as bits;
ghost use Rattle.mdf_bits.specs.Field.{bit_within};
ghost use Rattle.mdf_layout.specs.Rule.{
  spot_in,
  bits_in,
  is_variable,
  has_bit,
  shares_bit,
  is_placed,
  is_inval_placed,
  any_below,
  meets_at,
  breaks_row_rule,
  AreRuled,
  IsFirstBad,
};

use crate::{FieldKind, FieldRow};
use mdf_bits::Field;

/// Channel `k` of these.
pub(crate) fn row_at(rows: &[FieldRow], k: usize) -> FieldRow
    requires { k < length rows.now }
    ensures { slice_get rows.now k ≡ Some result }
{
    rows[k]
}

/// How many bits of a record are the channel's.
pub(crate) fn bits_of(row: FieldRow) -> u64
    ensures { result ≡ bits_in row.kind row.bits }
{
    match row.kind {
        FieldKind::Unsigned | FieldKind::Signed | FieldKind::Fixed | FieldKind::Variable =>
            row.bits as u64,
        FieldKind::Virtual => 0,
    }
}

/// Whether the values of a channel with this row are of variable length.
pub fn is_variable(row: FieldRow) -> bool
    ensures { result ≡ is_variable row }
{
    match row.kind {
        FieldKind::Variable => true,
        FieldKind::Unsigned | FieldKind::Signed | FieldKind::Fixed | FieldKind::Virtual => false,
    }
}

/// Its field, where it has one of 1 to 64 bits.
pub(crate) fn number_field(row: FieldRow) -> Field
    requires bit { row.bit ≤ 7 }
    requires some { 1 ≤ bits_in row.kind row.bits }
    requires few { bits_in row.kind row.bits ≤ 64 }
    ensures { bits.spot_of result ≡ spot_in row }
{
    Field {
        byte: row.byte,
        bit: row.bit,
        bits: bits_of(row) as u8,
        big: row.big,
    }
}

/// How many bytes its field touches.
pub(crate) fn covered(row: FieldRow) -> u64
    ensures size { result ≡ covered_size (spot_in row) }
    ensures small { result < 2 ^ 32 }
{
    (row.bit as u64 + bits_of(row) + 7) / 8
}

/// Which bit of the bytes that its field touches is bit `p` of the record.
fn bit_within(row: FieldRow, p: u64) -> u64
    requires low { 8 * row.byte ≤ p }
    requires high { p < 8 * covered_end (spot_in row) }
    ensures { result ≡ bit_within (spot_in row) p }
{
    if row.big {
        8 * (covered(row) - 1 - (p / 8 - row.byte as u64)) + p % 8
    } else {
        p - 8 * row.byte as u64
    }
}

/// Whether bit `p` of the record is one of its field's.
fn has_bit(row: FieldRow, p: u64) -> bool
    ensures { result ≡ has_bit (spot_in row) p }
{
    if p < 8 * row.byte as u64 || p >= 8 * (row.byte as u64 + covered(row)) {
        return false;
    }
    let k = bit_within(row, p);
    row.bit as u64 <= k && k < row.bit as u64 + bits_of(row)
}

/// Where bit `k` of the bytes that its field touches lies in the record.
fn place_of(row: FieldRow, k: u64) -> u64
    requires { k < row.bit + bits_in row.kind row.bits }
    ensures { result ≡ place_of (spot_in row) k }
{
    if row.big {
        8 * (row.byte as u64 + (covered(row) - 1 - k / 8)) + k % 8
    } else {
        8 * row.byte as u64 + k
    }
}

/// Whether two fields share a bit, in a step for each bit of the first.
pub(crate) fn shares_bit(one: FieldRow, other: FieldRow) -> bool
    ensures { result ≡ shares_bit (spot_in one) (spot_in other) }
{
    for i in 0..bits_of(one) {
        if has_bit(other, place_of(one, one.bit as u64 + i)) {
            return true;
        }
    }
    false
}

/// Whether its field has its place in so many data bytes.
fn is_placed(row: FieldRow, data_bytes: u32) -> bool
    ensures { result ≡ is_placed row.kind data_bytes (spot_in row) }
{
    let inside = row.byte as u64 + covered(row) <= data_bytes as u64;
    match row.kind {
        FieldKind::Unsigned | FieldKind::Signed | FieldKind::Variable => row.bit <= 7
            && row.bits >= 1
            && row.bits <= 64
            && inside,
        FieldKind::Fixed => row.bit == 0 && row.bits % 8 == 0 && inside,
        FieldKind::Virtual => true,
    }
}

/// Whether its invalidation bit, where it has one, has its place in so many invalidation bytes.
fn is_inval_placed(row: FieldRow, inval_bytes: u32) -> bool
    ensures { result ≡ is_inval_placed inval_bytes row.inval }
{
    match row.inval {
        Some(position) => position / 8 < inval_bytes,
        None => true,
    }
}

/// Whether channel `j` is another one, and shares a bit with its field.
fn meets(rows: &[FieldRow], k: usize, row: FieldRow, j: usize) -> bool
    requires { j < length rows.now }
    ensures { result ≡ meets_at rows.now k row j }
{
    j != k && shares_bit(row, rows[j])
}

/// Whether it shares a bit with the field of another channel.
fn meets_another(rows: &[FieldRow], k: usize, row: FieldRow) -> bool
    ensures { result ≡ any_below (length rows.now) (meets_at rows.now k row) }
{
    for j in 0..rows.len() {
        if meets(rows, k, row, j) {
            return true;
        }
    }
    false
}

/// Whether its value is of variable length, and it shares a bit with the field of another channel. It is known that no
/// channel before `apart` does so.
fn meets_in(rows: &[FieldRow], k: usize, row: FieldRow, apart: u32) -> bool
    requires apart { MeetNone rows.now apart }
    requires there { slice_get rows.now k ≡ Some row }
    ensures { result ≡ (is_variable row && any_below (length rows.now) (meets_at rows.now k row)) }
{
    is_variable(row) && k as u64 >= apart as u64 && meets_another(rows, k, row)
}

/// Whether channel `k` breaks a rule. It is known that no channel of variable length before `apart` meets another.
fn breaks_rule(rows: &[FieldRow], k: usize, apart: u32, data_bytes: u32, inval_bytes: u32) -> bool
    requires there { k < length rows.now }
    requires apart { MeetNone rows.now apart }
    ensures { (d : FieldRow) → result ≡ breaks_row_rule data_bytes inval_bytes rows.now k (slice_index_or rows.now k d) }
{
    let row = row_at(rows, k);
    !is_placed(row, data_bytes)
        || !is_inval_placed(row, inval_bytes)
        || meets_in(rows, k, row, apart)
}

/// The least channel that breaks a rule, as `first_bad`. It is known that no channel of variable length before `apart`
/// meets another.
pub(crate) fn least_bad(
    rows: &[FieldRow],
    apart: u32,
    data_bytes: u32,
    inval_bytes: u32,
) -> Option<u32>
    requires few { length rows.now < 2 ^ 32 }
    requires apart { MeetNone rows.now apart }
    ensures bad { IfSome result (IsFirstBad data_bytes inval_bytes rows.now) }
    ensures none { IfNone result (AreRuled data_bytes inval_bytes rows.now (length rows.now)) }
    ensures placed { IfNone result (All (IsRowPlaced data_bytes inval_bytes) rows.now) }
{
    for channel in 0..rows.len() {
        if breaks_rule(rows, channel, apart, data_bytes, inval_bytes) {
            return Some(channel as u32);
        }
    }
    None
}

/// The least channel that breaks a rule of the rows of a record with so many data bytes and invalidation bytes. None
/// exactly where no channel breaks one:
/// - A number, or an offset of a value of variable length, has 1 to 64 bits from one of the first eight on, and the
///   bytes that it touches lie in the data bytes.
/// - A field of bytes has whole bytes, which lie in the data bytes.
/// - An offset shares no bit with another channel's field.
/// - The byte of an invalidation bit lies in the invalidation bytes.
///
/// Each offset is held against every channel; `shape_of` finds the same channel in the order of the bits.
pub fn first_bad(rows: &[FieldRow], data_bytes: u32, inval_bytes: u32) -> Option<u32>
    requires few { length rows.now < 2 ^ 32 }
    ensures bad { IfSome result (IsFirstBad data_bytes inval_bytes rows.now) }
    ensures none { IfNone result (AreRuled data_bytes inval_bytes rows.now (length rows.now)) }
    ensures placed { IfNone result (All (IsRowPlaced data_bytes inval_bytes) rows.now) }
{
    least_bad(rows, 0, data_bytes, inval_bytes)
}
