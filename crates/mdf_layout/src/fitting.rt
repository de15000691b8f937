// Whether channels lie apart, and whether they can have entries.
ghost use Rattle.std.specs.Prelude.{◌≡◌, ◌+◌, ◌-◌, ◌/◌, ◌^◌, ◌<◌, ◌↔◌, max, min, All, IsTrue};
ghost use Rattle.mdf_format.specs.Row.{SharesBit};
ghost use Rattle.mdf_bits.specs.Field.{IsSignedOf};
ghost use Rattle.mdf_layout.specs.Rule.{bits_in, spot_in};
ghost use Rattle.mdf_layout.specs.Written.{
  IsWhole,
  SharesPosition,
  IsApart,
  AreApart,
  ValueFits,
  IsEntryOf,
  AreEntriesOf,
};

use crate::rule::{bits_of, shares_bit};
use crate::{Entry, FieldKind, FieldRow, Value};
use mdf_num::has_bits;

/// Whether its field is of whole bytes.
fn is_whole(row: FieldRow) -> bool
    ensures { IsTrue result ↔ IsWhole (spot_in row) }
{
    row.bit == 0 && bits_of(row) % 8 == 0
}

/// Where the later one of two fields begins.
fn later_start(one: FieldRow, other: FieldRow) -> u64
    ensures { result ≡ max one.byte other.byte }
{
    if one.byte < other.byte {
        other.byte as u64
    } else {
        one.byte as u64
    }
}

/// Where its field of whole bytes ends.
fn end_of(row: FieldRow) -> u64
    ensures { result ≡ row.byte + bits_in row.kind row.bits / 8 }
{
    row.byte as u64 + bits_of(row) / 8
}

/// Where the earlier one of two fields of whole bytes ends.
fn earlier_end(one: FieldRow, other: FieldRow) -> u64
    ensures { result ≡ min (one.byte + bits_in one.kind one.bits / 8) (other.byte + bits_in other.kind other.bits / 8) }
{
    let end = end_of(one);
    let other_end = end_of(other);
    if end < other_end { end } else { other_end }
}

/// Whether two fields of whole bytes share a bit: a byte is of both.
fn share_byte(one: FieldRow, other: FieldRow) -> bool
    requires one { IsWhole (spot_in one) }
    requires other { IsWhole (spot_in other) }
    ensures { IsTrue result ↔ SharesBit (spot_in one) (spot_in other) }
{
    later_start(one, other) < earlier_end(one, other)
}

/// Whether two fields share a bit, in at most a step for each bit of the shorter one.
fn share_bit(one: FieldRow, other: FieldRow) -> bool
    ensures { IsTrue result ↔ SharesBit (spot_in one) (spot_in other) }
{
    if is_whole(one) && is_whole(other) {
        return share_byte(one, other);
    }
    if bits_of(one) <= bits_of(other) {
        shares_bit(one, other)
    } else {
        shares_bit(other, one)
    }
}

/// Whether two channels have one position of an invalidation bit.
fn share_position(one: FieldRow, other: FieldRow) -> bool
    ensures { IsTrue result ↔ SharesPosition one other }
{
    match one.inval {
        Some(position) => match other.inval {
            Some(place) => position == place,
            None => false,
        },
        None => false,
    }
}

/// Whether no bit belongs to both channels.
fn is_apart(one: FieldRow, other: FieldRow) -> bool
    ensures { IsTrue result ↔ IsApart one other }
{
    !share_bit(one, other) && !share_position(one, other)
}

/// Whether no bit belongs to the channel and to one of the others.
fn is_apart_from(row: FieldRow, others: &[FieldRow]) -> bool
    ensures { IsTrue result ↔ All (IsApart row) others.now }
{
    for other in others {
        if !is_apart(row, *other) {
            return false;
        }
    }
    true
}

/// Whether no bit of a record belongs to two channels: their fields share none, and their invalidation bits have
/// different positions.
pub fn are_apart(rows: &[FieldRow]) -> bool
    ensures { IsTrue result ↔ AreApart rows.now }
{
    for i in 0..rows.len() {
        if !is_apart_from(rows[i], &rows[i + 1..]) {
            return false;
        }
    }
    true
}

/// How many bits there are below the sign.
fn bits_below_sign(bits: u32) -> u32
    ensures { result ≡ bits - 1 }
{
    if bits == 0 { 0 } else { bits - 1 }
}

/// Whether so many bits hold the number as two's complement.
fn has_signed_bits(number: i64, bits: u32) -> bool
    ensures { IsTrue result ↔ IsSignedOf bits number }
{
    let below = bits_below_sign(bits);
    if number < 0 {
        has_bits((-1 - number) as u64, below)
    } else {
        has_bits(number as u64, below)
    }
}

/// Whether a channel can have the value.
fn value_fits(row: FieldRow, value: &Value) -> bool
    ensures { IsTrue result ↔ ValueFits row.kind row.bits value.now }
{
    match row.kind {
        FieldKind::Unsigned => match value {
            Value::Unsigned(number) => has_bits(*number, row.bits),
            _ => false,
        },
        FieldKind::Signed => match value {
            Value::Signed(number) => has_signed_bits(*number, row.bits),
            _ => false,
        },
        FieldKind::Fixed => match value {
            Value::Bytes(bytes) => bytes.as_slice().len() as u64 == row.bits as u64 / 8,
            _ => false,
        },
        FieldKind::Variable => match value {
            Value::Bytes(bytes) => (bytes.as_slice().len() as u64) < 1 << 32,
            _ => false,
        },
        FieldKind::Virtual => match value {
            Value::Index(_) => true,
            _ => false,
        },
    }
}

/// Whether a channel can have the entry.
fn entry_fits(row: FieldRow, entry: &Entry) -> bool
    ensures { IsTrue result ↔ IsEntryOf row entry.now }
{
    (entry.valid || row.inval.is_some()) && value_fits(row, &entry.value)
}

/// Whether there is one entry for each channel, of its kind and range, and invalid only where the channel has an
/// invalidation bit.
pub fn entries_fit(rows: &[FieldRow], entries: &[Entry]) -> bool
    ensures { IsTrue result ↔ AreEntriesOf rows.now entries.now }
{
    if rows.len() != entries.len() {
        return false;
    }
    for i in 0..rows.len() {
        if !entry_fits(rows[i], &entries[i]) {
            return false;
        }
    }
    true
}
