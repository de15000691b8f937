ghost use Rattle.std.specs.Prelude.{◌≡◌, ℕ, ◌-◌, ◌^◌, ◌≤◌, ◌<◌, length};
ghost use Rattle.mdf_format.specs.Field.{HasBit, bit_of, covered_end, covered_size, field_number, signed_number};
ghost use Rattle.mdf_bits.specs.Field.{spot_of, IsSignedOf};

use crate::Field;
use crate::word::{bits_from, put_bits, word_of};

/// How many bytes the field touches, at most 9.
fn size(field: Field) -> usize
    ensures size { result ≡ covered_size (spot_of field) }
    ensures few { result ≤ 9 }
{
    (field.bit as usize + field.bits as usize + 7) / 8
}

/// Where the bytes that the field touches end: how many bytes a record must have at least.
pub fn covers(field: Field) -> u64
    ensures { result ≡ covered_end (spot_of field) }
{
    field.byte as u64 + size(field) as u64
}

/// The number of the field in a record, as the unsigned data types of MDF are (`cn_data_type` 0 and 1): its bits with
/// the lowest first. The other types begin from these bits too; `signed` goes on from them.
pub fn get(bytes: &[u8], field: Field) -> u64
    requires { covered_end (spot_of field) ≤ length bytes.now }
    ensures number { result ≡ field_number (spot_of field) bytes.now }
    ensures fits { result < 2 ^ field.bits }
{
    let start = field.byte as usize;
    let word = word_of(&bytes[start..start + size(field)], field.big);
    bits_from(word, field.bit, field.bits)
}

/// Writes the number of the field, which has no more bits than the field, into a record. No other bit of the record
/// changes.
#[inline]
pub fn put(bytes: &mut [u8], field: Field, value: u64)
    requires within { covered_end (spot_of field) ≤ length bytes.old }
    requires fits { value < 2 ^ field.bits }
    ensures number { field_number (spot_of field) bytes.new ≡ value }
    ensures other_bits { (p : ℕ) → ¬ HasBit (spot_of field) p → bit_of bytes.new p ≡ bit_of bytes.old p }
    ensures len { length bytes.new ≡ length bytes.old }
{
    let start = field.byte as usize;
    let covered = &mut bytes[start..start + size(field)];
    put_bits(covered, field.big, field.bit, field.bits, value);
}

/// The number of a field of `bits` bits, 1 to 64, as two's complement, which the signed data types of MDF are
/// (`cn_data_type` 2 and 3): its highest bit is the sign.
pub fn signed(value: u64, bits: u8) -> i64
    requires not_empty { 1 ≤ bits }
    requires in_word { bits ≤ 64 }
    requires fits { value < 2 ^ bits }
    ensures { result ≡ signed_number bits value }
{
    if value >> (bits - 1) == 0 {
        return value as i64;
    }
    let ones = u64::MAX >> (64 - bits);
    -1 - (ones - value) as i64
}

/// The bits of a signed number as two's complement, of which there are `bits`, 1 to 64: `signed` of them is the number.
pub fn pattern_of(number: i64, bits: u8) -> u64
    requires not_empty { 1 ≤ bits }
    requires in_word { bits ≤ 64 }
    requires held { IsSignedOf bits number }
    ensures back { signed_number bits result ≡ number }
    ensures fits { result < 2 ^ bits }
{
    if number >= 0 {
        return number as u64;
    }
    let ones = u64::MAX >> (64 - bits);
    ones - (-1 - number) as u64
}
