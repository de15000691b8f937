// The values of a sample.
ghost use Rattle.std.specs.Prelude.{◌≡◌, ◌≤◌, IfOk};
ghost use Rattle.script_line.specs.Value.{held_in, unsigned_value, negative_in, positive_in, signed_value, pairs_of, bytes_of, fixed_value, long_value, value_of, number_value, float_value, value_in, entry_of, IsReadable};

use crate::float::{Width, float_bits};
use crate::number::number_of;
use crate::text::{begins_with, has_capital, is_marked};
use hex::FromHexError;
use mdf_layout::{Entry, FieldKind, FieldRow, Value};
use mdf_num::{Bytes, Memory, has_bits};
use std::alloc::Global;

/// This number, if so many bits hold it.
fn held_in(bits: u32, number: u64) -> Option<Value>
    ensures { result ≡ held_in bits number }
{
    if !has_bits(number, bits) {
        return None;
    }
    Some(Value::Unsigned(number))
}

/// The unsigned number of so many bits that a word is.
#[tactic(auto, unfolding(crate::specs::Value::unsigned_value))]
fn unsigned_value(bits: u32, word: &[u8]) -> Option<Value>
    ensures { result ≡ unsigned_value bits word.now }
{
    let number = number_of(word)?;
    held_in(bits, number)
}

/// The negative of this number, where that is not 0 and so many bits hold it in two's complement.
pub(crate) fn negative_in(bits: u32, number: u64) -> Option<Value>
    requires some { 1 ≤ bits }
    requires few { bits ≤ 64 }
    ensures { result ≡ negative_in bits number }
{
    if number < 1 || !has_bits(number - 1, bits - 1) {
        return None;
    }
    Some(Value::Signed(-1 - (number - 1) as i64))
}

/// This number, where so many bits hold it in two's complement.
pub(crate) fn positive_in(bits: u32, number: u64) -> Option<Value>
    requires some { 1 ≤ bits }
    requires few { bits ≤ 64 }
    ensures { result ≡ positive_in bits number }
{
    if !has_bits(number, bits - 1) {
        return None;
    }
    Some(Value::Signed(number as i64))
}

/// The signed number of so many bits that a word is: with a `-` and a number that is not 0, or without.
#[tactic(auto, unfolding(crate::specs::Value::signed_value))]
fn signed_value(bits: u32, word: &[u8]) -> Option<Value>
    requires some { 1 ≤ bits }
    requires few { bits ≤ 64 }
    ensures { result ≡ signed_value bits word.now }
{
    if begins_with(b'-', word) {
        let number = number_of(&word[1..])?;
        return negative_in(bits, number);
    }
    let number = number_of(word)?;
    positive_in(bits, number)
}

/// The bytes that pairs of hexadecimal digits are, whose letters are small.
#[tactic(auto, unfolding(crate::specs::Value::pairs_of))]
fn pairs_of(alloc: Global, digits: &[u8]) -> Result<Option<Bytes>, Memory>
    ensures { IfOk result (λ bytes. bytes ≡ pairs_of digits.now) }
{
    if has_capital(digits) {
        return Ok(None);
    }
    match hex::decode(alloc, digits) {
        Ok(bytes) => Ok(Some(Bytes::from_vec(bytes))),
        Err(FromHexError::OutOfMemory) => Err(Memory),
        Err(_) => Ok(None),
    }
}

/// The bytes that a word is: `x` and two digits for each byte.
#[tactic(auto, unfolding(crate::specs::Value::bytes_of))]
fn bytes_of(alloc: Global, word: &[u8]) -> Result<Option<Bytes>, Memory>
    ensures { IfOk result (λ bytes. bytes ≡ bytes_of word.now) }
{
    if !begins_with(b'x', word) {
        return Ok(None);
    }
    pairs_of(alloc, &word[1..])
}

/// The value of so many bytes that a word is.
#[tactic(auto, unfolding(crate::specs::Value::fixed_value))]
fn fixed_value(alloc: Global, size: u32, word: &[u8]) -> Result<Option<Value>, Memory>
    ensures { IfOk result (λ value. value ≡ fixed_value size word.now) }
{
    match bytes_of(alloc, word)? {
        Some(bytes) if bytes.as_slice().len() == size as usize => Ok(Some(Value::Bytes(bytes))),
        _ => Ok(None),
    }
}

/// The most bytes that a value of variable length can have.
const MOST_BYTES: usize = 65_535;

/// The value of variable length that a word is.
#[tactic(auto, unfolding(crate::specs::Value::long_value))]
fn long_value(alloc: Global, word: &[u8]) -> Result<Option<Value>, Memory>
    ensures { IfOk result (λ value. value ≡ long_value word.now) }
{
    match bytes_of(alloc, word)? {
        Some(bytes) if bytes.as_slice().len() <= MOST_BYTES => Ok(Some(Value::Bytes(bytes))),
        _ => Ok(None),
    }
}

/// The value that a word is for a channel.
#[tactic(auto, unfolding(crate::specs::Value::value_of))]
fn value_of(alloc: Global, row: FieldRow, word: &[u8]) -> Result<Option<Value>, Memory>
    requires { IsReadable row }
    ensures { IfOk result (λ value. value ≡ value_of row word.now) }
{
    match row.kind {
        FieldKind::Unsigned => Ok(unsigned_value(row.bits, word)),
        FieldKind::Signed => Ok(signed_value(row.bits, word)),
        FieldKind::Fixed => fixed_value(alloc, row.bits / 8, word),
        FieldKind::Variable => long_value(alloc, word),
        FieldKind::Virtual => Ok(None),
    }
}

/// The value that a number is for a channel of numbers.
fn number_value(row: FieldRow, number: u64) -> Option<Value>
    requires { IsReadable row }
    ensures { result ≡ number_value row.kind row.bits number }
{
    match row.kind {
        FieldKind::Unsigned => held_in(row.bits, number),
        FieldKind::Signed => positive_in(row.bits, number),
        _ => None,
    }
}

/// The value that a word is for a channel that takes floats of this width: the bits of the float that it says.
fn float_value(width: Width, row: FieldRow, word: &[u8]) -> Option<Value>
    requires { IsReadable row }
    ensures { result ≡ float_value width row word.now }
{
    let bits = float_bits(width, word)?;
    number_value(row, bits)
}

/// The value that a word is for a channel, which takes floats if it has a width.
fn value_in(
    alloc: Global,
    width: Option<Width>,
    row: FieldRow,
    word: &[u8],
) -> Result<Option<Value>, Memory>
    requires { IsReadable row }
    ensures { IfOk result (λ value. value ≡ value_in width row word.now) }
{
    match width {
        Some(width) => Ok(float_value(width, row, word)),
        None => value_of(alloc, row, word),
    }
}

/// The entry that a word is for a channel: its value, and behind it `?` if it is invalid, which only a channel with an
/// invalidation bit can say.
#[tactic(auto, unfolding(crate::specs::Value::entry_of))]
pub(crate) fn entry_of(
    alloc: Global,
    width: Option<Width>,
    row: FieldRow,
    word: &[u8],
) -> Result<Option<Entry>, Memory>
    requires { IsReadable row }
    ensures { IfOk result (λ entry. entry ≡ entry_of width row word.now) }
{
    let valid = !is_marked(word);
    if !valid && row.inval.is_none() {
        return Ok(None);
    }
    let word = if valid { word } else { &word[..word.len() - 1] };
    match value_in(alloc, width, row, word)? {
        Some(value) => Ok(Some(Entry { value, valid })),
        None => Ok(None),
    }
}
