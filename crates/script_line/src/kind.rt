// The types of channels.
ghost use Rattle.std.specs.Prelude.{◌≡◌, ◌≤◌, IfSome};
ghost use Rattle.std.specs.Option.{option_map};
ghost use Rattle.script_line.specs.Kind.{behind, count_behind, packed, at_byte, long, named_type, number_type, type_of, is_number};

use crate::number::number_of;

/// What the type of a channel says.
#[derive(Clone, Copy)]
pub struct ValueType {
    /// The data type (`cn_data_type`).
    pub data_type: u8,
    /// The number of bits (`cn_bit_count`).
    pub bits: u32,
    /// Whether its field begins at the next free bit, and not at the next whole byte.
    pub packed: bool,
    /// Whether its values are of variable length, and the bits those of an offset.
    pub variable: bool,
}

/// A little-endian number, which begins at the next free bit.
fn packed(data_type: u8, bits: u32) -> ValueType
    ensures { result ≡ packed data_type bits }
{
    ValueType {
        data_type,
        bits,
        packed: true,
        variable: false,
    }
}

/// A value that begins at the next whole byte.
fn at_byte(data_type: u8, bits: u32) -> ValueType
    ensures { result ≡ at_byte data_type bits }
{
    ValueType {
        data_type,
        bits,
        packed: false,
        variable: false,
    }
}

/// The offset of a value of variable length, which begins at the next whole byte.
fn long(data_type: u8) -> ValueType
    ensures { result ≡ long data_type }
{
    ValueType {
        data_type,
        bits: 64,
        packed: false,
        variable: true,
    }
}

/// What stands behind these letters, if the word begins with them.
fn behind<'a>(letters: &[u8], word: &'a [u8]) -> Option<&'a [u8]>
    ensures { option_map (λ rest. rest.now) result ≡ behind letters.now word.now }
{
    if word.len() < letters.len() || &word[..letters.len()] != letters {
        return None;
    }
    Some(&word[letters.len()..])
}

/// The number behind these letters, if it is 1 to so much.
#[tactic(auto, unfolding(crate::specs::Kind::count_behind))]
fn count_behind(letters: &[u8], most: u64, word: &[u8]) -> Option<u32>
    requires { most ≤ 255 }
    ensures count { result ≡ count_behind letters.now most word.now }
    ensures few { IfSome result (λ count. count ≤ most) }
{
    let digits = behind(letters, word)?;
    let count = number_of(digits)?;
    if count < 1 || count > most {
        return None;
    }
    Some(count as u32)
}

/// The type of numbers that a word names.
#[tactic(auto, unfolding(crate::specs::Kind::number_type))]
fn number_type(word: &[u8]) -> Option<ValueType>
    ensures { result ≡ number_type word.now }
{
    if let Some(bits) = count_behind(b"u", 64, word) {
        return Some(packed(0, bits));
    }
    if let Some(bits) = count_behind(b"s", 64, word) {
        return Some(packed(2, bits));
    }
    if let Some(bits) = count_behind(b"ub", 64, word) {
        return Some(at_byte(1, bits));
    }
    let bits = count_behind(b"sb", 64, word)?;
    Some(at_byte(3, bits))
}

/// The type of floats, of values of variable length or of bytes that a word names.
#[tactic(auto, unfolding(crate::specs::Kind::named_type))]
fn named_type(word: &[u8]) -> Option<ValueType>
    ensures { result ≡ named_type word.now }
{
    if word == b"f32".as_slice() {
        return Some(at_byte(4, 32));
    }
    if word == b"f64".as_slice() {
        return Some(at_byte(4, 64));
    }
    if word == b"var".as_slice() {
        return Some(long(10));
    }
    if word == b"vartext".as_slice() {
        return Some(long(7));
    }
    if let Some(count) = count_behind(b"bytes", 255, word) {
        return Some(at_byte(10, 8 * count));
    }
    let count = count_behind(b"text", 255, word)?;
    Some(at_byte(7, 8 * count))
}

/// The type that a word names.
#[tactic(auto, unfolding(crate::specs::Kind::type_of))]
pub(crate) fn type_of(word: &[u8]) -> Option<ValueType>
    ensures { result ≡ type_of word.now }
{
    match number_type(word) {
        Some(kind) => Some(kind),
        None => named_type(word),
    }
}

/// Whether its values are numbers, which a master can have.
pub(crate) fn is_number(kind: ValueType) -> bool
    ensures { result ≡ is_number kind }
{
    kind.data_type < 6 && !kind.variable
}
