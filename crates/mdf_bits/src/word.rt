// Bytes of either order as a word, and a word with some of its bits replaced.
ghost use Rattle.std.specs.Prelude.{◌≡◌, ℕ, ◌+◌, ◌-◌, ◌*◌, ◌^◌, ◌≤◌, ◌<◌, length, if◌then◌else◌};
ghost use Rattle.std.specs.Int.{bit_at};
ghost use Rattle.mdf_format.specs.Field.{bit_of, lowest_first};

use byteorder::{ByteOrder, LittleEndian};
use mdf_num::number_of;

/// Where byte `i` of `len` bytes stands, counted from the lowest one.
fn byte_place(len: usize, big: bool, i: usize) -> usize
    requires { i < len }
    ensures { result ≡ (if big then len - 1 - i else i) }
{
    if big { len - 1 - i } else { i }
}

/// The number that the bytes are, read one after another.
#[inline(never)]
fn word_of_each_byte(bytes: &[u8], big: bool) -> u128
    requires { length bytes.now ≤ 16 }
    ensures bits { (k : ℕ) → bit_at result k ≡ bit_of (lowest_first big bytes.now) k }
    ensures fits { result < 2 ^ (8 * length bytes.now) }
{
    let mut word = 0;
    for i in (0..bytes.len()).rev() {
        word = (word << 8) | bytes[byte_place(bytes.len(), big, i)] as u128;
    }
    word
}

/// The number that the bytes are. Up to eight bytes with the lowest first are read at once.
#[inline]
pub(crate) fn word_of(bytes: &[u8], big: bool) -> u128
    requires { length bytes.now ≤ 16 }
    ensures bits { (k : ℕ) → bit_at result k ≡ bit_of (lowest_first big bytes.now) k }
    ensures fits { result < 2 ^ (8 * length bytes.now) }
{
    if 0 < bytes.len() && bytes.len() <= 8 && !big {
        return number_of(bytes) as u128;
    }
    word_of_each_byte(bytes, big)
}

/// Writes the number into all of the bytes, one after another.
#[inline(never)]
fn put_each_byte(bytes: &mut [u8], big: bool, word: u128)
    requires { word < 2 ^ (8 * length bytes.old) }
    ensures bits { (k : ℕ) → bit_of (lowest_first big bytes.new) k ≡ bit_at word k }
    ensures len { length bytes.new ≡ length bytes.old }
{
    let mut rest = word;
    for i in 0..bytes.len() {
        let place = byte_place(bytes.len(), big, i);
        bytes[place] = (rest & 0xff) as u8;
        rest >>= 8;
    }
}

/// Writes the number into all of the bytes. One, two, four and eight bytes with the lowest first are written at once.
#[inline]
fn put_word(bytes: &mut [u8], big: bool, word: u128)
    requires { word < 2 ^ (8 * length bytes.old) }
    ensures bits { (k : ℕ) → bit_of (lowest_first big bytes.new) k ≡ bit_at word k }
    ensures len { length bytes.new ≡ length bytes.old }
{
    if big {
        put_each_byte(bytes, big, word);
        return;
    }
    match bytes.len() {
        1 => bytes[0] = word as u8,
        2 => LittleEndian::write_u16(bytes, word as u16),
        4 => LittleEndian::write_u32(bytes, word as u32),
        8 => LittleEndian::write_u64(bytes, word as u64),
        _ => put_each_byte(bytes, big, word),
    }
}

/// The `bits` bits of the word from `bit` on, as a number.
pub(crate) fn bits_from(word: u128, bit: u8, bits: u8) -> u64
    requires in_byte { bit ≤ 7 }
    requires in_word { bits ≤ 64 }
    ensures bits { (k : ℕ) → k < bits → bit_at result k ≡ bit_at word (bit + k) }
    ensures fits { result < 2 ^ bits }
{
    let mask = (1 << bits) - 1;
    ((word >> bit) & mask) as u64
}

/// The word with the `bits` bits from `bit` on replaced by those of `value`.
fn with_bits(word: u128, bit: u8, bits: u8, value: u64) -> u128
    requires in_byte { bit ≤ 7 }
    requires in_word { bits ≤ 64 }
    requires fits { value < 2 ^ bits }
    ensures inside { (k : ℕ) → k < bits → bit_at result (bit + k) ≡ bit_at value k }
    ensures below { (k : ℕ) → k < bit → bit_at result k ≡ bit_at word k }
    ensures above { (k : ℕ) → bit + bits ≤ k → bit_at result k ≡ bit_at word k }
    ensures fits { (n : ℕ) → bit + bits ≤ n → word < 2 ^ n → result < 2 ^ n }
{
    let mask = ((1u128 << bits) - 1) << bit;
    (word & !mask) | ((value as u128) << bit)
}

/// The same of a word of eight bytes.
fn with_bits_in_eight(word: u64, bit: u8, bits: u8, value: u64) -> u64
    requires in_byte { bit ≤ 7 }
    requires within { bit + bits ≤ 64 }
    requires few { bits < 64 }
    requires fits { value < 2 ^ bits }
    ensures inside { (k : ℕ) → k < bits → bit_at result (bit + k) ≡ bit_at value k }
    ensures below { (k : ℕ) → k < bit → bit_at result k ≡ bit_at word k }
    ensures above { (k : ℕ) → bit + bits ≤ k → bit_at result k ≡ bit_at word k }
    ensures fits { (n : ℕ) → bit + bits ≤ n → word < 2 ^ n → result < 2 ^ n }
{
    let mask = ((1u64 << bits) - 1) << bit;
    (word & !mask) | (value << bit)
}

/// Replaces the `bits` bits of the bytes from `bit` on by those of `value`. The other bits stay.
#[inline(never)]
fn put_among(bytes: &mut [u8], big: bool, bit: u8, bits: u8, value: u64)
    requires in_byte { bit ≤ 7 }
    requires in_word { bits ≤ 64 }
    requires some { bits < 8 * length bytes.old }
    requires few { length bytes.old ≤ 16 }
    requires within { bit + bits ≤ 8 * length bytes.old }
    requires fits { value < 2 ^ bits }
    ensures inside { (k : ℕ) → k < bits → bit_of (lowest_first big bytes.new) (bit + k) ≡ bit_at value k }
    ensures below { (k : ℕ) → k < bit → bit_of (lowest_first big bytes.new) k ≡ bit_of (lowest_first big bytes.old) k }
    ensures above { (k : ℕ) → bit + bits ≤ k → bit_of (lowest_first big bytes.new) k ≡ bit_of (lowest_first big bytes.old) k }
    ensures len { length bytes.new ≡ length bytes.old }
{
    let word = word_of(bytes, big);
    if bytes.len() <= 8 {
        let short = with_bits_in_eight(word as u64, bit, bits, value);
        put_word(bytes, big, short as u128);
        return;
    }
    let long = with_bits(word, bit, bits, value);
    put_word(bytes, big, long);
}

/// The same. Where these are all the bits, no byte is read.
#[inline]
pub(crate) fn put_bits(bytes: &mut [u8], big: bool, bit: u8, bits: u8, value: u64)
    requires in_byte { bit ≤ 7 }
    requires in_word { bits ≤ 64 }
    requires few { length bytes.old ≤ 16 }
    requires within { bit + bits ≤ 8 * length bytes.old }
    requires fits { value < 2 ^ bits }
    ensures inside { (k : ℕ) → k < bits → bit_of (lowest_first big bytes.new) (bit + k) ≡ bit_at value k }
    ensures below { (k : ℕ) → k < bit → bit_of (lowest_first big bytes.new) k ≡ bit_of (lowest_first big bytes.old) k }
    ensures above { (k : ℕ) → bit + bits ≤ k → bit_of (lowest_first big bytes.new) k ≡ bit_of (lowest_first big bytes.old) k }
    ensures len { length bytes.new ≡ length bytes.old }
{
    if bits as usize == 8 * bytes.len() {
        put_word(bytes, big, value as u128);
        return;
    }
    put_among(bytes, big, bit, bits, value);
}
