ghost use Rattle.std.specs.Prelude.{◌≡◌, ◌<◌, ◌≤◌};
ghost use Rattle.std.specs.Float.{binary32, binary64};
ghost use Rattle.script_line.specs.Float.{bits_in, decimal_bits, float_bits, paired};

use crate::text::{begins_with, has_capital};
use hex::FromHex;
use mdf_num::number_of;

/// How wide a float is.
#[derive(Clone, Copy, Debug)]
pub enum Width {
    /// 32 bits.
    Single,
    /// 64 bits.
    Double,
}

/// The bits of the float of 32 bits that is nearest to the number that a word writes in decimal.
fn single_bits(word: &[u8]) -> Option<u32>
    ensures { result ≡ bits_in binary32 word.now }
{
    let Ok(single) = fast_float::parse::<f32, _>(word) else {
        return None;
    };
    if !single.is_finite() {
        return None;
    }
    Some(single.to_bits())
}

/// The bits of the float of 64 bits that is nearest to the number that a word writes in decimal.
fn double_bits(word: &[u8]) -> Option<u64>
    ensures { result ≡ bits_in binary64 word.now }
{
    let Ok(double) = fast_float::parse::<f64, _>(word) else {
        return None;
    };
    if !double.is_finite() {
        return None;
    }
    Some(double.to_bits())
}

/// The bits of the float that is nearest to the number that a word writes in decimal, if the word writes one and the float is
/// finite.
fn decimal_bits(width: Width, word: &[u8]) -> Option<u64>
    ensures { result ≡ decimal_bits width word.now }
{
    match width {
        Width::Single => Some(u64::from(single_bits(word)?)),
        Width::Double => double_bits(word),
    }
}

/// The number that these pairs of hexadecimal digits are, whose letters are small, the lowest byte first, if there are so many.
fn paired<const N: usize>(digits: &[u8]) -> Option<u64>
    requires some { 0 < N }
    requires most { N ≤ 8 }
    ensures { result ≡ paired N digits.now }
{
    if has_capital(digits) {
        return None;
    }
    match <[u8; N] as FromHex>::from_hex(digits) {
        Ok(bytes) => Some(number_of(&bytes)),
        Err(_) => None,
    }
}

/// The bits of the float of this width that a word says. Its bytes stand behind an `x`, the lowest first, each as two hexadecimal
/// digits. Any other word is a number in decimal, and the float is the one nearest to it. None exactly if the word is neither,
/// or if the nearest float is not finite, as of `nan`, `inf` and a number that is too large. It takes no memory.
pub fn float_bits(width: Width, word: &[u8]) -> Option<u64>
    ensures { result ≡ float_bits width word.now }
{
    if !begins_with(b'x', word) {
        return decimal_bits(width, word);
    }
    match width {
        Width::Single => paired::<4>(&word[1..]),
        Width::Double => paired::<8>(&word[1..]),
    }
}
