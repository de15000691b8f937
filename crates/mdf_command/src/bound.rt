// The ends of a range of numbers among the command words.
ghost use Rattle.std.specs.Prelude.{◌∷◌, MatchOption};
ghost use Rattle.mdf_command.specs.Words.{SaysBound, SaysNoBound};

use script_line::number_of;

/// The negative number from -2^63 on that the digits behind a `-` say, if any.
fn negative_of(digits: &[u8]) -> Option<i128>
    ensures { MatchOption result (SaysNoBound (45 ∷ digits.now)) (SaysBound (45 ∷ digits.now)) }
{
    let Some(number) = number_of(digits) else {
        return None;
    };
    if number < 1 {
        return None;
    }
    if number > 0x8000_0000_0000_0000 {
        return None;
    }
    Some(-i128::from(number))
}

/// The number from -2^63 to 2^64 - 1 that a word says, if any: in decimal, with a `-` before a negative one alone and
/// without leading zeros.
pub(crate) fn bound_of(word: &[u8]) -> Option<i128>
    ensures { MatchOption result (SaysNoBound word.now) (SaysBound word.now) }
{
    match word {
        [b'-', digits @ ..] => negative_of(digits),
        _ => Some(i128::from(number_of(word)?)),
    }
}
