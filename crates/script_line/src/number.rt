ghost use Rattle.std.specs.Prelude.{◌≡◌, None, MatchOption, if◌then◌else◌};
ghost use Rattle.std.specs.List.{list_all};
ghost use Rattle.std.specs.Char.{is_ascii_digit};
ghost use Rattle.script_line.specs.Number.{IsNoNumber, IsNumber, number_of, value_of};

/// The number that the bytes of a word are as decimal digits, if all are digits and it is below 2^64.
fn value_of(word: &[u8]) -> Option<u64>
    ensures { result ≡ (if list_all is_ascii_digit word.now then value_of word.now else None) }
{
    let mut value: u64 = 0;
    for byte in word {
        if !byte.is_ascii_digit() {
            return None;
        }
        value = value.checked_mul(10)?.checked_add((*byte - b'0') as u64)?;
    }
    Some(value)
}

/// The number that a word is, if it is one below 2^64: decimal, without a sign and without leading zeros.
#[tactic(auto, unfolding(crate::specs::Number::number_of))]
pub fn number_of(word: &[u8]) -> Option<u64>
    ensures number { result ≡ number_of word.now }
    // A number is written in one way.
    ensures says { MatchOption result (IsNoNumber word.now) (IsNumber word.now) }
{
    if word.is_empty() || (word.len() > 1 && word[0] == b'0') {
        return None;
    }
    value_of(word)
}
