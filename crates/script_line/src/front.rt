// The number in front of a text, whose digits are looked at once.
ghost use Rattle.std.specs.Prelude.{◌≡◌, ◌≤◌, length, take, true, IfSome};
ghost use Rattle.std.specs.List.{list_all};
ghost use Rattle.std.specs.Char.{is_ascii_digit};
ghost use Rattle.std.specs.Str.Parse.{digits_value};
ghost use Rattle.script_line.specs.Text.{Begins, words_left};
ghost use Rattle.script_line.specs.Number.{number_of};

/// The most digits that are looked at: numbers of so many are below 2^64.
const MOST_DIGITS: usize = 19;

/// Digits in front of a text: what number they are, and how many.
#[derive(Clone, Copy)]
struct Digits {
    value: u64,
    count: usize,
}

/// A number in front of a text, and what stands behind the blank after it, if there is one.
#[derive(Clone, Copy)]
pub(crate) struct Leading<'a> {
    pub number: u64,
    pub behind: Option<&'a [u8]>,
}

/// The digits in front of a text, up to the 19th.
fn digits_in(text: &[u8]) -> Digits
    ensures within { result.count ≤ length text.now }
    ensures digits { list_all is_ascii_digit (take result.count text.now) ≡ true }
    ensures value { result.value ≡ digits_value 10 (take result.count text.now) }
{
    let most = text.len().min(MOST_DIGITS);
    let mut value = 0;
    for i in 0..most {
        if !text[i].is_ascii_digit() {
            return Digits { value, count: i };
        }
        value = 10 * value + (text[i] - b'0') as u64;
    }
    Digits { value, count: most }
}

/// The number that the first word of a text is, if it is one of at most 19 digits.
pub(crate) fn leading_number(text: &[u8]) -> Option<Leading<'_>>
    ensures { IfSome result (λ found. Begins number_of text.now found.number (words_left found.behind)) }
{
    let Digits { value, count } = digits_in(text);
    if count == 0 || (count > 1 && text[0] == b'0') {
        return None;
    }
    if count == text.len() {
        return Some(Leading {
            number: value,
            behind: None,
        });
    }
    if text[count] != b' ' {
        return None;
    }
    Some(Leading {
        number: value,
        behind: Some(&text[count + 1..]),
    })
}
