ghost use Rattle.std.specs.Prelude.{◌≡◌, ◌∷◌, ◌≤◌, ℕ, length};
ghost use Rattle.std.specs.List.{list_all, list_any};
ghost use Rattle.std.specs.Char.{is_ascii_graphic, is_ascii_uppercase};
ghost use Rattle.script_line.specs.Text.{parts_of, parts_left, begins_with, bytes_left, is_end, is_marked, is_name};

use memchr::memchr;

/// The bytes before the first separator, and those behind it, if there is one. They are cut by LF into the lines of a
/// script, and a line by blanks into its words. It takes no memory.
pub fn cut(text: &[u8], separator: u8) -> (&[u8], Option<&[u8]>)
    // The part before the separator, and then the parts of what is behind it, are all parts.
    ensures parts { parts_of separator text.now ≡ result.0.now ∷ parts_left separator result.1 }
    ensures shorter { bytes_left result.1 ≤ length text.now }
{
    match memchr(separator, text) {
        Some(i) => (&text[..i], Some(&text[i + 1..])),
        None => (text, None),
    }
}

/// Whether no part is left.
#[tactic(auto, using(crate::proofs::Parts::some_part))]
pub(crate) fn is_end(rest: Option<&[u8]>) -> bool
    ensures { (separator : ℕ) → result ≡ is_end (parts_left separator rest.entry) }
{
    rest.is_none()
}

/// Whether no byte is a blank, a control byte or one past 0x7E.
fn are_graphic(word: &[u8]) -> bool
    ensures { result ≡ list_all is_ascii_graphic word.now }
{
    word.iter().all(|byte| byte.is_ascii_graphic())
}

/// Whether a word can be a name.
pub(crate) fn is_name(word: &[u8]) -> bool
    ensures { result ≡ is_name word.now }
{
    !word.is_empty() && word.len() <= 64 && are_graphic(word)
}

/// Whether the word begins with this byte.
pub(crate) fn begins_with(byte: u8, word: &[u8]) -> bool
    ensures { result ≡ begins_with byte word.now }
{
    !word.is_empty() && word[0] == byte
}

/// Whether the word ends with `?`.
pub(crate) fn is_marked(word: &[u8]) -> bool
    ensures { result ≡ is_marked word.now }
{
    !word.is_empty() && word[word.len() - 1] == b'?'
}

/// Whether one of the bytes is a capital letter.
pub(crate) fn has_capital(word: &[u8]) -> bool
    ensures { result ≡ list_any is_ascii_uppercase word.now }
{
    word.iter().any(|byte| byte.is_ascii_uppercase())
}
