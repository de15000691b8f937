// The first value of a sample's words.
ghost use Rattle.std.specs.Prelude.{◌≡◌, true, None, IfOk, IfSome, MatchOption};
ghost use Rattle.script_line.specs.Text.{Begins, Refuses, words_left};
ghost use Rattle.mdf_layout.specs.declared.field.FieldKind.TheVariants.{Unsigned, Signed};
ghost use Rattle.script_line.specs.Value.{IsReadable, entry_with, entry_of};

use crate::float::Width;
use crate::front::leading_number;
use crate::text::cut;
use crate::value::{entry_of, negative_in, positive_in};
use mdf_layout::{Entry, FieldKind, FieldRow, Value};
use mdf_num::{Memory, has_bits};
use std::alloc::Global;

/// The entry that the first word of a text is, and what stands behind the blank after it, if there is one.
#[derive(Drop)]
pub(crate) struct FirstEntry<'a> {
    pub entry: Entry,
    pub behind: Option<&'a [u8]>,
}

/// An entry that is valid.
fn valid_entry(value: Value, behind: Option<&[u8]>) -> FirstEntry<'_>
    ensures entry { result.entry ≡ entry_with true value }
    ensures behind { words_left result.behind ≡ words_left behind.entry }
{
    FirstEntry {
        entry: Entry { value, valid: true },
        behind,
    }
}

/// The entry of a channel of unsigned numbers, if the word is one of at most 19 digits.
fn unsigned_entry<'a>(row: FieldRow, text: &'a [u8]) -> Option<FirstEntry<'a>>
    requires { row.kind ≡ Unsigned }
    ensures { IfSome result (λ first. Begins (entry_of None row) text.now first.entry (words_left first.behind)) }
{
    let found = leading_number(text)?;
    if !has_bits(found.number, row.bits) {
        return None;
    }
    Some(valid_entry(Value::Unsigned(found.number), found.behind))
}

/// The entry of a channel of signed numbers, if the word is one of at most 19 digits without a `-`.
fn positive_entry<'a>(row: FieldRow, text: &'a [u8]) -> Option<FirstEntry<'a>>
    requires kind { row.kind ≡ Signed }
    requires row { IsReadable row }
    ensures { IfSome result (λ first. Begins (entry_of None row) text.now first.entry (words_left first.behind)) }
{
    let found = leading_number(text)?;
    let value = positive_in(row.bits, found.number)?;
    Some(valid_entry(value, found.behind))
}

/// The entry of a channel of signed numbers, if the word is a `-` and a number of at most 19 digits.
fn negative_entry<'a>(row: FieldRow, text: &'a [u8]) -> Option<FirstEntry<'a>>
    requires kind { row.kind ≡ Signed }
    requires row { IsReadable row }
    ensures { IfSome result (λ first. Begins (entry_of None row) text.now first.entry (words_left first.behind)) }
{
    if text.is_empty() || text[0] != b'-' {
        return None;
    }
    let found = leading_number(&text[1..])?;
    let value = negative_in(row.bits, found.number)?;
    Some(valid_entry(value, found.behind))
}

/// The entry of a channel of numbers, if the word is one of at most 19 digits that it can have.
fn number_entry<'a>(row: FieldRow, text: &'a [u8]) -> Option<FirstEntry<'a>>
    requires { IsReadable row }
    ensures { IfSome result (λ first. Begins (entry_of None row) text.now first.entry (words_left first.behind)) }
{
    match row.kind {
        FieldKind::Unsigned => unsigned_entry(row, text),
        FieldKind::Signed => match negative_entry(row, text) {
            Some(first) => Some(first),
            None => positive_entry(row, text),
        },
        _ => None,
    }
}

/// The entry of any channel.
fn any_entry<'a>(
    alloc: Global,
    width: Option<Width>,
    row: FieldRow,
    text: &'a [u8],
) -> Result<Option<FirstEntry<'a>>, Memory>
    requires { IsReadable row }
    ensures { IfOk result (λ found. MatchOption found (Refuses (entry_of width row) text.now) (λ first. Begins (entry_of width row) text.now first.entry (words_left first.behind))) }
{
    let (word, behind) = cut(text, b' ');
    match entry_of(alloc, width, row, word)? {
        Some(entry) => Ok(Some(FirstEntry { entry, behind })),
        None => Ok(None),
    }
}

/// The entry of a channel that takes no decimals.
fn plain_entry<'a>(
    alloc: Global,
    row: FieldRow,
    text: &'a [u8],
) -> Result<Option<FirstEntry<'a>>, Memory>
    requires { IsReadable row }
    ensures { IfOk result (λ found. MatchOption found (Refuses (entry_of None row) text.now) (λ first. Begins (entry_of None row) text.now first.entry (words_left first.behind))) }
{
    match number_entry(row, text) {
        Some(first) => Ok(Some(first)),
        None => any_entry(alloc, None, row, text),
    }
}

/// The entry that the first word of a text is for a channel, and what stands behind the word. The channel takes floats if it has a
/// width.
pub(crate) fn first_entry<'a>(
    alloc: Global,
    width: Option<Width>,
    row: FieldRow,
    text: &'a [u8],
) -> Result<Option<FirstEntry<'a>>, Memory>
    requires { IsReadable row }
    ensures { IfOk result (λ found. MatchOption found (Refuses (entry_of width row) text.now) (λ first. Begins (entry_of width row) text.now first.entry (words_left first.behind))) }
{
    match width {
        None => plain_entry(alloc, row, text),
        Some(_) => any_entry(alloc, width, row, text),
    }
}
