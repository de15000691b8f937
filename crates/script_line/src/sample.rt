ghost use Rattle.std.specs.Prelude.{◌≡◌, All, IfOk, IfSome, drop};
ghost use Rattle.script_line.specs.Text.{words_left};
ghost use Rattle.script_line.specs.Value.{IsReadable, entries_of, first_width};
ghost use Rattle.mdf_layout.specs.Written.{AreEntriesOf};

use crate::first::first_entry;
use crate::float::Width;
use crate::text::is_end;
use mdf_layout::{Entries, FieldRow};
use mdf_num::{Memory, Rows};
use std::alloc::Global;

/// The width of the first of these channels, if it takes floats, and those of the others. A channel past the end takes none.
fn next_width(widths: &[Option<Width>]) -> (Option<Width>, &[Option<Width>])
    ensures first { result.0 ≡ first_width widths.now }
    ensures others { result.1.now ≡ drop 1 widths.now }
{
    match widths {
        [width, others @ ..] => (*width, others),
        [] => (None, widths),
    }
}

/// The entries that words are, one for each channel of these rows. A channel that has a width takes floats: its word is a number
/// in decimal, or the bytes of the float behind an `x`. The word of any other channel is that of a script; `widths` may end
/// before `rows`. None exactly if there are more or fewer words, or one is no value of its channel.
///
/// # Errors
/// `Memory`.
pub fn entries_of(
    alloc: Global,
    widths: &[Option<Width>],
    rows: &[FieldRow],
    words: Option<&[u8]>,
) -> Result<Option<Entries>, Memory>
    requires { All IsReadable rows.now }
    ensures found { IfOk result (λ found. found ≡ entries_of widths.now rows.now (words_left words.entry)) }
    // Each entry has a value of its channel.
    ensures fit { IfOk result (λ found. IfSome found (AreEntriesOf rows.now)) }
{
    let mut entries = Vec::with_capacity(alloc, rows.len())?;
    let mut left = widths;
    let mut rest = words;
    for row in rows {
        let Some(text) = rest else {
            return Ok(None);
        };
        let (width, others) = next_width(left);
        let Some(first) = first_entry(alloc, width, *row, text)? else {
            return Ok(None);
        };
        entries.push(first.entry)?;
        left = others;
        rest = first.behind;
    }
    if !is_end(rest) {
        return Ok(None);
    }
    Ok(Some(Rows::from_vec(entries)))
}
