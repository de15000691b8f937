ghost use Rattle.std.specs.Prelude.{◌≡◌, ◌≤◌, ◌++◌, length, IfOk, OnOk, OnErr};
ghost use Rattle.mdf_tree.specs.Text.{text_body, note_blocks, note_link};

use crate::number::joined;
use mdf_block::{Draft, Kind, Link, Note};
use mdf_num::{Bytes, Memory};
use std::alloc::Global;

/// The body of a text: the text, a zero byte, and zero bytes up to a multiple of 8.
fn text_body(alloc: Global, text: &[u8]) -> Result<Bytes, Memory>
    ensures { IfOk result (λ body. body ≡ text_body text.now) }
{
    let zeros = [0u8; 8];
    let fill = 8 - text.len() % 8;
    joined(alloc, &[text, &zeros[..fill]])
}

/// Places the block of a text, if there is one: a TXBLOCK, or an MDBLOCK for XML.
///
/// # Errors
/// `Memory` where memory runs out; then no block was placed.
#[tactic(auto, unfolding(crate::specs::Text::note_blocks))]
pub fn place_note(alloc: Global, draft: &mut Draft, note: &Note) -> Result<(), Memory>
    ensures ok { OnOk result (draft.new ≡ draft.old ++ note_blocks note.now) }
    ensures err { OnErr result (draft.new ≡ draft.old) }
{
    match note {
        Note::Nothing => Ok(()),
        Note::Plain(bytes) => {
            let body = text_body(alloc, bytes.as_slice())?;
            draft.place_linked(Kind::Tx, Vec::new(alloc), body)
        }
        Note::Xml(bytes) => {
            let body = text_body(alloc, bytes.as_slice())?;
            draft.place_linked(Kind::Md, Vec::new(alloc), body)
        }
    }
}

/// Places the blocks of three texts, one behind the other.
///
/// # Errors
/// `Memory` where memory runs out; some of the blocks may be placed then.
pub fn place_notes(
    alloc: Global,
    draft: &mut Draft,
    first: &Note,
    second: &Note,
    third: &Note,
) -> Result<(), Memory>
    ensures { OnOk result (draft.new ≡ draft.old ++ (note_blocks first.now ++ (note_blocks second.now ++ note_blocks third.now))) }
{
    place_note(alloc, draft, first)?;
    place_note(alloc, draft, second)?;
    place_note(alloc, draft, third)
}

/// How many blocks a text has.
#[tactic(auto, unfolding(crate::specs::Text::note_blocks))]
pub fn note_count(note: &Note) -> u32
    ensures count { result ≡ length (note_blocks note.now) }
    ensures few { result ≤ 1 }
{
    match note {
        Note::Nothing => 0,
        Note::Plain(_) | Note::Xml(_) => 1,
    }
}

/// The link to a text, where its block is block n.
#[tactic(auto, unfolding(crate::specs::Text::note_link))]
pub fn note_link(n: u32, note: &Note) -> Link
    ensures { result ≡ note_link n note.now }
{
    match note {
        Note::Nothing => Link::Nothing,
        Note::Plain(_) | Note::Xml(_) => Link::Block(n),
    }
}
