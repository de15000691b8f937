ghost use Rattle.std.specs.Prelude.{◌≡◌, ◌⊎◌, [], ◌∷◌, ◌++◌, length, IfOk, OnOk, OnErr};
ghost use Rattle.mdf_tree.specs.Text.{note_blocks};
ghost use Rattle.mdf_tree.specs.Group.{next_if};
ghost use Rattle.mdf_tree.specs.Head.{entry_body, entry_block, past_entry, head_body, header_block};

use crate::number::{joined, next_number};
use crate::text::{note_count, note_link, place_note};
use crate::value::next_if;
use mdf_block::{Draft, Kind, Link};
use mdf_head::{Head, History};
use mdf_num::{Bytes, Memory};
use std::alloc::Global;

/// The body of an entry of the history (FHBLOCK).
fn entry_body(alloc: Global, entry: &History) -> Result<Bytes, Memory>
    ensures { IfOk result (λ body. body ≡ entry_body entry.now) }
{
    joined(
        alloc,
        &[
            &entry.time.to_le_bytes(),
            &entry.zone.to_le_bytes(),
            &entry.daylight.to_le_bytes(),
            &[entry.flags, 0, 0, 0],
        ],
    )
}

/// Places the block of an entry of the history alone, with its links to the next one and to its comment behind it.
fn place_own(alloc: Global, draft: &mut Draft, entry: &History, more: bool) -> Result<(), Memory>
    ensures ok { OnOk result (draft.new ≡ draft.old ++ entry_block (length draft.old) (next_if more (past_entry (length draft.old) entry.now)) entry.now ∷ []) }
    ensures err { OnErr result (draft.new ≡ draft.old) }
{
    let n = next_number(draft)?;
    let past = n + 1 + note_count(&entry.comment);
    let links = vec![in alloc; next_if(more, past), note_link(n + 1, &entry.comment)]?;
    let body = entry_body(alloc, entry)?;
    draft.place_linked(Kind::Fh, links, body)
}

/// Places an entry of the history: FH, and then its comment. Where one more follows it is linked.
///
/// # Errors
/// `Memory` where memory runs out; then no block was placed, or FH alone.
pub fn place_entry(
    alloc: Global,
    draft: &mut Draft,
    entry: &History,
    more: bool,
) -> Result<(), Memory>
    ensures ok { OnOk result (draft.new ≡ draft.old ++ (entry_block (length draft.old) (next_if more (past_entry (length draft.old) entry.now)) entry.now ∷ note_blocks entry.now.comment)) }
    ensures err { OnErr result ((draft.new ≡ draft.old)
        ⊎ (draft.new ≡ draft.old ++ entry_block (length draft.old) (next_if more (past_entry (length draft.old) entry.now)) entry.now ∷ [])) }
{
    place_own(alloc, draft, entry, more)?;
    place_note(alloc, draft, &entry.comment)
}

/// The body of a header (HDBLOCK).
fn head_body(alloc: Global, head: &Head) -> Result<Bytes, Memory>
    ensures { IfOk result (λ body. body ≡ head_body head.now) }
{
    joined(
        alloc,
        &[
            &head.start.to_le_bytes(),
            &head.zone.to_le_bytes(),
            &head.daylight.to_le_bytes(),
            &[head.time_flags, head.time_class, head.flags, 0],
            &head.angle.to_le_bytes(),
            &head.distance.to_le_bytes(),
        ],
    )
}

/// Places a header alone, with its links to its comment, to the history and to the data groups.
///
/// # Errors
/// `Memory` where memory runs out; then no block was placed.
pub fn place_header(
    alloc: Global,
    draft: &mut Draft,
    head: &Head,
    comment: u32,
    entries: Link,
    groups: Link,
) -> Result<(), Memory>
    ensures ok { OnOk result (draft.new ≡ draft.old ++ header_block comment entries groups head.now ∷ []) }
    ensures err { OnErr result (draft.new ≡ draft.old) }
{
    let links = vec![in alloc;
        groups,
        entries,
        Link::Nothing,
        Link::Nothing,
        Link::Nothing,
        note_link(comment, &head.comment),
    ]?;
    let body = head_body(alloc, head)?;
    draft.place_linked(Kind::Hd, links, body)
}
