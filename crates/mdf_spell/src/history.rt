ghost use Rattle.std.specs.Prelude.{◌≡◌, [], ◌∷◌, ◌++◌, length, IfOk, OnOk};
ghost use Rattle.mdf_tree.specs.Group.{next_if};
ghost use Rattle.mdf_tree.specs.Head.{past_entry, past_history, history_blocks, head_blocks, head_groups, entry_text, new_entry};
ghost use Rattle.mdf_spell.specs.Titled.{titled_head};

use mdf_block::{Draft, Link, Note};
use mdf_head::{Head, History};
use mdf_num::{Bytes, Memory};
use mdf_tree::{next_if, note_count, place_entry, place_header, place_note, plus};
use std::alloc::Global;

/// What stands before the title in the comment of an entry of the history.
const BEFORE: &[u8; 15] = b"<FHcomment><TX>";

/// What stands behind it.
const BEHIND: &[u8; 104] =
    b"</TX><tool_id>mdf4rec</tool_id><tool_vendor>none</tool_vendor><tool_version>1</tool_version></FHcomment>";

/// The XML text of an entry of the history that this program adds: what was done, and by which tool.
fn entry_text(alloc: Global, title: &str) -> Result<Bytes, Memory>
    ensures { IfOk result (λ text. text ≡ entry_text title.now) }
{
    let mut text = Bytes::from_slice(alloc, BEFORE)?;
    text.push_slice(title.as_bytes())?;
    text.push_slice(BEHIND)?;
    Ok(text)
}

/// An entry of the history that says what was done, at a time in ns since 1970, in UTC.
pub(crate) fn new_entry(alloc: Global, title: &str, now_ns: u64) -> Result<History, Memory>
    ensures { IfOk result (λ entry. entry ≡ new_entry title.now now_ns) }
{
    let text = entry_text(alloc, title)?;
    Ok(History {
        at: 0,
        time: now_ns,
        zone: 0,
        daylight: 0,
        flags: 0,
        comment: Note::Xml(text),
    })
}

/// The block behind an entry of the history at block n.
fn past_entry(n: u32, entry: &History) -> Result<u32, Memory>
    ensures { IfOk result (λ past. past ≡ past_entry n entry.now) }
{
    plus(plus(n, 1)?, note_count(&entry.comment))
}

/// The block behind the entries of a history from block n on.
#[tactic(auto, unfolding(mdf_tree::specs::Head::past_history))]
fn past_entries(n: u32, entries: &[History]) -> Result<u32, Memory>
    ensures { IfOk result (λ past. past ≡ past_history n entries.now) }
{
    let mut at = n;
    for entry in entries {
        at = past_entry(at, entry)?;
    }
    Ok(at)
}

/// Places entries of the history, each linked to the next one, and behind them a last one.
fn place_history(
    alloc: Global,
    draft: &mut Draft,
    entries: &[History],
    last: &History,
) -> Result<(), Memory>
    ensures { OnOk result (draft.new ≡ draft.old ++ history_blocks (length draft.old) (entries.now ++ last.now ∷ [])) }
{
    for entry in entries {
        place_entry(alloc, draft, entry, true)?;
    }
    place_entry(alloc, draft, last, false)
}

/// The block behind a history that begins at block 1 and has a last entry more.
fn past_all(history: &[History], last: &History) -> Result<u32, Memory>
    ensures { IfOk result (λ past. past ≡ past_history 1 (history.now ++ last.now ∷ [])) }
{
    past_entry(past_entries(1, history)?, last)
}

/// Places the header, the history and a last entry, and the comment of the header. With `more`, the header links to the block
/// behind all of these.
fn place_all(
    alloc: Global,
    draft: &mut Draft,
    head: &Head,
    history: &[History],
    last: &History,
    more: bool,
) -> Result<(), Memory>
    requires { draft.old ≡ [] }
    ensures { OnOk result (draft.new ≡ head_blocks head.now (history.now ++ last.now ∷ []) (next_if more (head_groups head.now (history.now ++ last.now ∷ [])))) }
{
    let comment = past_all(history, last)?;
    let groups = plus(comment, note_count(&head.comment))?;
    place_header(
        alloc,
        draft,
        head,
        comment,
        Link::Block(1),
        next_if(more, groups),
    )?;
    place_history(alloc, draft, history, last)?;
    place_note(alloc, draft, &head.comment)
}

/// Places what a file begins with: its header (HDBLOCK), its history (FHBLOCKs) with one entry more, which says what was done
/// at `now_ns` (ns since 1970), and the comment of the header. With `more`, the header links to the block behind all of these
/// as its first data group.
///
/// # Errors
/// `Memory` where memory runs out, or where there are more than 2^30 blocks; some of the blocks may be placed then.
pub fn place_head(
    alloc: Global,
    draft: &mut Draft,
    head: &Head,
    history: &[History],
    title: &str,
    now_ns: u64,
    more: bool,
) -> Result<(), Memory>
    requires { draft.old ≡ [] }
    ensures { OnOk result (draft.new ≡ titled_head head.now history.now title.now now_ns more) }
{
    let last = new_entry(alloc, title, now_ns)?;
    place_all(alloc, draft, head, history, &last, more)
}
