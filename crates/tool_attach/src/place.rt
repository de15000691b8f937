ghost use Rattle.std.specs.Prelude.{◌≡◌, ◌^◌, ◌≤◌, [], ◌∷◌, ◌++◌, length, IfOk, OnOk};
ghost use Rattle.mdf_tree.specs.Group.{next_if};
ghost use Rattle.tool_attach.specs.Attached.{attachment_body, attachment_links, attachment_own, attachment_blocks, attachments_blocks, past_attachment};

use mdf_attach::Attachment;
use mdf_block::{Draft, Kind, Link};
use mdf_num::{Bytes, Memory};
use mdf_tree::{joined, next_if, next_number, note_count, note_link, place_notes};
use std::alloc::Global;

/// The body of an attachment (ATBLOCK): its fields, and a copy of the embedded data.
fn attachment_body(alloc: Global, row: &Attachment) -> Result<Bytes, Memory>
    ensures { IfOk result (λ body. body ≡ attachment_body row.now) }
{
    let content = row.content.as_slice();
    let size = content.len() as u64;
    joined(
        alloc,
        &[
            &row.flags.to_le_bytes(),
            &row.creator.to_le_bytes(),
            &[0; 4],
            &row.md5,
            &row.original.to_le_bytes(),
            &size.to_le_bytes(),
            content,
        ],
    )
}

/// The links of the attachment at block n. Where one more follows it is linked.
fn attachment_links(
    alloc: Global,
    n: u32,
    row: &Attachment,
    more: bool,
) -> Result<Vec<Link>, Memory>
    requires { n ≤ 2 ^ 30 }
    ensures { IfOk result (λ links. links.items ≡ attachment_links n (next_if more (past_attachment n row.now)) row.now) }
{
    let name = n + 1;
    let mime = name + note_count(&row.name);
    let comment = mime + note_count(&row.mime);
    let past = comment + note_count(&row.comment);
    let links = vec![in alloc;
        next_if(more, past),
        note_link(name, &row.name),
        note_link(mime, &row.mime),
        note_link(comment, &row.comment),
    ]?;
    Ok(links)
}

/// Places the block of an attachment alone, with its links to texts that come behind it.
fn place_own(alloc: Global, draft: &mut Draft, row: &Attachment, more: bool) -> Result<(), Memory>
    ensures { OnOk result (draft.new ≡ draft.old ++ attachment_own (length draft.old) (next_if more (past_attachment (length draft.old) row.now)) row.now ∷ []) }
{
    let links = attachment_links(alloc, next_number(draft)?, row, more)?;
    let body = attachment_body(alloc, row)?;
    draft.place_linked(Kind::At, links, body)
}

/// Places an attachment: AT, and then its name, MIME type and comment. Where one more follows it is linked.
#[tactic(auto, unfolding(crate::specs::Attached::attachment_blocks))]
fn place_attachment(
    alloc: Global,
    draft: &mut Draft,
    row: &Attachment,
    more: bool,
) -> Result<(), Memory>
    ensures { OnOk result (draft.new ≡ draft.old ++ attachment_blocks (length draft.old) (next_if more (past_attachment (length draft.old) row.now)) row.now) }
{
    place_own(alloc, draft, row, more)?;
    place_notes(alloc, draft, &row.name, &row.mime, &row.comment)
}

/// Places attachments one behind the other, each linked to the next one.
pub(crate) fn place_attachments(
    alloc: Global,
    draft: &mut Draft,
    rows: &[Attachment],
) -> Result<(), Memory>
    ensures { OnOk result (draft.new ≡ draft.old ++ attachments_blocks (length draft.old) rows.now) }
{
    for (i, row) in rows.iter().enumerate() {
        place_attachment(alloc, draft, row, i + 1 < rows.len())?;
    }
    Ok(())
}
