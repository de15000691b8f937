ghost use Rattle.std.specs.Prelude.{ℕ, ◌≡◌, ◌^◌, ◌≤◌, [], ◌∷◌, ◌++◌, length, IfOk, OnOk};
ghost use Rattle.mdf_tree.specs.Conv.{source_body, source_head_links, source_own, source_blocks};
ghost use Rattle.mdf_tree.specs.Group.{source_part, source_link};

use crate::number::next_number;
use crate::text::{note_count, note_link, place_notes};
use mdf_block::{Draft, Kind, Link};
use mdf_conv::SourceInfo;
use mdf_num::{Bytes, Memory};
use std::alloc::Global;

/// The body of a source (SIBLOCK).
fn source_body(alloc: Global, source: &SourceInfo) -> Result<Bytes, Memory>
    ensures { IfOk result (λ body. body ≡ source_body source.now) }
{
    Bytes::from_slice(
        alloc,
        &[source.kind, source.bus, source.flags, 0, 0, 0, 0, 0],
    )
}

/// The links of the source at block n.
fn source_links(alloc: Global, n: u32, source: &SourceInfo) -> Result<Vec<Link>, Memory>
    requires { n ≤ 2 ^ 30 }
    ensures { IfOk result (λ links. links.items ≡ source_head_links n source.now) }
{
    let name = n + 1;
    let path = name + note_count(&source.name);
    let comment = path + note_count(&source.path);
    let links = vec![in alloc;
        note_link(name, &source.name),
        note_link(path, &source.path),
        note_link(comment, &source.comment),
    ]?;
    Ok(links)
}

/// Places the block of a source alone, with its links to texts that come behind it.
fn place_own(alloc: Global, draft: &mut Draft, source: &SourceInfo) -> Result<(), Memory>
    ensures { OnOk result (draft.new ≡ draft.old ++ source_own (length draft.old) source.now ∷ []) }
{
    let links = source_links(alloc, next_number(draft)?, source)?;
    let body = source_body(alloc, source)?;
    draft.place_linked(Kind::Si, links, body)
}

/// Places a source: SI, its name, its path and its comment.
#[tactic(auto, unfolding(crate::specs::Conv::source_blocks))]
pub(crate) fn place_source(
    alloc: Global,
    draft: &mut Draft,
    source: &SourceInfo,
) -> Result<(), Memory>
    ensures { OnOk result (draft.new ≡ draft.old ++ source_blocks (length draft.old) source.now) }
{
    place_own(alloc, draft, source)?;
    place_notes(alloc, draft, &source.name, &source.path, &source.comment)
}

/// Places the source of a channel or a channel group, if there is one.
#[tactic(auto, unfolding(crate::specs::Group::source_part))]
pub(crate) fn place_source_part(
    alloc: Global,
    draft: &mut Draft,
    source: &Option<SourceInfo>,
) -> Result<(), Memory>
    ensures { OnOk result (draft.new ≡ draft.old ++ source_part (length draft.old) source.now) }
{
    match source {
        None => Ok(()),
        Some(source) => place_source(alloc, draft, source),
    }
}

/// How many blocks the source has, if there is one.
#[tactic(auto, unfolding(crate::specs::Group::source_part, crate::specs::Conv::source_blocks))]
pub(crate) fn source_count(source: &Option<SourceInfo>) -> u32
    ensures count { (n : ℕ) → result ≡ length (source_part n source.now) }
    ensures few { result ≤ 4 }
{
    match source {
        None => 0,
        Some(source) => {
            1 + note_count(&source.name) + note_count(&source.path) + note_count(&source.comment)
        }
    }
}

/// The link to the source, if there is one, where its block is block n.
#[tactic(auto, unfolding(crate::specs::Group::source_link))]
pub(crate) fn source_link(n: u32, source: &Option<SourceInfo>) -> Link
    ensures { result ≡ source_link n source.now }
{
    match source {
        None => Link::Nothing,
        Some(_) => Link::Block(n),
    }
}
