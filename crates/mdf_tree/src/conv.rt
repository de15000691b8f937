ghost use Rattle.std.specs.Prelude.{◌≡◌, ◌+◌, ◌^◌, ◌≤◌, [], ◌∷◌, ◌++◌, length, IfOk, OnOk};
ghost use Rattle.mdf_tree.specs.Conv.{conv_body, ref_blocks, ref_link, refs_blocks, refs_links, conv_links, conv_own, conv_blocks_by, conv_blocks};
ghost use Rattle.mdf_tree.specs.Group.{conv_part, conv_link};

use crate::count::{LEVELS, ref_count};
use crate::number::{joined, next_number, plus, push_words};
use crate::text::{note_count, note_link, place_note, place_notes};
use mdf_block::{Draft, Kind, Link};
use mdf_conv::{Conversion, Ref};
use mdf_num::{Bytes, Memory};
use std::alloc::Global;

/// The body of a conversion (CCBLOCK). The count of references is cut to its 16 bits.
fn conv_body(alloc: Global, conv: &Conversion) -> Result<Bytes, Memory>
    ensures { IfOk result (λ body. body ≡ conv_body conv.now) }
{
    let references = (conv.refs.len() % 65_536) as u16;
    let values = (conv.numbers.len() % 65_536) as u16;
    let mut body = joined(
        alloc,
        &[
            &[conv.kind, conv.precision],
            &conv.flags.to_le_bytes(),
            &references.to_le_bytes(),
            &values.to_le_bytes(),
            &conv.low.to_le_bytes(),
            &conv.high.to_le_bytes(),
        ],
    )?;
    push_words(&mut body, conv.numbers.as_slice())?;
    Ok(body)
}

/// The link to what a reference leads to, where its block is block n.
#[tactic(auto, unfolding(crate::specs::Conv::ref_link))]
fn ref_link(n: u32, found: &Ref) -> Link
    ensures { result ≡ ref_link n found.now }
{
    match found {
        Ref::Nothing => Link::Nothing,
        Ref::Words(note) => note_link(n, note),
        Ref::Conv(_) => Link::Block(n),
    }
}

/// Adds the links to references at the end, where the first of them is written from block `first` on.
fn push_ref_links(
    links: &mut Vec<Link>,
    first: u32,
    refs: &[Ref],
    levels: u64,
) -> Result<(), Memory>
    ensures { OnOk result (links.new.items ≡ links.old.items ++ refs_links (conv_blocks levels) first refs.now) }
{
    let mut n = first;
    for found in refs {
        links.push(ref_link(n, found))?;
        n = plus(n, ref_count(found, levels)?)?;
    }
    Ok(())
}

/// The links of the conversion at block n.
fn conv_links(alloc: Global, n: u32, conv: &Conversion, levels: u64) -> Result<Vec<Link>, Memory>
    requires { n ≤ 2 ^ 30 }
    ensures { IfOk result (λ links. links.items ≡ conv_links (conv_blocks levels) n conv.now) }
{
    let name = n + 1;
    let unit = name + note_count(&conv.name);
    let comment = unit + note_count(&conv.unit);
    let first = comment + note_count(&conv.comment);
    let mut links = vec![in alloc;
        note_link(name, &conv.name),
        note_link(unit, &conv.unit),
        note_link(comment, &conv.comment),
        Link::Nothing,
    ]?;
    push_ref_links(&mut links, first, conv.refs.as_slice(), levels)?;
    Ok(links)
}

/// Places the block of a conversion alone, with its links to texts and references that come behind it.
fn place_own(alloc: Global, draft: &mut Draft, conv: &Conversion, levels: u64) -> Result<(), Memory>
    ensures { OnOk result (draft.new ≡ draft.old ++ conv_own (conv_blocks levels) (length draft.old) conv.now ∷ []) }
{
    let links = conv_links(alloc, next_number(draft)?, conv, levels)?;
    let body = conv_body(alloc, conv)?;
    draft.place_linked(Kind::Cc, links, body)
}

/// Places what a reference leads to, with so many levels of conversions.
#[cycle(place)]
#[tactic(auto, unfolding(crate::specs::Conv::ref_blocks))]
fn place_ref(alloc: Global, draft: &mut Draft, found: &Ref, levels: u64) -> Result<(), Memory>
    ensures { OnOk result (draft.new ≡ draft.old ++ ref_blocks (conv_blocks levels) (length draft.old) found.now) }
{
    match found {
        Ref::Nothing => Ok(()),
        Ref::Words(note) => place_note(alloc, draft, note),
        Ref::Conv(boxed) => place_conv(alloc, draft, boxed.get(), levels),
    }
}

/// Places what references lead to, one behind the other.
#[cycle(place)]
fn place_refs(alloc: Global, draft: &mut Draft, refs: &[Ref], levels: u64) -> Result<(), Memory>
    ensures { OnOk result (draft.new ≡ draft.old ++ refs_blocks (conv_blocks levels) (length draft.old) refs.now) }
{
    for found in refs {
        place_ref(alloc, draft, found, levels)?;
    }
    Ok(())
}

/// Places a conversion with so many levels below it: CC, its texts, and its references.
#[cycle(place)]
fn place_whole(
    alloc: Global,
    draft: &mut Draft,
    conv: &Conversion,
    levels: u64,
) -> Result<(), Memory>
    ensures { OnOk result (draft.new ≡ draft.old ++ conv_blocks_by (conv_blocks levels) (length draft.old) conv.now) }
{
    place_own(alloc, draft, conv, levels)?;
    place_notes(alloc, draft, &conv.name, &conv.unit, &conv.comment)?;
    place_refs(alloc, draft, conv.refs.as_slice(), levels)
}

/// Places a conversion with so many levels; with none it places nothing.
#[cycle(place)]
#[tactic(auto, unfolding(crate::specs::Conv::conv_blocks))]
fn place_conv(
    alloc: Global,
    draft: &mut Draft,
    conv: &Conversion,
    levels: u64,
) -> Result<(), Memory>
    ensures { OnOk result (draft.new ≡ draft.old ++ conv_blocks levels (length draft.old) conv.now) }
{
    if levels == 0 {
        return Ok(());
    }
    place_whole(alloc, draft, conv, levels - 1)
}

/// Places the conversion of a channel, if there is one.
#[tactic(auto, unfolding(crate::specs::Group::conv_part))]
pub(crate) fn place_conv_part(
    alloc: Global,
    draft: &mut Draft,
    conv: &Option<Conversion>,
) -> Result<(), Memory>
    ensures { OnOk result (draft.new ≡ draft.old ++ conv_part (length draft.old) conv.now) }
{
    match conv {
        None => Ok(()),
        Some(conv) => place_conv(alloc, draft, conv, LEVELS),
    }
}

/// The link to the conversion, if there is one, where its block is block n.
#[tactic(auto, unfolding(crate::specs::Group::conv_link))]
pub(crate) fn conv_link(n: u32, conv: &Option<Conversion>) -> Link
    ensures { result ≡ conv_link n conv.now }
{
    match conv {
        None => Link::Nothing,
        Some(_) => Link::Block(n),
    }
}
