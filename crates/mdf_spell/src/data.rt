ghost use Rattle.std.specs.Prelude.{◌≡◌, ◌+◌, ◌^◌, ◌<◌, [], ◌∷◌, ◌++◌, length, map, IfOk, OnOk, OnErr};
ghost use Rattle.std.specs.List.{AllByRecursion};
ghost use Rattle.mdf_format.specs.declared.kind.Kind.TheVariants.{Sd};
ghost use Rattle.mdf_tree.specs.Group.{next_link, data_groups, past_data_group, data_group_blocks};
ghost use Rattle.mdf_spell.specs.Values.{own_stream, own_streams};
ghost use Rattle.mdf_spell.specs.Counts.{counted_data, IsCounted};
ghost use Rattle.mdf_spell.specs.Session.{data_block, data_own, session_names, session_tree, own_data};

use crate::groups::place_groups;
use crate::names::{group_numbers, named_groups, with_streams};
use crate::recovered::Recovered;
use mdf_block::{Draft, Kind, Link, Note};
use mdf_group::DataRow;
use mdf_num::{Bytes, Memory};
use mdf_tree::{next_if, next_number, note_count, note_link, past_groups, place_note, plus};
use mdf_vlsd::ValueStream;
use std::alloc::Global;

/// Places a block of data: of records (DT) or of values (SD).
///
/// # Errors
/// `Memory` where memory runs out; then no block was placed.
pub fn place_data(alloc: Global, draft: &mut Draft, kind: Kind, bytes: &[u8]) -> Result<(), Memory>
    ensures ok { OnOk result (draft.new ≡ draft.old ++ data_block kind bytes.now ∷ []) }
    ensures err { OnErr result (draft.new ≡ draft.old) }
{
    let body = Bytes::from_slice(alloc, bytes)?;
    draft.place_linked(kind, Vec::new(alloc), body)
}

/// Places a block of values for a channel of variable length, if it names no group of values.
fn place_stream(
    alloc: Global,
    draft: &mut Draft,
    name: &Link,
    stream: &ValueStream,
) -> Result<(), Memory>
    ensures { OnOk result (draft.new ≡ draft.old ++ map (data_block Sd) (own_stream name.now stream.now)) }
{
    match name {
        Link::Nothing => place_data(alloc, draft, Kind::Sd, stream.bytes()),
        Link::Block(_) | Link::End => Ok(()),
    }
}

/// Places a block of values for each channel of variable length that names no group of values.
fn place_streams(
    alloc: Global,
    draft: &mut Draft,
    names: &[Link],
    streams: &[ValueStream],
) -> Result<(), Memory>
    ensures { OnOk result (draft.new ≡ draft.old ++ map (data_block Sd) (own_streams names.now streams.now)) }
{
    let mut i = 0;
    while i < names.len() && i < streams.len() {
        place_stream(alloc, draft, &names[i], &streams[i])?;
        i += 1;
    }
    Ok(())
}

/// The numbers of the first block behind the comment of the data group at block n, and of the block behind its channel
/// groups.
fn data_places(n: u32, row: &DataRow) -> Result<(u32, u32), Memory>
    ensures { IfOk result (λ places. (places.0 ≡ data_groups n row.now) × (places.1 ≡ past_data_group n row.now)) }
{
    let first = plus(plus(n, 1)?, note_count(&row.comment))?;
    let past = past_groups(first, row.groups.as_slice())?;
    Ok((first, past))
}

/// The links of the channels of variable length of the data group at block n to groups of values, where they name such.
fn session_names(alloc: Global, n: u32, row: &DataRow) -> Result<Vec<Link>, Memory>
    ensures { IfOk result (λ names. names.items ≡ session_names n row.now) }
{
    let first = data_places(n, row)?.0;
    let numbers = group_numbers(alloc, first, row.groups.as_slice())?;
    named_groups(alloc, row.groups.as_slice(), numbers.as_slice())
}

/// Places the block of a data group alone (DGBLOCK), with ids of so many bytes before its records, and with links to the next
/// data group, to its first channel group, to its data, and to its comment, which is to be the block behind it.
///
/// # Errors
/// `Memory` where memory runs out, or where there are more than 2^30 blocks; then no block was placed.
pub fn place_data_group(
    alloc: Global,
    draft: &mut Draft,
    id_size: u8,
    next: Link,
    groups: Link,
    content: Link,
    comment: &Note,
) -> Result<(), Memory>
    ensures ok { OnOk result (draft.new ≡ draft.old ++ data_own (length draft.old) id_size next groups content comment.now ∷ []) }
    ensures err { OnErr result (draft.new ≡ draft.old) }
{
    let n = next_number(draft)?;
    let links = vec![in alloc; next, groups, content, note_link(n + 1, comment)]?;
    let body = Bytes::from_slice(alloc, &[id_size, 0, 0, 0, 0, 0, 0, 0])?;
    draft.place_linked(Kind::Dg, links, body)
}

/// Places the block of the data group of a recording alone, the only one, with a link to its data.
fn place_own(alloc: Global, draft: &mut Draft, row: &DataRow, content: Link) -> Result<(), Memory>
    ensures { OnOk result (draft.new ≡ draft.old ++ data_own (length draft.old) row.now.id_size Link.Nothing (next_link (data_groups (length draft.old) row.now) row.now.groups) content row.now.comment ∷ []) }
{
    let first = data_places(next_number(draft)?, row)?.0;
    let groups = next_if(!row.groups.is_empty(), first);
    place_data_group(
        alloc,
        draft,
        row.id_size,
        Link::Nothing,
        groups,
        content,
        &row.comment,
    )
}

/// Places a data group with what is counted of its channel groups: DG, its comment, and the groups.
fn place_row(
    alloc: Global,
    draft: &mut Draft,
    row: &DataRow,
    counts: &[u64],
    totals: &[u64],
    content: Link,
    values: &[Link],
) -> Result<(), Memory>
    requires counts { length counts.now ≡ length row.now.groups }
    requires totals { length totals.now ≡ length row.now.groups }
    ensures placed { OnOk result (draft.new ≡ draft.old ++ data_group_blocks (length draft.old) Link.Nothing content values.now (counted_data counts.now totals.now row.now)) }
    ensures fit { OnOk result (AllByRecursion (λ count. count < 2 ^ 64) counts.now) }
{
    place_own(alloc, draft, row, content)?;
    place_note(alloc, draft, &row.comment)?;
    place_groups(alloc, draft, row.groups.as_slice(), counts, totals, values)
}

/// Places the data group without its data, which is to stand behind it: its tree. Answers the links of its channels of variable
/// length to groups of values, where they name such.
pub(crate) fn place_tree(
    alloc: Global,
    draft: &mut Draft,
    recovered: &Recovered,
) -> Result<Vec<Link>, Memory>
    requires { IsCounted recovered.now }
    ensures placed { OnOk result (draft.new ≡ draft.old ++ session_tree (length draft.old) recovered.now) }
    ensures names { IfOk result (λ names. names.items ≡ session_names (length draft.old) recovered.now.row.now) }
    ensures fit { OnOk result (AllByRecursion (λ count. count < 2 ^ 64) recovered.now.counts.now) }
{
    let n = next_number(draft)?;
    let records = data_places(n, recovered.row)?.1;
    let names = session_names(alloc, n, recovered.row)?;
    let values = with_streams(alloc, plus(records, 1)?, names.as_slice())?;
    place_row(
        alloc,
        draft,
        recovered.row,
        recovered.counts,
        recovered.totals,
        Link::Block(records),
        values.as_slice(),
    )?;
    Ok(names)
}

/// Places the data of a data group whose channels of variable length have these links to groups of values: a block of the
/// records (DT), which are moved into it, and a block of values (SD) for each channel that names no group of values.
pub(crate) fn place_own_data(
    alloc: Global,
    draft: &mut Draft,
    names: &[Link],
    content: Bytes,
    streams: &[ValueStream],
) -> Result<(), Memory>
    ensures { OnOk result (draft.new ≡ draft.old ++ own_data names.now content streams.now) }
{
    draft.place_linked(Kind::Dt, Vec::new(alloc), content)?;
    place_streams(alloc, draft, names, streams)
}
