ghost use Rattle.std.specs.Prelude.{◌≡◌, ◌<◌, ◌≤◌, ◌^◌, [], ◌∷◌, ◌++◌, length, map, IfOk, OnOk};
ghost use Rattle.mdf_format.specs.declared.kind.Kind.TheVariants.{Sd};
ghost use Rattle.mdf_tree.specs.Group.{next_if, groups_blocks};
ghost use Rattle.mdf_spell.specs.Session.{data_block, data_own};
ghost use Rattle.tool_sort.specs.Places.{ArePartPlaces};
ghost use Rattle.tool_sort.specs.Sorted.{sorted_group, past_part, tree_blocks, part_blocks};

use crate::places::PartPlaces;
use mdf_block::{Draft, Kind, Link};
use mdf_model::GroupPart;
use mdf_num::{Bytes, Memory};
use mdf_spell::{block_links, place_data, place_data_group};
use mdf_tree::{
    Counted, group_places, next_if, next_number, note_count, place_group, place_note, plus,
};
use mdf_vlsd::{Streams, ValueStream};
use std::alloc::Global;

/// How many streams these are. It wants memory past 2^30.
fn stream_count(streams: &Streams) -> Result<u32, Memory>
    ensures { IfOk result (λ count. (count ≡ length streams.now) × (count ≤ 2 ^ 30)) }
{
    let count = streams.len();
    if count > 1 << 30 {
        return Err(Memory);
    }
    Ok(count as u32)
}

/// Where the parts of the data group at block n stand.
fn part_places(n: u32, part: &GroupPart) -> Result<PartPlaces, Memory>
    ensures { IfOk result (λ places. ArePartPlaces n part.now places) }
{
    let group = plus(plus(n, 1)?, note_count(&part.comment))?;
    let records = group_places(group, &part.row)?.past;
    let values = plus(records, 1)?;
    let past = plus(values, stream_count(&part.streams)?)?;
    Ok(PartPlaces {
        group,
        records,
        values,
        past,
    })
}

/// Places the block of the data group alone.
fn place_own(
    alloc: Global,
    draft: &mut Draft,
    part: &GroupPart,
    places: PartPlaces,
    next: Link,
) -> Result<(), Memory>
    ensures { OnOk result (draft.new ≡ draft.old ++ data_own (length draft.old) 0 next (Link.Block places.group) (Link.Block places.records) part.now.comment ∷ []) }
{
    place_data_group(
        alloc,
        draft,
        0,
        next,
        Link::Block(places.group),
        Link::Block(places.records),
        &part.comment,
    )
}

/// Places the channel group, with so many records and without a record id.
fn place_own_group(
    alloc: Global,
    draft: &mut Draft,
    part: &GroupPart,
    count: u64,
    values: &[Link],
) -> Result<(), Memory>
    ensures { OnOk result (draft.new ≡ draft.old ++ groups_blocks (length draft.old) values.now (sorted_group part.now count ∷ [])) }
{
    let counted = Counted {
        id: 0,
        cycles: count,
        data_bytes: part.row.data_bytes,
        inval_bytes: part.row.inval_bytes,
    };
    place_group(alloc, draft, &part.row, counted, false, values)
}

/// Places the data group with its comment and its channel group.
fn place_tree(
    alloc: Global,
    draft: &mut Draft,
    part: &GroupPart,
    count: u64,
    next: Link,
) -> Result<(), Memory>
    ensures { OnOk result (draft.new ≡ draft.old ++ tree_blocks (length draft.old) next part.now count) }
{
    let places = part_places(next_number(draft)?, part)?;
    let values = block_links(alloc, places.values, stream_count(&part.streams)?)?;
    place_own(alloc, draft, part, places, next)?;
    place_note(alloc, draft, &part.comment)?;
    place_own_group(alloc, draft, part, count, values.as_slice())
}

/// Places a block of values for each stream.
fn place_values(alloc: Global, draft: &mut Draft, streams: &[ValueStream]) -> Result<(), Memory>
    ensures { OnOk result (draft.new ≡ draft.old ++ map (data_block Sd) streams.now) }
{
    for stream in streams {
        place_data(alloc, draft, Kind::Sd, stream.bytes())?;
    }
    Ok(())
}

/// Places a group of a measurement with so many records, which are moved into their block: its data group, these records and its
/// values. Where one more follows it is linked.
pub(crate) fn place_part(
    alloc: Global,
    draft: &mut Draft,
    part: &GroupPart,
    content: Bytes,
    count: u64,
    more: bool,
) -> Result<(), Memory>
    ensures placed { OnOk result (draft.new ≡ draft.old ++ part_blocks (length draft.old) (next_if more (past_part (length draft.old) part.now))
        (record part.now { content = content }) count) }
    ensures fits { count < 2 ^ 64 }
{
    let past = part_places(next_number(draft)?, part)?.past;
    place_tree(alloc, draft, part, count, next_if(more, past))?;
    draft.place_linked(Kind::Dt, Vec::new(alloc), content)?;
    place_values(alloc, draft, part.streams.as_slice())
}
