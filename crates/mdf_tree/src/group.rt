ghost use Rattle.std.specs.Prelude.{◌≡◌, ◌+◌, ◌^◌, ◌<◌, [], ◌∷◌, ◌++◌, length, IfOk, OnOk, OnErr};
ghost use Rattle.std.specs.List.{AllByRecursion};
ghost use Rattle.mdf_tree.specs.Group.{next_if, past_group, past_groups, group_body, group_own, group_values, group_values_behind, group_blocks, IsChannelSized};
ghost use Rattle.mdf_tree.specs.Places.{AreGroupPlaces, counted_row};
ghost use Rattle.mdf_tree.specs.Sized.{IsRowSized};

use crate::channel::{past_channels, place_channels};
use crate::number::{joined, next_number, plus};
use crate::places::{Counted, GroupPlaces};
use crate::source::{place_source_part, source_count, source_link};
use crate::text::{note_count, note_link, place_note};
use crate::value::{next_if, values_past};
use mdf_block::{Draft, Kind, Link};
use mdf_group::GroupRow;
use mdf_num::{Bytes, Memory};
use std::alloc::Global;

/// The body of a channel group (CGBLOCK).
fn group_body(alloc: Global, row: &GroupRow, counted: Counted) -> Result<Bytes, Memory>
    ensures body { IfOk result (λ body. body ≡ group_body (counted_row counted row.now)) }
    ensures sized { OnOk result (IsRowSized (counted_row counted row.now)) }
{
    let flags = row.flags;
    let separator = row.separator;
    joined(
        alloc,
        &[
            &counted.id.to_le_bytes(),
            &counted.cycles.to_le_bytes(),
            &flags.to_le_bytes(),
            &separator.to_le_bytes(),
            &[0; 4],
            &counted.data_bytes.to_le_bytes(),
            &counted.inval_bytes.to_le_bytes(),
        ],
    )
}

/// Where the parts of the channel group at block n stand. It wants memory only where they end past block 2^30.
pub fn group_places(n: u32, row: &GroupRow) -> Result<GroupPlaces, Memory>
    ensures places { IfOk result (λ places. AreGroupPlaces n row.now places) }
    ensures past { OnErr result (2 ^ 30 < past_group n row.now) }
{
    let name = plus(n, 1)?;
    let source = name + note_count(&row.name);
    let comment = source + source_count(&row.source);
    let channels = comment + note_count(&row.comment);
    let past = past_channels(channels, row.channels.as_slice())?;
    Ok(GroupPlaces {
        source,
        comment,
        channels,
        past,
    })
}

/// The block behind the channel groups from block n on. It wants memory only past block 2^30.
#[tactic(auto, unfolding(crate::specs::Group::past_groups))]
pub fn past_groups(n: u32, rows: &[GroupRow]) -> Result<u32, Memory>
    ensures behind { IfOk result (λ past. past ≡ past_groups n rows.now) }
    ensures past { OnErr result (2 ^ 30 < past_groups n rows.now) }
{
    let mut at = n;
    for row in rows {
        at = group_places(at, row)?.past;
    }
    Ok(at)
}

/// The links to values that the channels of a group take: none for a group of values.
fn group_values<'a>(values: &'a [Link], row: &GroupRow) -> &'a [Link]
    ensures { result.now ≡ group_values values.now row.now }
{
    if row.is_variable() { &[] } else { values }
}

/// The links to values that are left behind a group.
pub fn group_values_behind<'a>(values: &'a [Link], row: &GroupRow) -> &'a [Link]
    ensures { result.now ≡ group_values_behind values.now row.now }
{
    if row.is_variable() {
        values
    } else {
        values_past(values, row.channels.as_slice())
    }
}

/// Places the block of a channel group alone, with its links to parts that come behind it.
fn place_own(
    alloc: Global,
    draft: &mut Draft,
    row: &GroupRow,
    counted: Counted,
    more: bool,
) -> Result<(), Memory>
    ensures placed { OnOk result (draft.new ≡ draft.old ++ group_own (length draft.old) (next_if more (past_group (length draft.old) row.now)) (counted_row counted row.now) ∷ []) }
    ensures sized { OnOk result (IsRowSized (counted_row counted row.now)) }
{
    let n = next_number(draft)?;
    let at = group_places(n, row)?;
    let links = vec![in alloc;
        next_if(more, at.past),
        next_if(!row.channels.is_empty(), at.channels),
        note_link(n + 1, &row.name),
        source_link(at.source, &row.source),
        Link::Nothing,
        note_link(at.comment, &row.comment),
    ]?;
    let body = group_body(alloc, row, counted)?;
    draft.place_linked(Kind::Cg, links, body)
}

/// Places a channel group behind the blocks of a draft: CG with these counts, its name, source and comment, and its
/// channels, each followed by its name, source, conversion, unit and comment. No block is shared: a source or a text that
/// two of them name is written for each. With `more`, CG links to the block behind all of these. The channels of variable
/// length (kind 1) take `values` in order as links to their data, and nothing where these run out; a group of values takes
/// none, and no other channel names data.
///
/// # Errors
/// `Memory` where memory runs out, or where there are more than 2^30 blocks; some of the blocks may be placed then.
#[tactic(auto, unfolding(crate::specs::Group::group_blocks))]
pub fn place_group(
    alloc: Global,
    draft: &mut Draft,
    row: &GroupRow,
    counted: Counted,
    more: bool,
    values: &[Link],
) -> Result<(), Memory>
    ensures placed { OnOk result (draft.new ≡ draft.old ++ group_blocks (length draft.old) (next_if more (past_group (length draft.old) row.now)) values.now (counted_row counted row.now)) }
    ensures sized { OnOk result (IsRowSized (counted_row counted row.now)) }
    ensures channels { OnOk result (AllByRecursion IsChannelSized row.now.channels) }
{
    place_own(alloc, draft, row, counted, more)?;
    place_note(alloc, draft, &row.name)?;
    place_source_part(alloc, draft, &row.source)?;
    place_note(alloc, draft, &row.comment)?;
    place_channels(
        alloc,
        draft,
        row.channels.as_slice(),
        group_values(values, row),
    )
}
