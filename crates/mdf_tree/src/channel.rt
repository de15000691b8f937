ghost use Rattle.std.specs.Prelude.{◌≡◌, ◌+◌, ◌^◌, ◌<◌, [], ◌∷◌, ◌++◌, length, IfOk, OnOk, OnErr};
ghost use Rattle.std.specs.List.{AllByRecursion};
ghost use Rattle.mdf_tree.specs.Conv.{words_of};
ghost use Rattle.mdf_tree.specs.Group.{next_if, past_channel, past_channels, written_flags, channel_body, channel_own, channel_parts, channel_blocks, channels_blocks, IsChannelSized};
ghost use Rattle.mdf_tree.specs.Places.{AreChannelPlaces};

use crate::conv::{conv_link, place_conv_part};
use crate::count::conv_part_count;
use crate::number::{joined, next_number, plus, push_words};
use crate::places::ChannelPlaces;
use crate::source::{place_source_part, source_count, source_link};
use crate::text::{note_count, note_link, place_note};
use crate::value::{next_if, value_link, values_behind};
use mdf_block::{Draft, Kind, Link};
use mdf_group::ChannelRow;
use mdf_num::{Bytes, Memory};
use std::alloc::Global;

/// The flags of a channel as they are written: those of links that are passed over go with them.
fn written_flags(row: &ChannelRow) -> u32
    ensures flags { result ≡ written_flags row.now }
    ensures small { row.now.flags < 2 ^ 32 }
{
    let flags = row.flags;
    if row.extra == 0 { flags } else { flags % 4096 }
}

/// Adds the six numbers of the ranges at the end.
fn push_ranges(body: &mut Bytes, ranges: &[u64; 6]) -> Result<(), Memory>
    ensures pushed { OnOk result (body.new ≡ body.old ++ words_of ranges.now) }
    ensures six { OnOk result (length ranges.now ≡ 6) }
    ensures small { OnOk result (AllByRecursion (λ n. n < 2 ^ 64) ranges.now) }
{
    push_words(body, ranges)
}

/// The body of a channel (CNBLOCK).
fn channel_body(alloc: Global, row: &ChannelRow) -> Result<Bytes, Memory>
    ensures body { IfOk result (λ body. body ≡ channel_body row.now) }
    ensures sized { OnOk result (IsChannelSized row.now) }
{
    let byte = row.byte;
    let bits = row.bits;
    let inval = row.inval;
    let mut body = joined(
        alloc,
        &[
            &[row.kind, row.sync, row.data_type, row.bit],
            &byte.to_le_bytes(),
            &bits.to_le_bytes(),
            &written_flags(row).to_le_bytes(),
            &inval.to_le_bytes(),
            &[row.precision, 0, 0, 0],
        ],
    )?;
    push_ranges(&mut body, &row.ranges)?;
    Ok(body)
}

/// Where the parts of the channel at block n stand.
pub(crate) fn channel_places(n: u32, row: &ChannelRow) -> Result<ChannelPlaces, Memory>
    ensures places { IfOk result (λ places. AreChannelPlaces n row.now places) }
    ensures past { OnErr result (2 ^ 30 < past_channel n row.now) }
{
    let name = plus(n, 1)?;
    let source = name + note_count(&row.name);
    let conv = source + source_count(&row.source);
    let unit = plus(conv, conv_part_count(&row.conv)?)?;
    let comment = unit + note_count(&row.unit);
    let past = comment + note_count(&row.comment);
    Ok(ChannelPlaces {
        source,
        conv,
        unit,
        comment,
        past,
    })
}

/// The block behind the channels from block n on.
#[tactic(auto, unfolding(crate::specs::Group::past_channels))]
pub(crate) fn past_channels(n: u32, rows: &[ChannelRow]) -> Result<u32, Memory>
    ensures behind { IfOk result (λ past. past ≡ past_channels n rows.now) }
    ensures past { OnErr result (2 ^ 30 < past_channels n rows.now) }
{
    let mut at = n;
    for row in rows {
        at = channel_places(at, row)?.past;
    }
    Ok(at)
}

/// Places the block of a channel alone, with its links to parts that come behind it.
fn place_own(
    alloc: Global,
    draft: &mut Draft,
    row: &ChannelRow,
    more: bool,
    values: Link,
) -> Result<(), Memory>
    ensures placed { OnOk result (draft.new ≡ draft.old ++ channel_own (length draft.old) (next_if more (past_channel (length draft.old) row.now)) values row.now ∷ []) }
    ensures sized { OnOk result (IsChannelSized row.now) }
{
    let n = next_number(draft)?;
    let at = channel_places(n, row)?;
    let links = vec![in alloc;
        next_if(more, at.past),
        Link::Nothing,
        note_link(n + 1, &row.name),
        source_link(at.source, &row.source),
        conv_link(at.conv, &row.conv),
        values,
        note_link(at.unit, &row.unit),
        note_link(at.comment, &row.comment),
    ]?;
    let body = channel_body(alloc, row)?;
    draft.place_linked(Kind::Cn, links, body)
}

/// Places what the channel at block n names.
#[tactic(auto, unfolding(crate::specs::Group::channel_parts))]
fn place_parts(alloc: Global, draft: &mut Draft, n: u32, row: &ChannelRow) -> Result<(), Memory>
    requires { length draft.old ≡ n + 1 }
    ensures { OnOk result (draft.new ≡ draft.old ++ channel_parts n row.now) }
{
    place_note(alloc, draft, &row.name)?;
    place_source_part(alloc, draft, &row.source)?;
    place_conv_part(alloc, draft, &row.conv)?;
    place_note(alloc, draft, &row.unit)?;
    place_note(alloc, draft, &row.comment)
}

/// Places a channel: CN, and then its name, source, conversion, unit and comment. Where one more follows it is linked.
#[tactic(auto, unfolding(crate::specs::Group::channel_blocks))]
fn place_channel(
    alloc: Global,
    draft: &mut Draft,
    row: &ChannelRow,
    more: bool,
    values: Link,
) -> Result<(), Memory>
    ensures placed { OnOk result (draft.new ≡ draft.old ++ channel_blocks (length draft.old) (next_if more (past_channel (length draft.old) row.now)) values row.now) }
    ensures sized { OnOk result (IsChannelSized row.now) }
{
    let n = next_number(draft)?;
    place_own(alloc, draft, row, more, values)?;
    place_parts(alloc, draft, n, row)
}

/// Places channels, each linked to the next one. Those of variable length take the links to values in order.
pub(crate) fn place_channels(
    alloc: Global,
    draft: &mut Draft,
    rows: &[ChannelRow],
    values: &[Link],
) -> Result<(), Memory>
    ensures placed { OnOk result (draft.new ≡ draft.old ++ channels_blocks (length draft.old) values.now rows.now) }
    ensures sized { OnOk result (AllByRecursion IsChannelSized rows.now) }
{
    let mut rest = values;
    for (i, row) in rows.iter().enumerate() {
        place_channel(alloc, draft, row, i + 1 < rows.len(), value_link(rest, row))?;
        rest = values_behind(rest, row);
    }
    Ok(())
}
