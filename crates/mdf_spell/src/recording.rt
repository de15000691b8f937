ghost use Rattle.std.specs.Prelude.{ℕ, ◌≡◌, ◌<◌, ◌≤◌, ◌+◌, nat_lt, ◌||◌, [], ◌∷◌, ◌++◌, List, length, codes, IfOk, OnOk};
ghost use Rattle.std.specs.List.{AllByRecursion};
ghost use Rattle.mdf_group.specs.Recordable.{AreRecordable};
ghost use Rattle.mdf_tree.specs.Group.{next_if, group_body, group_blocks, groups_blocks};
ghost use Rattle.mdf_tree.specs.Head.{header_block, history_blocks, head_blocks, new_entry};
ghost use Rattle.mdf_spell.specs.Recording.{recording_ident, start_head, values_row, values_rows, variable_count, value_links, recording_data, recording_groups, ArePlacedBefore, head_file, IsRecordingTree, FindsHead, FindsGroups};
ghost use Rattle.mdf_tree.specs.Sized.{IsWholeSized};

use crate::history::new_entry;
use crate::variable::{block_links, variable_count};
use mdf_block::{Draft, Kind, Link, Note};
use mdf_format::Form;
use mdf_group::GroupRow;
use mdf_head::Head;
use mdf_num::{Bytes, Memory, Rows, put_u16};
use mdf_tree::{
    Counted, group_values_behind, next_if, next_number, past_groups, place_entry, place_group,
    place_header, plus,
};
use std::alloc::Global;

/// The identification of a recording but for the words of its form: unfinalized, version 4.10.
const IDENT: [u8; 64] = [
    85, 110, 70, 105, 110, 77, 70, 32, 52, 46, 49, 48, 32, 32, 32, 32, 109, 100, 102, 52, 114, 101,
    99, 32, 0, 0, 0, 0, 154, 1, 0, 0, 0, 0, 0, 0, 0, 0, 0, 0, 0, 0, 0, 0, 0, 0, 0, 0, 0, 0, 0, 0,
    0, 0, 0, 0, 0, 0, 0, 0, 0, 0, 0, 0,
];

/// The block of the first channel group: HD is block 0, FH and its comment are 1 and 2, DG is 3.
const FIRST_GROUP: u32 = 4;

/// The identification of a recording of a form.
fn ident(form: Form) -> [u8; 64]
    ensures { result ≡ recording_ident form }
{
    let mut ident = IDENT;
    put_u16(&mut ident, 60, form.standard_word());
    put_u16(&mut ident, 62, form.custom_word());
    ident
}

/// Places the header of a recording.
fn place_start(alloc: Global, draft: &mut Draft, start_ns: u64) -> Result<(), Memory>
    ensures { OnOk result (draft.new ≡ draft.old ++ header_block 3 (Link.Block 1) (Link.Block 3) (start_head start_ns) ∷ []) }
{
    let head = Head {
        start: start_ns,
        zone: 0,
        daylight: 0,
        time_flags: 0,
        time_class: 0,
        flags: 0,
        angle: 0,
        distance: 0,
        comment: Note::Nothing,
        first_dg: 0,
    };
    place_header(alloc, draft, &head, 3, Link::Block(1), Link::Block(3))
}

/// Places the entry of the history of a recording.
fn place_record_entry(alloc: Global, draft: &mut Draft, start_ns: u64) -> Result<(), Memory>
    ensures { OnOk result (draft.new ≡ draft.old ++ history_blocks (length draft.old) (new_entry (codes "record") start_ns ∷ [])) }
{
    let entry = new_entry(alloc, "record", start_ns)?;
    place_entry(alloc, draft, &entry, false)
}

/// Places the data group of a recording alone: record ids of one byte, and data from the end of the file on.
fn place_data(alloc: Global, draft: &mut Draft) -> Result<(), Memory>
    ensures { OnOk result (draft.new ≡ draft.old ++ recording_data ∷ []) }
{
    let links = vec![in alloc;
        Link::Nothing,
        Link::Block(FIRST_GROUP),
        Link::End,
        Link::Nothing,
    ]?;
    let body = Bytes::from_slice(alloc, &[1, 0, 0, 0, 0, 0, 0, 0])?;
    draft.place_linked(Kind::Dg, links, body)
}

/// Places all that stands before the first channel group.
fn place_front(alloc: Global, draft: &mut Draft, start_ns: u64) -> Result<(), Memory>
    requires { draft.old ≡ [] }
    ensures { OnOk result (draft.new ≡ head_blocks (start_head start_ns) (new_entry (codes "record") start_ns ∷ []) (Link.Block 3) ++ recording_data ∷ []) }
{
    place_start(alloc, draft, start_ns)?;
    place_record_entry(alloc, draft, start_ns)?;
    place_data(alloc, draft)
}

/// Whether one more group follows group `i`: one to be recorded, or one of so many groups of values.
fn is_followed(i: usize, rows: &[GroupRow], count: u32) -> bool
    requires { i < length rows.now }
    ensures { result ≡ (nat_lt (i + 1) (length rows.now) || nat_lt 0 count) }
{
    i + 1 < rows.len() || count > 0
}

/// Places the groups to be recorded, with record ids from 1 on, where so many groups of values are placed behind them.
fn place_numbered(
    alloc: Global,
    draft: &mut Draft,
    rows: &[GroupRow],
    values: &[Link],
    count: u32,
) -> Result<(), Memory>
    ensures placed { OnOk result (ArePlacedBefore draft.old draft.new values.now rows.now count) }
    ensures sized { OnOk result (AllByRecursion IsWholeSized rows.now) }
{
    let mut rest = values;
    for (i, row) in rows.iter().enumerate() {
        let counted = Counted {
            id: i as u64 + 1,
            cycles: 0,
            data_bytes: row.data_bytes,
            inval_bytes: row.inval_bytes,
        };
        place_group(
            alloc,
            draft,
            row,
            counted,
            is_followed(i, rows, count),
            rest,
        )?;
        rest = group_values_behind(rest, row);
    }
    Ok(())
}

/// The body of a group of values (CGBLOCK): its record id, and the flag 1; all else is 0.
fn values_body(alloc: Global, id: u64) -> Result<Bytes, Memory>
    ensures { IfOk result (λ body. body ≡ group_body (values_row id)) }
{
    let mut body = Bytes::from_slice(alloc, &id.to_le_bytes())?;
    body.push_slice(&[
        0, 0, 0, 0, 0, 0, 0, 0, 1, 0, 0, 0, 0, 0, 0, 0, 0, 0, 0, 0, 0, 0, 0, 0,
    ])?;
    Ok(body)
}

/// Places a group of values. Where one more follows it is linked.
#[tactic(auto, unfolding(mdf_tree::specs::Group::group_blocks))]
fn place_value_group(alloc: Global, draft: &mut Draft, id: u64, more: bool) -> Result<(), Memory>
    ensures { OnOk result (draft.new ≡ draft.old ++ group_blocks (length draft.old) (next_if more (length draft.old + 1)) [] (values_row id)) }
{
    let past = plus(next_number(draft)?, 1)?;
    let links = vec![in alloc;
        next_if(more, past),
        Link::Nothing,
        Link::Nothing,
        Link::Nothing,
        Link::Nothing,
        Link::Nothing,
    ]?;
    let body = values_body(alloc, id)?;
    draft.place_linked(Kind::Cg, links, body)
}

/// Places so many groups of values, with record ids from `id` on.
fn place_values(alloc: Global, draft: &mut Draft, id: u32, count: u32) -> Result<(), Memory>
    ensures { OnOk result (draft.new ≡ draft.old ++ groups_blocks (length draft.old) [] (values_rows id count)) }
{
    for i in 0..count {
        place_value_group(alloc, draft, id as u64 + i as u64, i + 1 < count)?;
    }
    Ok(())
}

/// Places the channel groups of a recording: those to be recorded, and one of values for each channel of variable
/// length, which that channel names.
fn place_groups(alloc: Global, draft: &mut Draft, rows: &[GroupRow]) -> Result<(), Memory>
    requires { length rows.now ≤ 64 }
    ensures placed { OnOk result (draft.new ≡ draft.old ++ groups_blocks (length draft.old) (value_links rows.now) (recording_groups rows.now)) }
    ensures sized { OnOk result (AllByRecursion IsWholeSized rows.now) }
{
    let count = variable_count(rows)?;
    let first = past_groups(FIRST_GROUP, rows)?;
    let values = block_links(alloc, first, count)?;
    place_numbered(alloc, draft, rows, values.as_slice(), count)?;
    place_values(alloc, draft, rows.len() as u32 + 1, count)
}

/// The bytes that a recording of this form begins with, up to the place where its data begin: identification, header with this
/// start time in ns since 1970, one entry of the history at that time, and one data group. Its channel groups have
/// record ids from 1 on and no cycles yet; behind them stands one group of values for each channel of variable
/// length, in the order of the channels, and its channel names it.
///
/// # Errors
/// `Memory` where memory runs out, or where there are more than 2^30 blocks.
pub fn recording_head(
    alloc: Global,
    start_ns: u64,
    rows: &Rows<GroupRow>,
    form: Form,
) -> Result<Bytes, Memory>
    requires { AreRecordable rows.now }
    ensures written { IfOk result (λ bytes. bytes ≡ head_file form start_ns rows.now) }
    ensures tree { IfOk result (λ bytes. (more : List ℕ) → IsRecordingTree (bytes ++ more) start_ns rows.now) }
    ensures head_found { IfOk result (λ bytes. (more : List ℕ) → FindsHead (bytes ++ more) start_ns rows.now) }
    ensures groups_found { IfOk result (λ bytes. (more : List ℕ) → FindsGroups (bytes ++ more) start_ns rows.now) }
{
    let mut draft = Draft::new(alloc);
    place_front(alloc, &mut draft, start_ns)?;
    place_groups(alloc, &mut draft, rows.as_slice())?;
    draft.bytes(&ident(form))
}
