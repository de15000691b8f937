ghost use Rattle.std.specs.Prelude.{◌≡◌, ◌+◌, ◌^◌, ◌≤◌, ◌<◌, ◌++◌, ℕ, List, [], None, Some, length, filter, slice_index_or, if◌then◌else◌, IfOk, IfSome, IsSome, OnOk};
ghost use Rattle.std.specs.List.{enumerate_from, flat_map};
ghost use Rattle.mdf_block.specs.Block.{block};
ghost use Rattle.mdf_data.specs.declared.known.Piece.{Piece};
ghost use Rattle.mdf_format.specs.declared.kind.Kind.TheVariants.{Cg, Dt};
ghost use Rattle.mdf_group.specs.Group.{is_variable};
ghost use Rattle.mdf_content.specs.Layouts.{has_id_size};
ghost use Rattle.mdf_model.specs.Contents.{is_of_samples};
ghost use Rattle.mdf_stream.specs.Link.{data_refusal};
ghost use Rattle.tool_complete.specs.Completed.{Split, IsCounted, IsCountedOf, count_at, cut_by, cut_with, group_count, split_of};
ghost use Rattle.tool_complete.specs.Named.{final_name};
ghost use Rattle.tool_complete.specs.Records.{count_of};
ghost use Rattle.tool_complete.specs.Settings.{AreFieldsIn, IsFieldIn};

use crate::cut::Cut;
use crate::names::data_names;
use crate::records::tally_of;
use crate::setting::Setting;
use crate::tally::Tally;
use mdf_block::{BlockAt, Kind, block_at};
use mdf_data::{DataFault, view_data};
use mdf_group::{DataRow, GroupRow};
use mdf_num::{Memory, Rows};
use std::alloc::Global;

/// What is counted of the stream of a data group.
#[derive(Drop)]
pub(crate) struct Counted {
    /// How many bytes it has.
    pub total: u64,
    /// Its whole records.
    pub tally: Tally,
}

/// Whether ids have 1, 2, 4 or 8 bytes, or there are none and at most one group.
fn has_id_size(row: &DataRow) -> bool
    ensures { result ≡ has_id_size row.now }
{
    match row.id_size {
        0 => row.groups.len() <= 1,
        1 | 2 | 4 | 8 => true,
        _ => false,
    }
}

/// Nothing is counted where the blocks of data do not stand.
fn none_counted(fault: DataFault) -> Result<Option<Counted>, Memory>
    ensures { IfOk result (λ counted. (counted ≡ None) × IsSome (data_refusal fault)) }
{
    match fault {
        DataFault::Memory => Err(Memory),
        _ => Ok(None),
    }
}

/// The stream of a data group is counted, where its blocks of data stand and its id size is one of the standard's.
#[tactic(auto, unfolding(crate::specs::Completed::split_of))]
pub(crate) fn counted_of(
    alloc: Global,
    bytes: &[u8],
    row: &DataRow,
) -> Result<Option<Counted>, Memory>
    ensures { IfOk result (IsCountedOf (length row.now.groups) (split_of bytes.now row.now)) }
{
    if !has_id_size(row) {
        return Ok(None);
    }
    match view_data(alloc, bytes, row.content, Kind::Dt) {
        Ok(view) => {
            let tally = tally_of(alloc, bytes, &view, row)?;
            Ok(Some(Counted {
                total: view.len(),
                tally,
            }))
        }
        Err(fault) => none_counted(fault),
    }
}

/// Adds the cycle count of a channel group, where it holds no values of variable length.
fn add_count(
    settings: &mut Rows<Setting>,
    bytes: &[u8],
    group: &GroupRow,
    count: u64,
) -> Result<(), Memory>
    ensures added { OnOk result (settings.new ≡ settings.old ++ (if is_variable group.now then [] else count_at count (block bytes.now group.now.at Cg))) }
    ensures inside { AreFieldsIn (length bytes.now) settings.old → OnOk result (AreFieldsIn (length bytes.now) settings.new) }
{
    if group.is_variable() {
        return Ok(());
    }
    let Ok(block) = block_at(bytes, group.at, Kind::Cg) else {
        return Ok(());
    };
    settings.push(Setting {
        at: block.body_at + 8,
        value: count,
    })
}

/// Adds the cycle counts of the channel groups of a data group that hold no values of variable length.
pub(crate) fn add_counts(
    settings: &mut Rows<Setting>,
    bytes: &[u8],
    groups: &[GroupRow],
    counts: &[u64],
) -> Result<(), Memory>
    requires { length counts.now ≡ length groups.now }
    ensures added { (records : List Piece) → ((k : ℕ) → k < length groups.now → slice_index_or counts.now k 0 ≡ count_of k records)
        → OnOk result (settings.new ≡ settings.old ++ flat_map (group_count bytes.now records) (filter is_of_samples (enumerate_from 0 groups.now))) }
    ensures inside { AreFieldsIn (length bytes.now) settings.old → OnOk result (AreFieldsIn (length bytes.now) settings.new) }
{
    for (k, group) in groups.iter().enumerate() {
        add_count(settings, bytes, group, counts[k])?;
    }
    Ok(())
}

/// The address that a data link names last.
fn final_name(alloc: Global, bytes: &[u8], link: u64) -> Result<u64, Memory>
    ensures { IfOk result (λ last. last ≡ final_name bytes.now link) }
{
    let names = data_names(alloc, bytes, link)?;
    let names = names.as_slice();
    Ok(names[names.len() - 1])
}

/// What is cut of a block that ends a stream.
fn cut_with(counted: &Counted, block: &BlockAt) -> Cut
    requires behind { block.now.at + 24 ≤ block.now.body_at }
    requires fits { block.now.body_at + block.now.body_len < 2 ^ 64 }
    requires within { counted.now.tally.whole ≤ counted.now.total }
    ensures cut { (groups : ℕ) (split : Split) → IsCounted groups split counted.now → result ≡ cut_with split block.now }
    ensures at { result.length.at ≡ block.now.at + 8 }
{
    let before = counted.total.saturating_sub(block.body_len);
    let kept = counted.tally.whole.saturating_sub(before);
    Cut {
        length: Setting {
            at: block.at + 8,
            value: block.body_at - block.at + kept,
        },
        rest: block.body_len - kept,
    }
}

/// What is cut of the block at `last`, where it ends the stream of a data group.
pub(crate) fn cut_of(
    alloc: Global,
    bytes: &[u8],
    last: u64,
    row: &DataRow,
    counted: &Counted,
) -> Result<Option<Cut>, Memory>
    requires within { counted.now.tally.whole ≤ counted.now.total }
    ensures cut { (groups : ℕ) (split : Split) → IsCounted groups split counted.now
        → IfOk result (λ cut. cut ≡ cut_by bytes.now last row.now (block bytes.now last Dt) (Some split)) }
    ensures inside { IfOk result (λ cut. IfSome cut (λ cut. IsFieldIn (length bytes.now) cut.length)) }
{
    let Ok(block) = block_at(bytes, last, Kind::Dt) else {
        return Ok(None);
    };
    let ending = final_name(alloc, bytes, row.content)?;
    if ending != last {
        return Ok(None);
    }
    Ok(Some(cut_with(counted, &block)))
}
