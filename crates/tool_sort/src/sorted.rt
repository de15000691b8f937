ghost use Rattle.std.specs.Prelude.{ℕ, ◌≡◌, ◌+◌, ◌<◌, ◌^◌, ◌++◌, List, length, drop, slice_index_or, IfOk, OnOk};
ghost use Rattle.std.specs.List.{AllByRecursion};
ghost use Rattle.mdf_model.specs.declared.part.Measure.{Measure};
ghost use Rattle.mdf_tree.specs.Group.{next_if};
ghost use Rattle.tool_sort.specs.Kept.{StandsIn, IsSortedOf};
ghost use Rattle.tool_sort.specs.Sorted.{IsTitle, measures_blocks, part_blocks, past_part, sorted_blocks, sorted_file};

use crate::group::place_part;
use mdf_block::Draft;
use mdf_model::Measurement;
use mdf_num::{Memory, Pieces};
use mdf_spell::{FINALIZED_IDENT, place_head};
use std::alloc::Global;

/// Places group `i` of a measurement, whose records are moved out of it. Where one more follows it is linked.
fn place_next(
    alloc: Global,
    draft: &mut Draft,
    measurement: &mut Measurement,
    i: u32,
    more: bool,
) -> Result<(), Memory>
    requires { i < length measurement.old.groups }
    ensures placed { (d : Measure) → OnOk result (draft.new ≡ draft.old ++ part_blocks (length draft.old)
        (next_if more (past_part (length draft.old) (slice_index_or measurement.old.groups i d).part))
        (slice_index_or measurement.old.groups i d).part (slice_index_or measurement.old.groups i d).count) }
    ensures fits { (d : Measure) → OnOk result ((slice_index_or measurement.old.groups i d).count < 2 ^ 64) }
    ensures rest { drop (i + 1) measurement.new.groups ≡ drop (i + 1) measurement.old.groups }
{
    let count = measurement.samples(i);
    let content = measurement.take_content(alloc, i);
    place_part(alloc, draft, measurement.part(i), content, count, more)
}

/// Places the groups of a measurement one behind the other, each linked to the next one. Their records are moved out of it.
fn place_groups(
    alloc: Global,
    draft: &mut Draft,
    measurement: &mut Measurement,
) -> Result<(), Memory>
    ensures placed { OnOk result (draft.new ≡ draft.old ++ measures_blocks (length draft.old) measurement.old.groups) }
    ensures fit { OnOk result (AllByRecursion (λ (m : Measure). m.count < 2 ^ 64) measurement.old.groups) }
{
    let count = measurement.groups();
    for i in 0..count {
        place_next(alloc, draft, measurement, i, i + 1 < count)?;
    }
    Ok(())
}

/// The blocks of the sorted file of a measurement, whose records are moved out of it.
fn blocks_of(
    alloc: Global,
    measurement: &mut Measurement,
    title: &str,
    now_ns: u64,
) -> Result<Draft, Memory>
    ensures placed { IfOk result (λ blocks. blocks ≡ sorted_blocks measurement.old title.now now_ns) }
    ensures fit { OnOk result (AllByRecursion (λ (m : Measure). m.count < 2 ^ 64) measurement.old.groups) }
{
    let mut draft = Draft::new(alloc);
    let more = measurement.groups() > 0;
    place_head(
        alloc,
        &mut draft,
        measurement.head(),
        measurement.history().as_slice(),
        title,
        now_ns,
        more,
    )?;
    place_groups(alloc, &mut draft, measurement)?;
    Ok(draft)
}

/// The blocks of the sorted file of a measurement, as `spell_sorted` writes them. The records are moved into them, and the rest of
/// the measurement is given back to the allocator.
///
/// # Errors
/// `Memory` where memory runs out, or where there are more than 2^30 blocks.
pub fn sorted_draft(
    alloc: Global,
    measurement: Measurement,
    title: &str,
    now_ns: u64,
) -> Result<Draft, Memory>
    ensures placed { IfOk result (λ blocks. blocks ≡ sorted_blocks measurement title.now now_ns) }
    ensures fit { OnOk result (AllByRecursion (λ (m : Measure). m.count < 2 ^ 64) measurement.groups) }
{
    let mut measurement = measurement;
    blocks_of(alloc, &mut measurement, title, now_ns)
}

/// The sorted file of a measurement: identification, header, the history with an entry of what was done at `now_ns` (ns since
/// 1970) as its last, and a data group for each group of the measurement, in their order. Each has record id size 0, the
/// comment of the data group from which the group came, its one channel group with as many cycles as it has records, one DT
/// with its records as they are, and behind it an SD for each channel of variable length, which that channel names. The records are
/// moved into it, and the rest of the measurement is given back to the allocator before the file is made of its blocks.
///
/// # Errors
/// `Memory` where memory runs out, or where there are more than 2^30 blocks.
pub fn spell_sorted(
    alloc: Global,
    measurement: Measurement,
    title: &str,
    now_ns: u64,
) -> Result<Pieces, Memory>
    requires { IsTitle title.now }
    ensures written { IfOk result (λ bytes. bytes ≡ sorted_file measurement title.now now_ns) }
    ensures keeps { (file : List ℕ) → StandsIn file measurement → IfOk result (IsSortedOf measurement title.now now_ns) }
{
    let blocks = sorted_draft(alloc, measurement, title, now_ns)?;
    blocks.into_pieces(&FINALIZED_IDENT)
}
