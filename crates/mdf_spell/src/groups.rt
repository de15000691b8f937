ghost use Rattle.std.specs.Prelude.{◌≡◌, ◌^◌, ◌<◌, ◌++◌, length, OnOk};
ghost use Rattle.std.specs.List.{AllByRecursion};
ghost use Rattle.mdf_tree.specs.Group.{groups_blocks};
ghost use Rattle.mdf_tree.specs.Places.{counted_row};
ghost use Rattle.mdf_spell.specs.Counts.{counted_group, counted_groups};

use mdf_block::{Draft, Link};
use mdf_group::GroupRow;
use mdf_num::Memory;
use mdf_tree::{Counted, group_values_behind, place_group};
use std::alloc::Global;

/// What the finalized file says of a channel group with so many records, whose values have so many bytes in all.
fn counted_of(row: &GroupRow, count: u64, total: u64) -> Counted
    ensures { counted_row result row.now ≡ counted_group count total row.now }
{
    if row.is_variable() {
        Counted {
            id: row.id,
            cycles: count,
            data_bytes: (total % (1 << 32)) as u32,
            inval_bytes: (total / (1 << 32)) as u32,
        }
    } else {
        Counted {
            id: row.id,
            cycles: count,
            data_bytes: row.data_bytes,
            inval_bytes: row.inval_bytes,
        }
    }
}

/// Places channel groups with what is counted of each, each linked to the next one. Their channels of variable length take
/// the links to values in order.
pub(crate) fn place_groups(
    alloc: Global,
    draft: &mut Draft,
    rows: &[GroupRow],
    counts: &[u64],
    totals: &[u64],
    values: &[Link],
) -> Result<(), Memory>
    requires counts { length counts.now ≡ length rows.now }
    requires totals { length totals.now ≡ length rows.now }
    ensures placed { OnOk result (draft.new ≡ draft.old ++ groups_blocks (length draft.old) values.now (counted_groups counts.now totals.now rows.now)) }
    ensures fit { OnOk result (AllByRecursion (λ count. count < 2 ^ 64) counts.now) }
{
    let mut rest = values;
    for (i, row) in rows.iter().enumerate() {
        let counted = counted_of(row, counts[i], totals[i]);
        place_group(alloc, draft, row, counted, i + 1 < rows.len(), rest)?;
        rest = group_values_behind(rest, row);
    }
    Ok(())
}
