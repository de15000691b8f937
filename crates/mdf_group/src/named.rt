ghost use Rattle.std.specs.Prelude.{◌≡◌, ◌||◌, ℕ, IfOk, OnOk};
ghost use Rattle.std.specs.List.{list_any};
ghost use Rattle.std.specs.Ordering.{nat_cmp};
ghost use Rattle.std.specs.BTreeSet.{contains};
ghost use Rattle.mdf_group.specs.Group.{has_values_at, names_values, unnamed_count};

use crate::{ChannelRow, GroupRow};
use mdf_num::Memory;
use std::alloc::Global;
use std::collections::BTreeSet;

/// Adds the addresses where the channels of variable length have their values.
fn add_values(values: &mut BTreeSet<u64>, channels: &[ChannelRow]) -> Result<(), Memory>
    ensures { OnOk result ((at : ℕ) → contains nat_cmp values.new at ≡ (contains nat_cmp values.old at || list_any (has_values_at at) channels.now)) }
{
    for channel in channels {
        if channel.is_of_values() {
            values.insert(channel.values)?;
        }
    }
    Ok(())
}

/// The addresses where the channels of these groups have their values.
fn values_of(alloc: Global, rows: &[GroupRow]) -> Result<BTreeSet<u64>, Memory>
    ensures { IfOk result (λ values. (at : ℕ) → contains nat_cmp values at ≡ list_any (names_values at) rows.now) }
{
    let mut values = BTreeSet::new(alloc);
    for row in rows {
        if !row.is_variable() {
            add_values(&mut values, row.channels.as_slice())?;
        }
    }
    Ok(values)
}

/// How many groups of values no channel of these groups names.
pub(crate) fn unnamed_count(alloc: Global, rows: &[GroupRow]) -> Result<u64, Memory>
    ensures { IfOk result (λ n. n ≡ unnamed_count rows.now) }
{
    let values = values_of(alloc, rows)?;
    let mut count = 0;
    for row in rows {
        if row.is_variable() && !values.contains(&row.at) {
            count += 1;
        }
    }
    Ok(count)
}
