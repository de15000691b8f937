ghost use Rattle.std.specs.Prelude.{◌≡◌, map, IfOk};
ghost use Rattle.std.specs.List.{list_any};
ghost use Rattle.mdf_group.specs.Recordable.{is_of_values};
ghost use Rattle.mdf_content.specs.Kept.{is_counted, is_without_values};

use mdf_group::{ChannelRow, GroupRow};
use mdf_num::{Memory, Rows};
use std::alloc::Global;

/// Of which channel groups (CGBLOCKs) the places of the records are kept, where the records have ids. Those of the others are
/// counted alone.
#[derive(Clone, Copy)]
pub enum Wanted {
    /// Of each.
    Every,
    /// Of those that hold values of variable length, and of those with a channel whose offsets lead to such values.
    Values,
    /// Of these, and of each that stands at this address.
    Group { at: u64 },
}

/// Whether one of the channels is of variable length.
fn has_variable(channels: &[ChannelRow]) -> bool
    ensures { result ≡ list_any is_of_values channels.now }
{
    let mut found = false;
    for channel in channels {
        if channel.is_of_values() {
            found = true;
        }
    }
    found
}

/// Whether the records of the group hold no values of variable length, and have no offset of one.
fn is_without_values(group: &GroupRow) -> bool
    ensures { result ≡ is_without_values group.now }
{
    !group.is_variable() && !has_variable(group.channels.as_slice())
}

/// Whether the records of the group are counted alone.
fn is_counted(wanted: Wanted, group: &GroupRow) -> bool
    ensures { result ≡ is_counted wanted group.now }
{
    match wanted {
        Wanted::Every => false,
        Wanted::Values => is_without_values(group),
        Wanted::Group { at } => is_without_values(group) && group.at != at,
    }
}

/// Of each group whether its records are counted alone.
pub(crate) fn counted_alone(
    alloc: Global,
    wanted: Wanted,
    groups: &[GroupRow],
) -> Result<Rows<bool>, Memory>
    ensures { IfOk result (λ counted. counted ≡ map (is_counted wanted) groups.now) }
{
    let mut counted = Rows::empty(alloc);
    for group in groups {
        counted.push(is_counted(wanted, group))?;
    }
    Ok(counted)
}
