ghost use Rattle.std.specs.Prelude.{◌≡◌, ◌++◌, ◌&&◌, nat_eq, map, filter, IfOk, OnOk};
ghost use Rattle.mdf_group.specs.Group.{is_variable};
ghost use Rattle.mdf_group.specs.Recordable.{is_of_values};
ghost use Rattle.mdf_spell.specs.Values.{group_numbers, values_group, named_groups, stream_link, stream_behind, with_streams};

use mdf_block::Link;
use mdf_group::{ChannelRow, GroupRow};
use mdf_num::Memory;
use mdf_tree::{group_places, plus};
use std::alloc::Global;

/// The numbers of the blocks of channel groups, the first of which is block n.
pub(crate) fn group_numbers(alloc: Global, n: u32, rows: &[GroupRow]) -> Result<Vec<u32>, Memory>
    ensures { IfOk result (λ numbers. numbers.items ≡ group_numbers n rows.now) }
{
    let mut numbers = Vec::new(alloc);
    let mut at = n;
    for row in rows {
        numbers.push(at)?;
        at = group_places(at, row)?.past;
    }
    Ok(numbers)
}

/// Whether the group is one of values, and at this address.
fn is_at(row: &GroupRow, at: u64) -> bool
    ensures { result ≡ (is_variable row.now && nat_eq row.now.at at) }
{
    row.is_variable() && row.at == at
}

/// The link to the group of values at an address, if there is one.
fn values_group(rows: &[GroupRow], numbers: &[u32], at: u64) -> Link
    ensures { result ≡ values_group rows.now numbers.now at }
{
    let mut i = 0;
    while i < rows.len() && i < numbers.len() {
        if is_at(&rows[i], at) {
            return Link::Block(numbers[i]);
        }
        i += 1;
    }
    Link::Nothing
}

/// Adds the links of channels of variable length to their groups of values.
fn push_names(
    names: &mut Vec<Link>,
    rows: &[GroupRow],
    numbers: &[u32],
    channels: &[ChannelRow],
) -> Result<(), Memory>
    ensures { OnOk result (names.new.items ≡ names.old.items ++ map (λ channel. values_group rows.now numbers.now channel.values) (filter is_of_values channels.now)) }
{
    for channel in channels {
        if channel.is_of_values() {
            names.push(values_group(rows, numbers, channel.values))?;
        }
    }
    Ok(())
}

/// For each channel of variable length in order the link to its group of values, or nothing.
pub(crate) fn named_groups(
    alloc: Global,
    rows: &[GroupRow],
    numbers: &[u32],
) -> Result<Vec<Link>, Memory>
    ensures { IfOk result (λ names. names.items ≡ named_groups rows.now numbers.now) }
{
    let mut names = Vec::new(alloc);
    for row in rows {
        if !row.is_variable() {
            push_names(&mut names, rows, numbers, row.channels.as_slice())?;
        }
    }
    Ok(names)
}

/// The link of a channel of variable length: to its group of values, or to block n.
fn stream_link(n: u32, name: &Link) -> Link
    ensures { result ≡ stream_link n name.now }
{
    match name {
        Link::Nothing => Link::Block(n),
        Link::Block(_) | Link::End => *name,
    }
}

/// The next block of values behind that channel.
fn stream_behind(n: u32, name: &Link) -> Result<u32, Memory>
    ensures { IfOk result (λ next. next ≡ stream_behind n name.now) }
{
    match name {
        Link::Nothing => plus(n, 1),
        Link::Block(_) | Link::End => Ok(n),
    }
}

/// The same, where those that name no group of values name blocks of values from block n on.
pub(crate) fn with_streams(alloc: Global, n: u32, names: &[Link]) -> Result<Vec<Link>, Memory>
    ensures { IfOk result (λ links. links.items ≡ with_streams n names.now) }
{
    let mut links = Vec::new(alloc);
    let mut at = n;
    for name in names {
        links.push(stream_link(at, name))?;
        at = stream_behind(at, name)?;
    }
    Ok(links)
}
