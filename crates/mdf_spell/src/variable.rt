ghost use Rattle.std.specs.Prelude.{◌≡◌, length, filter, IfOk};
ghost use Rattle.mdf_group.specs.Recordable.{is_of_values};
ghost use Rattle.mdf_spell.specs.Recording.{block_links, variable_count};

use mdf_block::Link;
use mdf_group::{ChannelRow, GroupRow};
use mdf_num::Memory;
use mdf_tree::plus;
use std::alloc::Global;

/// How many channels have values of variable length.
fn variable_channels(rows: &[ChannelRow]) -> Result<u32, Memory>
    ensures { IfOk result (λ count. count ≡ length (filter is_of_values rows.now)) }
{
    let mut count = 0;
    for row in rows {
        if row.is_of_values() {
            count = plus(count, 1)?;
        }
    }
    Ok(count)
}

/// How many channels of these groups have values of variable length.
pub(crate) fn variable_count(rows: &[GroupRow]) -> Result<u32, Memory>
    ensures { IfOk result (λ count. count ≡ variable_count rows.now) }
{
    let mut count = 0;
    for row in rows {
        count = plus(count, variable_channels(row.channels.as_slice())?)?;
    }
    Ok(count)
}

/// Links to so many blocks, one behind the other, from block n on.
///
/// # Errors
/// `Memory` where memory runs out, or where there are more than 2^30 blocks.
pub fn block_links(alloc: Global, n: u32, count: u32) -> Result<Vec<Link>, Memory>
    ensures { IfOk result (λ links. links.items ≡ block_links n count) }
{
    let mut links = Vec::new(alloc);
    let mut at = n;
    let mut left = count;
    while left > 0 {
        links.push(Link::Block(at))?;
        at = plus(at, 1)?;
        left -= 1;
    }
    Ok(links)
}
