ghost use Rattle.std.specs.Prelude.{◌≡◌, ◌-◌, ◌≤◌, ◌++◌, length, min, IfOk, OnOk};
ghost use Rattle.mdf_block.specs.Block.{IsInside};
ghost use Rattle.mdf_stream.specs.Link.{most_blocks};
ghost use Rattle.mdf_stream.specs.Stream.{links_from};
ghost use Rattle.tool_complete.specs.Named.{data_names, listed_from};

use mdf_block::{BlockAt, Kind, block_at, link_of};
use mdf_num::{Memory, Rows};
use mdf_stream::MOST_BLOCKS;
use std::alloc::Global;

/// Adds what the links of a DLBLOCK after the first name, at most so many.
fn add_links(names: &mut Rows<u64>, bytes: &[u8], list: &BlockAt, most: u64) -> Result<(), Memory>
    requires inside { IsInside (length bytes.now) list.now }
    requires linked { 1 ≤ list.now.links }
    ensures { OnOk result (names.new ≡ names.old ++ links_from bytes.now list.now.at 1 (min most (list.now.links - 1))) }
{
    let count = most.min(list.links - 1);
    for k in 0..count {
        names.push(link_of(bytes, list, k + 1))?;
    }
    Ok(())
}

/// Adds the addresses that the DLBLOCKs from `link` on list, as far as these stand one behind the other and a data link may lead.
fn add_listed(names: &mut Rows<u64>, bytes: &[u8], link: u64) -> Result<(), Memory>
    ensures { OnOk result (names.new ≡ names.old ++ listed_from bytes.now most_blocks most_blocks link) }
{
    let mut at = link;
    let mut left = MOST_BLOCKS;
    while left > 0 {
        let Ok(list) = block_at(bytes, at, Kind::Dl) else {
            return Ok(());
        };
        add_links(names, bytes, &list, left - 1)?;
        at = link_of(bytes, &list, 0);
        left = left.saturating_sub(list.links);
    }
    Ok(())
}

/// The addresses that a data link names: its own, and those that DLBLOCKs list.
pub(crate) fn data_names(alloc: Global, bytes: &[u8], link: u64) -> Result<Rows<u64>, Memory>
    ensures { IfOk result (λ names. names ≡ data_names bytes.now link) }
{
    let mut names = Rows::empty(alloc);
    names.push(link)?;
    add_listed(&mut names, bytes, link)?;
    Ok(names)
}
