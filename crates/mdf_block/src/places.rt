ghost use Rattle.std.specs.Prelude.{◌≡◌, List, IfOk, map};
ghost use Rattle.mdf_block.specs.Draft.{Placed, link_number};
ghost use Rattle.mdf_block.specs.Item.{placed_of, AreLaidOut};
ghost use Rattle.mdf_block.specs.Places.{AreAddresses};

use crate::Link;
use crate::item::Item;
use mdf_num::Memory;
use std::alloc::Global;

/// Where each block of a draft stands, and where the last one ends.
#[derive(Drop)]
pub(crate) struct Places {
    starts: Vec<u64>,
    end: u64,
}

/// Those of the items of a draft.
pub(crate) fn places_of(alloc: Global, items: &[Item], end: u64) -> Result<Places, Memory>
    requires { AreLaidOut 64 items.now end }
    ensures { IfOk result (AreAddresses (map placed_of items.now)) }
{
    let mut starts = Vec::with_capacity(alloc, items.len())?;
    for item in items {
        starts.push(item.at)?;
    }
    Ok(Places { starts, end })
}

impl Places {
    /// The number that is written for a link.
    pub(crate) fn number(&self, link: Link) -> u64
        ensures { (blocks : List Placed) → AreAddresses blocks self.now → result ≡ link_number blocks link }
    {
        match link {
            Link::Nothing => 0,
            Link::Block(n) => match self.starts.get(n as usize) {
                Some(start) => *start,
                None => self.end,
            },
            Link::End => self.end,
        }
    }
}
