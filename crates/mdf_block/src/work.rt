ghost use Rattle.std.specs.Prelude.{ℕ, ◌≡◌, ◌+◌, ◌-◌, ◌^◌, ◌<◌, List, ◌++◌, map, replicate, IfOk, OnOk};
ghost use Rattle.std.specs.List.{flat_map};
ghost use Rattle.mdf_block.specs.Draft.{Placed, size_of, room_of, link_bytes, block_bytes, written, HasLink, with_link};
ghost use Rattle.mdf_block.specs.Item.{placed_of, AreLaidOut};
ghost use Rattle.mdf_block.specs.Places.{AreAddresses, front_bytes};

use crate::Link;
use crate::item::Item;
use crate::name::name_of;
use crate::places::{Places, places_of};
use crate::writing::Writing;
use mdf_num::{Memory, Pieces, align8};
use std::alloc::Global;

/// So many links that name nothing.
pub(crate) fn links_of(alloc: Global, count: u32) -> Result<Vec<Link>, Memory>
    ensures { IfOk result (λ links. links.items ≡ replicate count Link.Nothing) }
{
    Ok(vec![in alloc; Link::Nothing; count as usize]?)
}

/// How long the block is: header, links and body.
fn size_of(item: &Item) -> u64
    requires { size_of (placed_of item.now) < 2 ^ 62 }
    ensures { result ≡ size_of (placed_of item.now) }
{
    24 + 8 * item.links.len() as u64 + item.body.as_slice().len() as u64
}

/// How long it is with its filler.
pub(crate) fn room_of(item: &Item) -> u64
    requires { size_of (placed_of item.now) < 2 ^ 62 }
    ensures { result ≡ room_of (placed_of item.now) }
{
    align8(size_of(item))
}

/// Makes a link of a block name something.
pub(crate) fn set_link(items: &mut Vec<Item>, from: u32, k: u32, link: Link)
    requires { HasLink (map placed_of items.old.items) from k }
    ensures blocks { map placed_of items.new.items ≡ with_link (map placed_of items.old.items) from k link }
    ensures laid { (end : ℕ) → AreLaidOut 64 items.old.items end → AreLaidOut 64 items.new.items end }
{
    items[from as usize].links[k as usize] = link;
}

/// Adds the links at the end.
fn push_links(file: &mut Writing, places: &Places, links: &[Link]) -> Result<(), Memory>
    ensures { (blocks : List Placed) → AreAddresses blocks places.now
        → OnOk result (file.new ≡ file.old ++ flat_map (link_bytes blocks) links.now) }
{
    for link in links {
        let number = places.number(*link);
        file.push_slice(&number.to_le_bytes())?;
    }
    Ok(())
}

/// Adds fewer than 8 zero bytes at the end.
fn push_filler(file: &mut Writing, count: u64) -> Result<(), Memory>
    requires { count < 8 }
    ensures { OnOk result (file.new ≡ file.old ++ replicate count 0) }
{
    let zeros = [0u8; 8];
    file.push_slice(&zeros[..count as usize])
}

/// Adds the header and the links of a block at the end.
fn push_front(file: &mut Writing, places: &Places, item: &Item) -> Result<(), Memory>
    requires { size_of (placed_of item.now) < 2 ^ 62 }
    ensures { (blocks : List Placed) → AreAddresses blocks places.now
        → OnOk result (file.new ≡ file.old ++ front_bytes blocks (placed_of item.now)) }
{
    file.push_slice(&name_of(item.kind))?;
    file.push_slice(&[0; 4])?;
    file.push_slice(&size_of(item).to_le_bytes())?;
    file.push_slice(&(item.links.len() as u64).to_le_bytes())?;
    push_links(file, places, item.links.as_slice())
}

/// Adds a block with its filler at the end.
fn push_block(file: &mut Writing, places: &Places, item: Item) -> Result<(), Memory>
    requires { size_of (placed_of item) < 2 ^ 62 }
    ensures { (blocks : List Placed) → AreAddresses blocks places.now
        → OnOk result (file.new ≡ file.old ++ block_bytes blocks (placed_of item)) }
{
    let size = size_of(&item);
    push_front(file, places, &item)?;
    file.push_body(item.body)?;
    push_filler(file, align8(size) - size)
}

/// The whole file, behind these bytes.
pub(crate) fn pieces_of(
    alloc: Global,
    ident: &[u8; 64],
    items: Vec<Item>,
    end: u64,
) -> Result<Pieces, Memory>
    requires laid { AreLaidOut 64 items.items end }
    requires small { end < 2 ^ 62 }
    ensures { IfOk result (λ pieces. pieces ≡ written ident.now (map placed_of items.items)) }
{
    let places = places_of(alloc, items.as_slice(), end)?;
    let mut file = Writing::begin(alloc, ident)?;
    for item in items {
        push_block(&mut file, &places, item)?;
    }
    file.finish()
}
