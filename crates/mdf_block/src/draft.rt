ghost use Rattle.std.specs.Prelude.{◌≡◌, ◌+◌, ◌^◌, ◌<◌, ◌≤◌, ◌↔◌, [], ◌∷◌, ◌++◌, length, IsTrue, IfOk, OnOk, OnErr};
ghost use Rattle.mdf_block.specs.Draft.{Placed, unlinked, linked, end_of, address_of, written, HasLink, with_link, AllStand};

use crate::Link;
use crate::item::Item;
use crate::work::{links_of, pieces_of, room_of, set_link};
use mdf_format::Kind;
use mdf_num::{Bytes, Memory, Pieces};
use std::alloc::Global;
use std::marker::Model;

/// `place_linked` answers want of memory from so many blocks on, and for a block with so many links.
const MOST: usize = 1 << 31;

/// The longest body, in bytes, that `place_linked` takes.
const BODY: usize = 1 << 60;

/// `place_linked` answers want of memory where the file would go on past this address.
const END: u64 = 1 << 61;

/// Whether blocks, or the links of a block, are few enough.
fn are_few(count: usize) -> bool
    ensures { IsTrue result ↔ (count < 2 ^ 31) }
{
    count < MOST
}

/// Whether a body is short enough.
fn is_short(body: usize) -> bool
    ensures { IsTrue result ↔ (body ≤ 2 ^ 60) }
{
    body <= BODY
}

/// Whether a file that ends here may go on.
fn may_go_on(end: u64) -> bool
    ensures { IsTrue result ↔ (end ≤ 2 ^ 61) }
{
    end <= END
}

/// A file to be written: blocks behind the 64 bytes of the identification, each at the next multiple of 8. Contracts
/// see it as the list of its blocks.
#[derive(Drop)]
pub struct Draft {
    items: Vec<Item>,
    end: u64,
}

impl Model for Draft {
    ghost use Rattle.std.specs.Prelude.{List, map, ◌<◌, ◌^◌};
    ghost use Rattle.mdf_block.specs.Draft.{Placed};
    ghost use Rattle.mdf_block.specs.Item.{placed_of, AreLaidOut};

    ghost Value = { List Placed };

    ghost view = { λ d. map placed_of d.items.items };

    ghost invariant = { λ d. AreLaidOut 64 d.items.items d.end × (d.end < 2 ^ 62) };
}

impl Draft {
    /// No block. It takes no memory.
    pub fn new(alloc: Global) -> Draft
        ensures { result ≡ [] }
    {
        Draft {
            items: Vec::new(alloc),
            end: 64,
        }
    }

    /// How many blocks there are.
    pub fn len(&self) -> u64
        ensures { result ≡ length self.now }
    {
        self.items.len() as u64
    }

    /// Places a block with these links, which may name blocks that are not there yet. It wants memory where the file
    /// or the block is longer than any memory: 2^31 blocks or links, a body above 2^60 bytes, or a file above 2^61.
    /// After an error the draft is as before.
    pub fn place_linked(&mut self, kind: Kind, links: Vec<Link>, body: Bytes) -> Result<(), Memory>
        ensures ok { OnOk result (self.new ≡ self.old ++ linked kind links.items body ∷ []) }
        ensures err { OnErr result (self.new ≡ self.old) }
    {
        if !are_few(self.items.len())
            || !are_few(links.len())
            || !is_short(body.as_slice().len())
            || !may_go_on(self.end)
        {
            return Err(Memory);
        }
        let item = Item {
            kind,
            at: self.end,
            links,
            body,
        };
        let room = room_of(&item);
        self.items.push(item)?;
        self.end += room;
        Ok(())
    }

    /// Places a block with all its links 0, and answers its number. After an error the draft is as before.
    pub fn place(&mut self, kind: Kind, links: u32, body: Bytes) -> Result<u32, Memory>
        requires few { length self.old + 1 < 2 ^ 32 }
        requires room { end_of (self.old ++ unlinked kind links body ∷ []) < 2 ^ 62 }
        ensures ok { OnOk result (self.new ≡ self.old ++ unlinked kind links body ∷ []) }
        ensures number { IfOk result (λ n. n ≡ length self.old) }
        ensures err { OnErr result (self.new ≡ self.old) }
    {
        let number = self.items.len() as u32;
        let links = links_of(*self.items.allocator(), links)?;
        self.place_linked(kind, links, body)?;
        Ok(number)
    }

    /// Makes link `k` of block `from` name block `to`. A number at or past the count of blocks names the end.
    pub fn link(&mut self, from: u32, k: u32, to: u32)
        requires { HasLink self.old from k }
        ensures { self.new ≡ with_link self.old from k (Link.Block to) }
    {
        set_link(&mut self.items, from, k, Link::Block(to));
    }

    /// Makes link `k` of block `from` name the address that `end` gives when the bytes are written.
    pub fn link_end(&mut self, from: u32, k: u32)
        requires { HasLink self.old from k }
        ensures { self.new ≡ with_link self.old from k Link.End }
    {
        set_link(&mut self.items, from, k, Link::End);
    }

    /// The address of block `n`.
    pub fn address(&self, n: u32) -> u64
        requires { n < length self.now }
        ensures { result ≡ address_of self.now n }
    {
        self.items[n as usize].at
    }

    /// The address behind the last block and its filler.
    pub fn end(&self) -> u64
        ensures end { result ≡ end_of self.now }
        ensures small { result < 2 ^ 62 }
    {
        self.end
    }

    /// The whole file: these 64 bytes, and each block at its address with its links, its body, and zero bytes as
    /// filler. A body of 4,096 bytes or more is not copied. What is in front of it, and what is behind it, is joined.
    pub fn into_pieces(self, ident: &[u8; 64]) -> Result<Pieces, Memory>
        ensures is { IfOk result (λ pieces. pieces ≡ written ident.now self) }
        ensures len { IfOk result (λ pieces. length pieces ≡ end_of self) }
        ensures stand { IfOk result (λ pieces. AllStand pieces self) }
    {
        let Draft { items, end } = self;
        pieces_of(*items.allocator(), ident, items, end)
    }

    /// The same in one piece, which is copied once more.
    pub fn bytes(self, ident: &[u8; 64]) -> Result<Bytes, Memory>
        ensures is { IfOk result (λ bytes. bytes ≡ written ident.now self) }
        ensures len { IfOk result (λ bytes. length bytes ≡ end_of self) }
        ensures stand { IfOk result (λ bytes. AllStand bytes self) }
    {
        let pieces = self.into_pieces(ident)?;
        pieces.joined()
    }
}
