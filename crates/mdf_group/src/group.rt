ghost use Rattle.std.specs.Prelude.{◌≡◌, ◌≤◌, true};
ghost use Rattle.mdf_format.specs.declared.kind.Kind.TheVariants.{Cg};
ghost use Rattle.mdf_block.specs.Reads.{Looks, Reads};
ghost use Rattle.mdf_block.specs.Block.{IsInside, IsFilled};
ghost use Rattle.mdf_group.specs.Link.{group_links, group_refusal};
ghost use Rattle.mdf_group.specs.Group.{group_numbers, group_contents, group_with, group, groups_from};

use crate::channel::channels_in;
use crate::field::{group_front_in, group_of};
use crate::lower::{beside, block_of, label_in, words_of};
use crate::room::{GroupContents, GroupLinks, GroupNumbers, Room};
use crate::{GroupFault, GroupRow};
use mdf_block::{BlockAt, Kind, Walk, What, chain_in, link_in};
use mdf_conv::{Budget, link_count};
use mdf_num::{Halt, Rows, Span, Stop};
use std::alloc::Global;

/// What the links of a channel group lead to, and what may still come.
#[tactic(auto, unfolding(crate::specs::Link::group_links))]
fn group_links_in<P: Span>(
    alloc: Global,
    span: &mut P,
    block: &BlockAt,
    budget: Budget,
) -> Result<(GroupLinks, Budget), Halt<GroupFault>>
    requires inside { IsInside (P.size span.old) block.now }
    requires linked { 6 ≤ block.now.links }
    ensures reads { Reads P.Span span.old span.new true group_refusal result (λ file. group_links file block.now.at budget) }
{
    let (label, left) = label_in(alloc, span, block, budget)?;
    let comment = words_of(alloc, span, block, 5, left);
    let (label, (comment, left)) = beside(label, comment)?;
    let links = GroupLinks {
        name: label.name,
        source: label.source,
        comment,
    };
    Ok((links, left))
}

/// What a channel group holds, and what may still come.
#[tactic(auto, unfolding(crate::specs::Group::group_contents))]
fn group_contents_in<P: Span>(
    alloc: Global,
    span: &mut P,
    block: &BlockAt,
    room: Room,
) -> Result<(GroupContents, Room), Halt<GroupFault>>
    requires inside { IsInside (P.size span.old) block.now }
    requires linked { 6 ≤ block.now.links }
    ensures reads { Reads P.Span span.old span.new true group_refusal result (λ file. group_contents file block.now room) }
{
    let first = link_in(span, block, 1)?;
    let (links, left) = group_links_in(alloc, span, block, room.budget)?;
    let found = channels_in(alloc, span, first, room.channels, left);
    let (links, (rows, channels, budget)) = beside(links, found)?;
    Ok((GroupContents { links, rows }, Room { channels, budget }))
}

/// The numbers of a channel group, in its links and in its body.
fn group_numbers_in<P: Span>(span: &mut P, block: &BlockAt) -> Result<GroupNumbers, Stop>
    requires inside { IsInside (P.size span.old) block.now }
    requires filled { IsFilled Cg block.now }
    ensures reads { Looks P.Span span.old span.new P.may_want result (λ file numbers. numbers ≡ group_numbers file block.now) }
{
    let next = link_in(span, block, 0)?;
    let reduction = link_in(span, block, 4)?;
    let front = group_front_in(span, block)?;
    Ok(GroupNumbers {
        next,
        reduced: link_count(reduction),
        front,
    })
}

/// The channel group at an address with these numbers and contents, the address of the next one, and what may still
/// come.
fn finished(
    at: u64,
    numbers: GroupNumbers,
    contents: GroupContents,
    room: Room,
) -> (GroupRow, u64, Room)
    ensures { result ≡ group_with at numbers contents room }
{
    let row = group_of(at, numbers.front, contents.links, contents.rows);
    let left = Room {
        channels: room.channels,
        budget: room.budget.with_dropped(numbers.reduced),
    };
    (row, numbers.next, left)
}

/// The channel groups of a data group, along their first links.
struct Groups;

impl Walk for Groups {
    ghost use Rattle.mdf_format.specs.declared.kind.Kind.TheVariants.{Cg};
    ghost use Rattle.mdf_block.specs.declared.what.What.TheVariants as whats;
    ghost use Rattle.mdf_block.specs.Chain.{full};

    type Item = GroupRow;

    type State = Room;

    type Fault = GroupFault;

    ghost refusal = { group_refusal };

    ghost step = { λ _ file. group file };

    ghost full = { λ _ file. full whats.Cg Cg file };

    #[tactic(auto, unfolding(crate::specs::Group::group))]
    fn step_in<P: Span>(
        &self,
        alloc: Global,
        span: &mut P,
        at: u64,
        room: Room,
    ) -> Result<(GroupRow, u64, Room), Halt<GroupFault>> {
        let block = block_of(span, at, Kind::Cg)?;
        let numbers = group_numbers_in(span, &block)?;
        let (contents, left) = group_contents_in(alloc, span, &block, room)?;
        Ok(finished(block.at, numbers, contents, left))
    }

    #[tactic(auto, unfolding(mdf_block::specs::Chain::full))]
    fn full_in<P: Span>(&self, span: &mut P, at: u64) -> Halt<GroupFault> {
        match block_of(span, at, Kind::Cg) {
            Ok(_) => Halt::Fault(GroupFault::TooMany { what: What::Cg, at }),
            Err(halt) => halt,
        }
    }
}

/// The channel groups from `first` on, how many more may come, and what else.
pub(crate) fn groups_in<P: Span>(
    alloc: Global,
    span: &mut P,
    first: u64,
    most: u64,
    start: Room,
) -> Result<(Rows<GroupRow>, u64, Room), Halt<GroupFault>>
    ensures reads { Reads P.Span span.old span.new true group_refusal result (λ file. groups_from file most first start) }
{
    chain_in(alloc, &Groups, span, first, most, start)
}
