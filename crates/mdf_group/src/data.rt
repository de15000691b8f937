ghost use Rattle.std.specs.Prelude.{◌≡◌, ◌≤◌, Ok, true};
ghost use Rattle.mdf_format.specs.declared.kind.Kind.TheVariants.{Dg};
ghost use Rattle.mdf_block.specs.Reads.{Looks, Reads};
ghost use Rattle.mdf_block.specs.Block.{IsInside, IsFilled};
ghost use Rattle.mdf_group.specs.Link.{group_refusal};
ghost use Rattle.mdf_group.specs.Group.{data_numbers, data_contents, finished_data_group, data_group, data_groups_from};

use crate::field::id_size_in;
use crate::group::groups_in;
use crate::lower::{block_of, words_of};
use crate::named::unnamed_count;
use crate::room::{DataContents, DataNumbers, DataRoom, Room};
use crate::{DataRow, GroupFault};
use mdf_block::{BlockAt, Kind, Walk, What, chain_in, link_in};
use mdf_conv::Budget;
use mdf_num::{Halt, Rows, Span, Stop};
use std::alloc::Global;

/// How many data groups a file may have, and how many channel groups and channels in all.
const MOST_DATA_GROUPS: u64 = 65_535;

const MOST_GROUPS: u64 = 65_535;

const MOST_CHANNELS: u64 = 1_048_576;

/// What a data group holds, and what may still come.
#[tactic(auto, unfolding(crate::specs::Group::data_contents))]
fn data_contents_in<P: Span>(
    alloc: Global,
    span: &mut P,
    block: &BlockAt,
    left: DataRoom,
) -> Result<(DataContents, DataRoom), Halt<GroupFault>>
    requires inside { IsInside (P.size span.old) block.now }
    requires linked { 4 ≤ block.now.links }
    ensures reads { Reads P.Span span.old span.new true group_refusal result (λ file. data_contents file block.now left) }
{
    let first = link_in(span, block, 1)?;
    let (comment, budget) = words_of(alloc, span, block, 3, left.room.budget)?;
    let start = Room {
        budget,
        ..left.room
    };
    let (rows, groups, room) = groups_in(alloc, span, first, left.groups, start)?;
    Ok((DataContents { comment, rows }, DataRoom { groups, room }))
}

/// The numbers of a data group, in its links and in its body.
fn data_numbers_in<P: Span>(span: &mut P, block: &BlockAt) -> Result<DataNumbers, Stop>
    requires inside { IsInside (P.size span.old) block.now }
    requires filled { IsFilled Dg block.now }
    ensures reads { Looks P.Span span.old span.new P.may_want result (λ file numbers. numbers ≡ data_numbers file block.now) }
{
    let next = link_in(span, block, 0)?;
    let content = link_in(span, block, 2)?;
    let id_size = id_size_in(span, block)?;
    Ok(DataNumbers {
        next,
        content,
        id_size,
    })
}

/// The data group of a block with these contents, the address of the next one, and what may still come.
fn finished_in<P: Span>(
    alloc: Global,
    span: &mut P,
    block: &BlockAt,
    contents: DataContents,
    left: DataRoom,
) -> Result<(DataRow, u64, DataRoom), Halt<GroupFault>>
    requires inside { IsInside (P.size span.old) block.now }
    requires filled { IsFilled Dg block.now }
    ensures reads { Reads P.Span span.old span.new true group_refusal result (λ file. Ok (finished_data_group file block.now contents left)) }
{
    let numbers = data_numbers_in(span, block)?;
    let unnamed = unnamed_count(alloc, contents.rows.as_slice())?;
    let row = DataRow {
        at: block.at,
        id_size: numbers.id_size,
        comment: contents.comment,
        content: numbers.content,
        groups: contents.rows,
    };
    let room = Room {
        channels: left.room.channels,
        budget: left.room.budget.with_dropped(unnamed),
    };
    let groups = left.groups;
    Ok((row, numbers.next, DataRoom { groups, room }))
}

/// The data groups of a file, along their first links.
struct DataGroups;

impl Walk for DataGroups {
    ghost use Rattle.mdf_format.specs.declared.kind.Kind.TheVariants.{Dg};
    ghost use Rattle.mdf_block.specs.declared.what.What.TheVariants as whats;
    ghost use Rattle.mdf_block.specs.Chain.{full};

    type Item = DataRow;

    type State = DataRoom;

    type Fault = GroupFault;

    ghost refusal = { group_refusal };

    ghost step = { λ _ file. data_group file };

    ghost full = { λ _ file. full whats.Dg Dg file };

    #[tactic(auto, unfolding(crate::specs::Group::data_group))]
    fn step_in<P: Span>(
        &self,
        alloc: Global,
        span: &mut P,
        at: u64,
        left: DataRoom,
    ) -> Result<(DataRow, u64, DataRoom), Halt<GroupFault>> {
        let block = block_of(span, at, Kind::Dg)?;
        let (contents, left) = data_contents_in(alloc, span, &block, left)?;
        finished_in(alloc, span, &block, contents, left)
    }

    #[tactic(auto, unfolding(mdf_block::specs::Chain::full))]
    fn full_in<P: Span>(&self, span: &mut P, at: u64) -> Halt<GroupFault> {
        match block_of(span, at, Kind::Dg) {
            Ok(_) => Halt::Fault(GroupFault::TooMany { what: What::Dg, at }),
            Err(halt) => halt,
        }
    }
}

/// The data groups from `first` on, how many more may come, and what else.
pub(crate) fn data_groups_in<P: Span>(
    alloc: Global,
    span: &mut P,
    first: u64,
    budget: Budget,
) -> Result<(Rows<DataRow>, u64, DataRoom), Halt<GroupFault>>
    ensures reads { Reads P.Span span.old span.new true group_refusal result (λ file. data_groups_from file first budget) }
{
    let start = DataRoom {
        groups: MOST_GROUPS,
        room: Room {
            channels: MOST_CHANNELS,
            budget,
        },
    };
    chain_in(alloc, &DataGroups, span, first, MOST_DATA_GROUPS, start)
}
