ghost use Rattle.std.specs.Prelude.{◌≡◌, ℕ, List, Some, true, IfOk, IfErr, IfSome, OnErr};
ghost use Rattle.mdf_block.specs.Refusal.{GivesAnd, GivesSlice};
ghost use Rattle.mdf_block.specs.Reads.{Reads, Says};
ghost use Rattle.mdf_block.specs.Truth.{IsTrueOf};
ghost use Rattle.mdf_conv.specs.Cost.{Spends};
ghost use Rattle.mdf_group.specs.Link.{group_refusal};
ghost use Rattle.mdf_group.specs.Group.{groups};
ghost use Rattle.mdf_group.specs.Cost.{AreFew, rows_cost};
ghost use Rattle.mdf_group.specs.Standing.{AreDataGroups};

use crate::data::data_groups_in;
use crate::{DataRow, GroupFault};
use mdf_conv::Budget;
use mdf_num::{Halt, Rows, SliceSpan, Span};
use std::alloc::Global;

/// The data groups from `first` on, and what may still come.
#[tactic(auto, unfolding(crate::specs::Group::groups))]
fn all_in<P: Span>(
    alloc: Global,
    span: &mut P,
    first: u64,
    budget: Budget,
) -> Result<(Rows<DataRow>, Budget), Halt<GroupFault>>
    ensures reads { Reads P.Span span.old span.new true group_refusal result (λ file. groups file first budget) }
    ensures few { (f : List ℕ) → P.bytes span.old ≡ Some f → IfOk result (λ found. AreFew found.0) }
    ensures spent { (f : List ℕ) → P.bytes span.old ≡ Some f → IfOk result (λ found. Spends budget (rows_cost f found.0) found.1) }
{
    let (rows, _, left) = data_groups_in(alloc, span, first, budget)?;
    Ok((rows, left.room.budget))
}

/// The data groups (DGBLOCKs) from `first` on, read through a span. The budget falls by what is read. After a refusal it
/// is as before.
///
/// # Errors
/// As `read_groups`, and the span's own.
pub fn read_groups_in<P: Span>(
    alloc: Global,
    span: &mut P,
    first: u64,
    budget: &mut Budget,
) -> Result<Rows<DataRow>, Halt<GroupFault>>
    ensures reads { Says P.Span span.old span.new true group_refusal result (λ file. GivesAnd group_refusal result budget.new (groups file first budget.old)) }
    ensures found { (f : List ℕ) → P.bytes span.old ≡ Some f → IfOk result (AreDataGroups f first) }
    ensures few { (f : List ℕ) → P.bytes span.old ≡ Some f → IfOk result AreFew }
    ensures spent { (f : List ℕ) → P.bytes span.old ≡ Some f → IfOk result (λ rows. Spends budget.old (rows_cost f rows) budget.new) }
    ensures budget { OnErr result (budget.new ≡ budget.old) }
{
    let (rows, left) = all_in(alloc, span, first, *budget)?;
    *budget = left;
    Ok(rows)
}

/// The data groups (DGBLOCKs) from `first` on, each with its channel groups (CGBLOCKs), and each of these with its
/// channels (CNBLOCKs), in the order of their links: at most 65,535 data groups, 65,535 channel groups and 1,048,576
/// channels in all. The budget falls by the bytes of the texts, by one for each conversion and by the bytes of its
/// block, again for each channel that names it. Counted as dropped are links that name something and are passed over:
/// the first sample reduction of a channel group, the composition of a channel and its links after the eighth, the
/// inverse of a conversion; and a group of values of variable length that no channel of its data group names. After a
/// refusal the budget is as before.
///
/// # Errors
/// The first fault in the order of the links, in which each block stands before what it leads to: of a data group its
/// comment and its channel groups; of a channel group its name, its source, its comment and its channels; of a channel
/// its kind, its data type, its name, its source, its conversion, its unit and its comment. `Bad` exactly where no block
/// of the kind stands whole, `TooMany` exactly where one more than the limit is reached or a text is longer than may
/// come, `ChannelKind` exactly where a channel's kind is 4, 5 or over 6, `ChannelType` exactly where its data type is
/// over 14, `Deep` exactly where a conversion is the fifth that is open; and `Memory`, also where the blocks of
/// conversions have more bytes than may come.
pub fn read_groups(
    alloc: Global,
    bytes: &[u8],
    first: u64,
    budget: &mut Budget,
) -> Result<Rows<DataRow>, GroupFault>
    ensures exact { GivesSlice group_refusal result budget.new (groups bytes.now first budget.old) }
    ensures found { IfOk result (AreDataGroups bytes.now first) }
    ensures few { IfOk result AreFew }
    ensures spent { IfOk result (λ rows. Spends budget.old (rows_cost bytes.now rows) budget.new) }
    ensures refused { IfErr result (λ fault. IfSome (group_refusal fault) (IsTrueOf bytes.now)) }
    ensures budget { OnErr result (budget.new ≡ budget.old) }
{
    match read_groups_in(alloc, &mut SliceSpan::new(bytes), first, budget) {
        Ok(rows) => Ok(rows),
        Err(Halt::Fault(fault)) => Err(fault),
        Err(Halt::Failed) => unreachable!(),
        Err(Halt::Memory) => Err(GroupFault::Memory),
    }
}
