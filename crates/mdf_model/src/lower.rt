ghost use Rattle.std.specs.Prelude.{true, IfOk};
ghost use Rattle.mdf_block.specs.Reads.{Reads};
ghost use Rattle.mdf_block.specs.Block.{block, IsInside, IsFilled};
ghost use Rattle.mdf_head.specs.Head.{head};
ghost use Rattle.mdf_group.specs.Group.{groups};
ghost use Rattle.mdf_content.specs.Fault.{read_refusal};
ghost use Rattle.mdf_model.specs.Tree.{header_of};

use mdf_block::{BlockAt, Kind, block_in};
use mdf_content::ReadFault;
use mdf_conv::Budget;
use mdf_group::{DataRow, read_groups_in};
use mdf_head::{Head, History, read_head_in};
use mdf_num::{Halt, Rows, Span};
use std::alloc::Global;

/// A block, with the faults of reading.
pub(crate) fn block_of<P: Span>(
    span: &mut P,
    at: u64,
    want: Kind,
) -> Result<BlockAt, Halt<ReadFault>>
    ensures reads { Reads P.Span span.old span.new P.may_want read_refusal result (λ file. block file at want) }
    ensures inside { IfOk result (IsInside (P.size span.old)) }
    ensures filled { IfOk result (IsFilled want) }
{
    block_in(span, at, want).map_err(Halt::raised)
}

/// The header and the file history, with the faults of reading, and how many bytes of text may still come.
fn head_of<P: Span>(
    alloc: Global,
    span: &mut P,
    text: u64,
) -> Result<((Head, Rows<History>), u64), Halt<ReadFault>>
    ensures reads { Reads P.Span span.old span.new true read_refusal result (λ file. head file text) }
{
    let mut left = text;
    match read_head_in(alloc, span, &mut left) {
        Ok(found) => Ok((found, left)),
        Err(halt) => Err(halt.raised()),
    }
}

/// The header and the file history, with the faults of reading, and what may still come.
pub(crate) fn header_of<P: Span>(
    alloc: Global,
    span: &mut P,
    budget: Budget,
) -> Result<(Head, Rows<History>, Budget), Halt<ReadFault>>
    ensures reads { Reads P.Span span.old span.new true read_refusal result (λ file. header_of file budget) }
{
    let ((head, history), text) = head_of(alloc, span, budget.text)?;
    Ok((head, history, Budget { text, ..budget }))
}

/// The data groups, with the faults of reading, and what may still come.
pub(crate) fn groups_of<P: Span>(
    alloc: Global,
    span: &mut P,
    first: u64,
    budget: Budget,
) -> Result<(Rows<DataRow>, Budget), Halt<ReadFault>>
    ensures reads { Reads P.Span span.old span.new true read_refusal result (λ file. groups file first budget) }
{
    let mut left = budget;
    match read_groups_in(alloc, span, first, &mut left) {
        Ok(rows) => Ok((rows, left)),
        Err(halt) => Err(halt.raised()),
    }
}
