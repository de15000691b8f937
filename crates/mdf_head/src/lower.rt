ghost use Rattle.std.specs.Prelude.{◌≡◌, ℕ, List, Some, false, true, IfOk};
ghost use Rattle.mdf_block.specs.Refusal.{HidesNone};
ghost use Rattle.mdf_block.specs.Reads.{Reads};
ghost use Rattle.mdf_block.specs.Block.{block, is_data, IsInside, IsFilled};
ghost use Rattle.mdf_block.specs.Text.{note};
ghost use Rattle.mdf_head.specs.Head.{head_refusal};

use crate::HeadFault;
use mdf_block::{BlockAt, BlockFault, Kind, Note, block_in, noted_in};
use mdf_num::{Halt, Span};
use std::alloc::Global;

/// A block of a kind that holds no data, with the faults of this crate.
pub(crate) fn block_of<P: Span>(
    span: &mut P,
    at: u64,
    want: Kind,
) -> Result<BlockAt, Halt<HeadFault>>
    requires { is_data want ≡ false }
    ensures reads { Reads P.Span span.old span.new P.may_want head_refusal result (λ file. block file at want) }
    ensures inside { IfOk result (IsInside (P.size span.old)) }
    ensures filled { IfOk result (IsFilled want) }
{
    match block_in(span, at, want) {
        Ok(block) => Ok(block),
        Err(Halt::Fault(BlockFault::Bad { at, want })) => Err(Halt::Fault(HeadFault::Bad {
            at,
            want,
        })),
        Err(Halt::Fault(BlockFault::Compressed { .. })) => unreachable!(),
        Err(Halt::Failed) => Err(Halt::Failed),
        Err(Halt::Memory) => Err(Halt::Memory),
    }
}

/// The text that a link names, with the faults of this crate.
pub(crate) fn text_of<P: Span>(
    alloc: Global,
    span: &mut P,
    at: u64,
    left: u64,
) -> Result<(Note, u64), Halt<HeadFault>>
    ensures reads { Reads P.Span span.old span.new true head_refusal result (λ file. note file at left) }
    ensures memory { (f : List ℕ) → P.bytes span.old ≡ Some f → HidesNone P.may_want result (note f at left) }
{
    noted_in(alloc, span, at, left).map_err(Halt::raised)
}
