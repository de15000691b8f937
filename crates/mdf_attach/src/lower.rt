ghost use Rattle.std.specs.Prelude.{◌≡◌, ◌<◌, false, true, IfOk};
ghost use Rattle.mdf_format.specs.Block.{link_at};
ghost use Rattle.mdf_block.specs.Reads.{Reads};
ghost use Rattle.mdf_block.specs.Block.{block, is_data, IsInside, IsFilled};
ghost use Rattle.mdf_block.specs.Text.{note};
ghost use Rattle.mdf_attach.specs.Listed.{list_refusal};

use crate::fault::ListFault;
use mdf_block::{BlockAt, BlockFault, Kind, Note, NoteFault, What, block_in, link_in, noted_in};
use mdf_num::{Halt, Span};
use std::alloc::Global;

/// A block of a kind that holds no data, with the faults of a list.
pub(crate) fn block_of<P: Span>(
    span: &mut P,
    at: u64,
    want: Kind,
) -> Result<BlockAt, Halt<ListFault>>
    requires { is_data want ≡ false }
    ensures reads { Reads P.Span span.old span.new P.may_want list_refusal result (λ file. block file at want) }
    ensures inside { IfOk result (IsInside (P.size span.old)) }
    ensures filled { IfOk result (IsFilled want) }
{
    match block_in(span, at, want) {
        Ok(block) => Ok(block),
        Err(Halt::Fault(BlockFault::Bad { at, want })) => Err(Halt::Fault(ListFault::Bad {
            at,
            want,
        })),
        Err(Halt::Fault(BlockFault::Compressed { .. })) => unreachable!(),
        Err(Halt::Failed) => Err(Halt::Failed),
        Err(Halt::Memory) => Err(Halt::Memory),
    }
}

/// The text that link `k` of a block names, with the faults of a list, and how many bytes of texts may still come.
pub(crate) fn text_of<P: Span>(
    alloc: Global,
    span: &mut P,
    block: &BlockAt,
    k: u64,
    left: u64,
) -> Result<(Note, u64), Halt<ListFault>>
    requires inside { IsInside (P.size span.old) block.now }
    requires number { k < block.now.links }
    ensures reads { Reads P.Span span.old span.new true list_refusal result (λ file. note file (link_at file block.now.at k) left) }
{
    let at = link_in(span, block, k)?;
    match noted_in(alloc, span, at, left) {
        Ok(found) => Ok(found),
        Err(Halt::Fault(NoteFault::Bad { at })) => Err(Halt::Fault(ListFault::Bad {
            at,
            want: Kind::Tx,
        })),
        Err(Halt::Fault(NoteFault::TooMany { at })) => Err(Halt::Fault(ListFault::TooMany {
            what: What::Text,
            at,
        })),
        Err(Halt::Fault(NoteFault::Memory)) => unreachable!(),
        Err(Halt::Failed) => Err(Halt::Failed),
        Err(Halt::Memory) => Err(Halt::Memory),
    }
}
