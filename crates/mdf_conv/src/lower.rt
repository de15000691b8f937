ghost use Rattle.std.specs.Prelude.{◌≡◌, ℕ, List, Some, false, true, IfOk};
ghost use Rattle.mdf_format.specs.declared.kind.Kind.{Kind};
ghost use Rattle.mdf_format.specs.declared.kind.Kind.TheVariants as kinds;
ghost use Rattle.mdf_block.specs.Reads.{Looks, Reads};
ghost use Rattle.mdf_block.specs.Block.{block, is_data, is_named, IsInside, IsFilled};
ghost use Rattle.mdf_block.specs.Text.{note};
ghost use Rattle.mdf_conv.specs.Conv.{words, HoldsValues, conv_refusal};

use crate::{Budget, ConvFault};
use mdf_block::{BlockAt, BlockFault, Kind, Note, block_in, kind_in, noted_in};
use mdf_num::{Halt, Span, Stop};
use std::alloc::Global;

/// A block of a kind that holds no data, with the faults of this crate.
///
/// # Errors
/// `Bad` exactly where no block of that kind stands whole at the address; and the span's own.
pub fn block_with<P: Span>(span: &mut P, at: u64, want: Kind) -> Result<BlockAt, Halt<ConvFault>>
    requires { is_data want ≡ false }
    ensures reads { Reads P.Span span.old span.new P.may_want conv_refusal result (λ file. block file at want) }
    ensures inside { IfOk result (IsInside (P.size span.old)) }
    ensures filled { IfOk result (IsFilled want) }
{
    match block_in(span, at, want) {
        Ok(block) => Ok(block),
        Err(Halt::Fault(BlockFault::Bad { at, want })) => Err(Halt::Fault(ConvFault::Bad {
            at,
            want,
        })),
        Err(Halt::Fault(BlockFault::Compressed { .. })) => unreachable!(),
        Err(Halt::Failed) => Err(Halt::Failed),
        Err(Halt::Memory) => Err(Halt::Memory),
    }
}

/// The block of a conversion.
pub(crate) fn conv_block_of<P: Span>(span: &mut P, at: u64) -> Result<BlockAt, Halt<ConvFault>>
    ensures reads { Reads P.Span span.old span.new P.may_want conv_refusal result (λ file. block file at kinds.Cc) }
    ensures values { IfOk result (λ b. (f : List ℕ) → P.bytes span.old ≡ Some f → HoldsValues f b) }
    ensures inside { IfOk result (IsInside (P.size span.old)) }
    ensures filled { IfOk result (IsFilled kinds.Cc) }
{
    block_with(span, at, Kind::Cc)
}

/// Whether the first four bytes of a conversion stand at `at`.
pub(crate) fn is_conv_in<P: Span>(span: &mut P, at: u64) -> Result<bool, Stop>
    ensures reads { Looks P.Span span.old span.new P.may_want result (λ file b. b ≡ is_named file at kinds.Cc) }
{
    match kind_in(span, at)? {
        Some(kind) => Ok(kind == Kind::Cc),
        None => Ok(false),
    }
}

/// A text, with the faults of this crate, and how many bytes of texts may still come.
fn note_of<P: Span>(
    alloc: Global,
    span: &mut P,
    at: u64,
    left: u64,
) -> Result<(Note, u64), Halt<ConvFault>>
    ensures reads { Reads P.Span span.old span.new true conv_refusal result (λ file. note file at left) }
{
    noted_in(alloc, span, at, left).map_err(Halt::raised)
}

/// The text that a link names, where 0 names none, and what may still come.
///
/// # Errors
/// `Bad` exactly where an address other than 0 has neither a TXBLOCK nor an MDBLOCK, `TooMany` exactly where the text is
/// longer than may come; and the span's own.
#[tactic(auto, unfolding(crate::specs::Conv::words))]
pub fn words_in<P: Span>(
    alloc: Global,
    span: &mut P,
    at: u64,
    budget: Budget,
) -> Result<(Note, Budget), Halt<ConvFault>>
    ensures reads { Reads P.Span span.old span.new true conv_refusal result (λ file. words file at budget) }
{
    let (note, text) = note_of(alloc, span, at, budget.text)?;
    Ok((note, Budget { text, ..budget }))
}
