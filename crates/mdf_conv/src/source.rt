ghost use Rattle.std.specs.Prelude.{◌≡◌, ℕ, List, Some, true, IfOk};
ghost use Rattle.mdf_block.specs.Reads.{Reads};
ghost use Rattle.mdf_conv.specs.Cost.{Spends, source_cost};
ghost use Rattle.mdf_conv.specs.Conv.{source, conv_refusal};

use crate::field::{source_front_in, source_of};
use crate::lower::block_with;
use crate::texts::texts_in;
use crate::{Budget, ConvFault, SourceInfo};
use mdf_block::Kind;
use mdf_num::{Halt, Span};
use std::alloc::Global;

/// The source at `at`, and what may still come.
#[tactic(auto, unfolding(crate::specs::Conv::source))]
fn whole_in<P: Span>(
    alloc: Global,
    span: &mut P,
    at: u64,
    budget: Budget,
) -> Result<(SourceInfo, Budget), Halt<ConvFault>>
    ensures reads { Reads P.Span span.old span.new true conv_refusal result (λ file. source file at budget) }
{
    let block = block_with(span, at, Kind::Si)?;
    let front = source_front_in(span, &block)?;
    let (texts, left) = texts_in(alloc, span, &block, budget)?;
    Ok((source_of(front, texts), left))
}

/// The source at `at`, and what may still come.
///
/// # Errors
/// As `read_source`, and the span's own.
pub fn source_in<P: Span>(
    alloc: Global,
    span: &mut P,
    at: u64,
    budget: Budget,
) -> Result<(SourceInfo, Budget), Halt<ConvFault>>
    ensures reads { Reads P.Span span.old span.new true conv_refusal result (λ file. source file at budget) }
    ensures spent { (f : List ℕ) → P.bytes span.old ≡ Some f → IfOk result (λ found. Spends budget (source_cost found.0) found.1) }
{
    whole_in(alloc, span, at, budget)
}
