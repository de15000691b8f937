ghost use Rattle.std.specs.Prelude.{◌≡◌, ℕ, List, Some, true, IfOk, IfErr, IfSome, OnErr};
ghost use Rattle.mdf_block.specs.Refusal.{GivesAnd, GivesSlice};
ghost use Rattle.mdf_block.specs.Reads.{Says};
ghost use Rattle.mdf_block.specs.Truth.{IsTrueOf};
ghost use Rattle.mdf_conv.specs.Conv.{conversion, source, conv_refusal};
ghost use Rattle.mdf_conv.specs.Cost.{Spends, source_cost, conv_cost};
ghost use Rattle.mdf_conv.specs.Standing.{IsConversion, IsSource};

use crate::convert::conv_in;
use crate::source::source_in;
use crate::{Budget, ConvFault, Conversion, SourceInfo};
use mdf_num::{Halt, SliceSpan, Span};
use std::alloc::Global;

/// The conversion (CCBLOCK) at `at`, with all that it refers to, read through a span. The budget falls by what is read.
/// After a refusal it is as before.
///
/// # Errors
/// As `read_conv`, and the span's own.
pub fn read_conv_in<P: Span>(
    alloc: Global,
    span: &mut P,
    at: u64,
    budget: &mut Budget,
) -> Result<Conversion, Halt<ConvFault>>
    ensures reads { Says P.Span span.old span.new true conv_refusal result (λ file. GivesAnd conv_refusal result budget.new (conversion file at budget.old)) }
    ensures found { (f : List ℕ) → P.bytes span.old ≡ Some f → IfOk result (IsConversion 4 f at) }
    ensures spent { (f : List ℕ) → P.bytes span.old ≡ Some f → IfOk result (λ _. Spends budget.old (conv_cost 4 f at) budget.new) }
    ensures budget { OnErr result (budget.new ≡ budget.old) }
{
    let (found, left) = conv_in(alloc, span, at, *budget)?;
    *budget = left;
    Ok(found)
}

/// The conversion (CCBLOCK) at `at`: its name, its unit and its comment, and what all its links after the fourth refer
/// to, each nothing, a text or another conversion. Four conversions may be open at once. The budget falls by the bytes
/// of the texts, by one for each conversion and by the bytes of its block; a link to an inverse conversion is passed
/// over and counted as dropped.
/// After a refusal the budget is as before.
///
/// # Errors
/// The first fault in that order: `Bad` exactly where no block of the kind stands whole; else `Deep` exactly where the
/// conversion is the fifth that is open; else `TooMany` exactly where no conversion may come any more, or a text is
/// longer than may come; and `Memory`, also where the block of a conversion has more bytes than may come.
pub fn read_conv(
    alloc: Global,
    bytes: &[u8],
    at: u64,
    budget: &mut Budget,
) -> Result<Conversion, ConvFault>
    ensures exact { GivesSlice conv_refusal result budget.new (conversion bytes.now at budget.old) }
    ensures found { IfOk result (IsConversion 4 bytes.now at) }
    ensures spent { IfOk result (λ _. Spends budget.old (conv_cost 4 bytes.now at) budget.new) }
    ensures refused { IfErr result (λ fault. IfSome (conv_refusal fault) (IsTrueOf bytes.now)) }
    ensures budget { OnErr result (budget.new ≡ budget.old) }
{
    match read_conv_in(alloc, &mut SliceSpan::new(bytes), at, budget) {
        Ok(found) => Ok(found),
        Err(Halt::Fault(fault)) => Err(fault),
        Err(Halt::Failed) => unreachable!(),
        Err(Halt::Memory) => Err(ConvFault::Memory),
    }
}

/// The source (SIBLOCK) at `at`, read through a span. The budget falls by the bytes of the texts. After a refusal it is
/// as before.
///
/// # Errors
/// As `read_source`, and the span's own.
pub fn read_source_in<P: Span>(
    alloc: Global,
    span: &mut P,
    at: u64,
    budget: &mut Budget,
) -> Result<SourceInfo, Halt<ConvFault>>
    ensures reads { Says P.Span span.old span.new true conv_refusal result (λ file. GivesAnd conv_refusal result budget.new (source file at budget.old)) }
    ensures found { (f : List ℕ) → P.bytes span.old ≡ Some f → IfOk result (IsSource f at) }
    ensures spent { (f : List ℕ) → P.bytes span.old ≡ Some f → IfOk result (λ found. Spends budget.old (source_cost found) budget.new) }
    ensures budget { OnErr result (budget.new ≡ budget.old) }
{
    let (found, left) = source_in(alloc, span, at, *budget)?;
    *budget = left;
    Ok(found)
}

/// The source (SIBLOCK) at `at`: its name, its path and its comment. The budget falls by the bytes of the texts. After a
/// refusal it is as before.
///
/// # Errors
/// The first fault in that order: `Bad` exactly where no block of the kind stands whole, `TooMany` exactly where a text
/// is longer than may come; and `Memory`. Never `Deep`.
pub fn read_source(
    alloc: Global,
    bytes: &[u8],
    at: u64,
    budget: &mut Budget,
) -> Result<SourceInfo, ConvFault>
    ensures exact { GivesSlice conv_refusal result budget.new (source bytes.now at budget.old) }
    ensures found { IfOk result (IsSource bytes.now at) }
    ensures spent { IfOk result (λ found. Spends budget.old (source_cost found) budget.new) }
    ensures refused { IfErr result (λ fault. IfSome (conv_refusal fault) (IsTrueOf bytes.now)) }
    ensures budget { OnErr result (budget.new ≡ budget.old) }
{
    match read_source_in(alloc, &mut SliceSpan::new(bytes), at, budget) {
        Ok(found) => Ok(found),
        Err(Halt::Fault(fault)) => Err(fault),
        Err(Halt::Failed) => unreachable!(),
        Err(Halt::Memory) => Err(ConvFault::Memory),
    }
}
