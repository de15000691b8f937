ghost use Rattle.std.specs.Prelude.{◌≡◌, ◌-◌, ℕ, List, Some, Ok, true, IfOk};
ghost use Rattle.mdf_format.specs.Block.{link_at};
ghost use Rattle.mdf_format.specs.declared.kind.Kind.TheVariants.{Cc};
ghost use Rattle.mdf_block.specs.Refusal.{Gives};
ghost use Rattle.mdf_block.specs.Reads.{Reads, Says};
ghost use Rattle.mdf_block.specs.Block.{body_of, IsInside, IsFilled};
ghost use Rattle.mdf_block.specs.Each.{each};
ghost use Rattle.mdf_conv.specs.Left.{with_dropped, link_count};
ghost use Rattle.mdf_conv.specs.Cost.{Spends, conv_cost};
ghost use Rattle.mdf_conv.specs.Conv.{HoldsValues, ref_by, item_by, the_conversion, conv_of_block, conv_by, conv, conversion, conv_refusal};

use crate::field::{conv_numbers_in, conversion_of};
use crate::lower::{block_with, conv_block_of, is_conv_in, words_in};
use crate::texts::{Texts, texts_in};
use crate::{Budget, ConvFault, Conversion, Ref};
use mdf_block::{BlockAt, Kind, What, link_in};
use mdf_num::{Halt, Rows, Span};
use sqlite_items::Boxed;
use std::alloc::Global;

/// How many conversions may be open at once.
const LEVELS: u64 = 4;

/// What a link of a conversion refers to, with so many levels of conversions below it, and what may still come.
#[cycle(conv)]
#[tactic(auto, unfolding(crate::specs::Conv::ref_by))]
fn ref_in<P: Span>(
    alloc: Global,
    span: &mut P,
    at: u64,
    budget: Budget,
    levels: u64,
) -> Result<(Ref, Budget), Halt<ConvFault>>
    ensures reads { Reads P.Span span.old span.new true conv_refusal result (λ file. ref_by (conv levels file) file at budget) }
{
    if at == 0 {
        return Ok((Ref::Nothing, budget));
    }
    if is_conv_in(span, at)? {
        let (found, left) = level_in(alloc, span, at, budget, levels)?;
        let Ok(boxed) = Boxed::new(alloc, found) else {
            return Err(Halt::Memory);
        };
        return Ok((Ref::Conv(boxed), left));
    }
    let (text, left) = words_in(alloc, span, at, budget)?;
    Ok((Ref::Words(text), left))
}

/// What the links of a conversion after the fourth refer to, in order, and what may still come.
#[cycle(conv)]
fn refs_in<P: Span>(
    alloc: Global,
    span: &mut P,
    block: &BlockAt,
    budget: Budget,
    levels: u64,
) -> Result<(Rows<Ref>, Budget), Halt<ConvFault>>
    requires inside { IsInside (P.size span.old) block.now }
    ensures reads { Reads P.Span span.old span.new true conv_refusal result (λ file. each (item_by (conv levels file) file block.now.at) 4 (block.now.links - 4) budget) }
{
    let mut refs = Rows::empty(alloc);
    let mut left = budget;
    for k in 4..block.links {
        let link = link_in(span, block, k)?;
        let (found, rest) = ref_in(alloc, span, link, left, levels)?;
        refs.push(found)?;
        left = rest;
    }
    Ok((refs, left))
}

/// The conversion of a block with these texts and references, and what may still come.
fn finished_in<P: Span>(
    alloc: Global,
    span: &mut P,
    block: &BlockAt,
    texts: Texts,
    refs: Rows<Ref>,
    budget: Budget,
) -> Result<(Conversion, Budget), Halt<ConvFault>>
    requires inside { IsInside (P.size span.old) block.now }
    requires filled { IsFilled Cc block.now }
    ensures reads { Says P.Span span.old span.new true conv_refusal result (λ file. HoldsValues file block.now → Gives conv_refusal result (Ok (the_conversion (body_of file block.now) texts refs, with_dropped (link_count (link_at file block.now.at 3)) budget))) }
{
    let found = conv_numbers_in(alloc, span, block)?;
    let left = budget.with_dropped(found.inverse);
    Ok((conversion_of(found, texts, refs), left))
}

/// The conversion of a block, with so many levels of conversions below it, and what may still come.
#[cycle(conv)]
#[tactic(auto, unfolding(crate::specs::Conv::conv_of_block))]
fn held_in<P: Span>(
    alloc: Global,
    span: &mut P,
    block: &BlockAt,
    budget: Budget,
    levels: u64,
) -> Result<(Conversion, Budget), Halt<ConvFault>>
    requires inside { IsInside (P.size span.old) block.now }
    requires filled { IsFilled Cc block.now }
    ensures reads { Says P.Span span.old span.new true conv_refusal result (λ file. HoldsValues file block.now → Gives conv_refusal result (conv_of_block (conv levels file) file block.now budget)) }
{
    let (texts, left) = texts_in(alloc, span, block, budget)?;
    let (refs, left) = refs_in(alloc, span, block, left, levels)?;
    finished_in(alloc, span, block, texts, refs, left)
}

/// The conversion at `at`, with so many levels of conversions below it, and what may still come. Channels may name the
/// same conversion, and each has its own copy of it: where the blocks have more bytes than may come, that is want of memory.
#[cycle(conv)]
#[tactic(auto, unfolding(crate::specs::Conv::conv_by, crate::specs::Conv::counted))]
fn whole_in<P: Span>(
    alloc: Global,
    span: &mut P,
    at: u64,
    budget: Budget,
    levels: u64,
) -> Result<(Conversion, Budget), Halt<ConvFault>>
    ensures reads { Reads P.Span span.old span.new true conv_refusal result (λ file. conv_by (conv levels file) file at budget) }
{
    let block = conv_block_of(span, at)?;
    if budget.conversions == 0 {
        return Err(Halt::Fault(ConvFault::TooMany { what: What::Cc, at }));
    }
    let size = block.body_at + block.body_len - block.at;
    if size > budget.conversion_bytes {
        return Err(Halt::Memory);
    }
    let left = Budget {
        conversions: budget.conversions - 1,
        conversion_bytes: budget.conversion_bytes - size,
        ..budget
    };
    held_in(alloc, span, &block, left, levels)
}

/// The conversion at `at`, with so many levels of conversions, and what may still come.
#[cycle(conv)]
fn level_in<P: Span>(
    alloc: Global,
    span: &mut P,
    at: u64,
    budget: Budget,
    levels: u64,
) -> Result<(Conversion, Budget), Halt<ConvFault>>
    ensures reads { Reads P.Span span.old span.new true conv_refusal result (λ file. conv levels file at budget) }
{
    if levels == 0 {
        block_with(span, at, Kind::Cc)?;
        return Err(Halt::Fault(ConvFault::Deep { at }));
    }
    whole_in(alloc, span, at, budget, levels - 1)
}

/// The conversion at `at`, with all that it refers to, and what may still come.
///
/// # Errors
/// As `read_conv`, and the span's own.
pub fn conv_in<P: Span>(
    alloc: Global,
    span: &mut P,
    at: u64,
    budget: Budget,
) -> Result<(Conversion, Budget), Halt<ConvFault>>
    ensures reads { Reads P.Span span.old span.new true conv_refusal result (λ file. conversion file at budget) }
    ensures spent { (f : List ℕ) → P.bytes span.old ≡ Some f → IfOk result (λ found. Spends budget (conv_cost 4 f at) found.1) }
{
    level_in(alloc, span, at, budget, LEVELS)
}
