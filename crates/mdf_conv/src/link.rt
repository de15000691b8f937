ghost use Rattle.std.specs.Prelude.{◌<◌, true};
ghost use Rattle.mdf_format.specs.Block.{link_at};
ghost use Rattle.mdf_block.specs.Reads.{Reads};
ghost use Rattle.mdf_block.specs.Block.{IsInside};
ghost use Rattle.mdf_conv.specs.Conv.{words, conv_refusal};
ghost use Rattle.mdf_conv.specs.Link.{source_of_link, conv_of_link};

use crate::convert::conv_in;
use crate::lower::words_in;
use crate::source::source_in;
use crate::{Budget, ConvFault, Conversion, SourceInfo};
use mdf_block::{BlockAt, Note, link_in};
use mdf_num::{Halt, Span};
use std::alloc::Global;

/// The text that link `k` of the block names, counted from 0, and what may still come.
///
/// # Errors
/// As `words_in`.
pub fn words_at<P: Span>(
    alloc: Global,
    span: &mut P,
    block: &BlockAt,
    k: u64,
    budget: Budget,
) -> Result<(Note, Budget), Halt<ConvFault>>
    requires inside { IsInside (P.size span.old) block.now }
    requires number { k < block.now.links }
    ensures reads { Reads P.Span span.old span.new true conv_refusal result (λ file. words file (link_at file block.now.at k) budget) }
{
    let at = link_in(span, block, k)?;
    words_in(alloc, span, at, budget)
}

/// The source (SIBLOCK) that link `k` of the block names, counted from 0, if it names one, and what may still come.
///
/// # Errors
/// As `source_in`.
#[tactic(auto, unfolding(crate::specs::Link::source_of_link))]
pub fn source_at<P: Span>(
    alloc: Global,
    span: &mut P,
    block: &BlockAt,
    k: u64,
    budget: Budget,
) -> Result<(Option<SourceInfo>, Budget), Halt<ConvFault>>
    requires inside { IsInside (P.size span.old) block.now }
    requires number { k < block.now.links }
    ensures reads { Reads P.Span span.old span.new true conv_refusal result (λ file. source_of_link file (link_at file block.now.at k) budget) }
{
    let at = link_in(span, block, k)?;
    if at == 0 {
        return Ok((None, budget));
    }
    let (source, left) = source_in(alloc, span, at, budget)?;
    Ok((Some(source), left))
}

/// The conversion (CCBLOCK) that link `k` of the block names, counted from 0, if it names one, and what may still come.
///
/// # Errors
/// As `conv_in`.
#[tactic(auto, unfolding(crate::specs::Link::conv_of_link))]
pub fn conv_at<P: Span>(
    alloc: Global,
    span: &mut P,
    block: &BlockAt,
    k: u64,
    budget: Budget,
) -> Result<(Option<Conversion>, Budget), Halt<ConvFault>>
    requires inside { IsInside (P.size span.old) block.now }
    requires number { k < block.now.links }
    ensures reads { Reads P.Span span.old span.new true conv_refusal result (λ file. conv_of_link file (link_at file block.now.at k) budget) }
{
    let at = link_in(span, block, k)?;
    if at == 0 {
        return Ok((None, budget));
    }
    let (conversion, left) = conv_in(alloc, span, at, budget)?;
    Ok((Some(conversion), left))
}
