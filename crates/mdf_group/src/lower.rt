ghost use Rattle.std.specs.Prelude.{◌≡◌, ◌≤◌, ◌<◌, Ok, Err, false, true, IfOk, MatchResult};
ghost use Rattle.mdf_format.specs.Block.{link_at};
ghost use Rattle.mdf_block.specs.Reads.{Reads};
ghost use Rattle.mdf_block.specs.Block.{block, is_data, IsInside, IsFilled};
ghost use Rattle.mdf_conv.specs.Conv.{words};
ghost use Rattle.mdf_conv.specs.Link.{source_of_link, conv_of_link};
ghost use Rattle.mdf_group.specs.Link.{label, group_refusal};

use crate::GroupFault;
use crate::room::Label;
use mdf_block::{BlockAt, Kind, Note};
use mdf_conv::{Budget, Conversion, SourceInfo, block_with, conv_at, source_at, words_at};
use mdf_num::{Halt, Span};
use std::alloc::Global;

/// What was found first, with what is found next.
pub(crate) fn beside<A: Drop, B>(
    first: A,
    next: Result<B, Halt<GroupFault>>,
) -> Result<(A, B), Halt<GroupFault>>
    ensures { MatchResult result (λ both. (both.0 ≡ first) × (next ≡ Ok both.1)) (λ halt. next ≡ Err halt) }
{
    match next {
        Ok(found) => Ok((first, found)),
        Err(halt) => Err(halt),
    }
}

/// A block of a kind that holds no data.
pub(crate) fn block_of<P: Span>(
    span: &mut P,
    at: u64,
    want: Kind,
) -> Result<BlockAt, Halt<GroupFault>>
    requires { is_data want ≡ false }
    ensures reads { Reads P.Span span.old span.new P.may_want group_refusal result (λ file. block file at want) }
    ensures inside { IfOk result (IsInside (P.size span.old)) }
    ensures filled { IfOk result (IsFilled want) }
{
    block_with(span, at, want).map_err(Halt::raised)
}

/// The text that link `k` of a block names, and what may still come.
pub(crate) fn words_of<P: Span>(
    alloc: Global,
    span: &mut P,
    block: &BlockAt,
    k: u64,
    budget: Budget,
) -> Result<(Note, Budget), Halt<GroupFault>>
    requires inside { IsInside (P.size span.old) block.now }
    requires number { k < block.now.links }
    ensures reads { Reads P.Span span.old span.new true group_refusal result (λ file. words file (link_at file block.now.at k) budget) }
{
    words_at(alloc, span, block, k, budget).map_err(Halt::raised)
}

/// The source that link `k` of a block names, if it names one, and what may still come.
pub(crate) fn source_of<P: Span>(
    alloc: Global,
    span: &mut P,
    block: &BlockAt,
    k: u64,
    budget: Budget,
) -> Result<(Option<SourceInfo>, Budget), Halt<GroupFault>>
    requires inside { IsInside (P.size span.old) block.now }
    requires number { k < block.now.links }
    ensures reads { Reads P.Span span.old span.new true group_refusal result (λ file. source_of_link file (link_at file block.now.at k) budget) }
{
    source_at(alloc, span, block, k, budget).map_err(Halt::raised)
}

/// The conversion that link `k` of a block names, if it names one, and what may still come.
pub(crate) fn conv_of<P: Span>(
    alloc: Global,
    span: &mut P,
    block: &BlockAt,
    k: u64,
    budget: Budget,
) -> Result<(Option<Conversion>, Budget), Halt<GroupFault>>
    requires inside { IsInside (P.size span.old) block.now }
    requires number { k < block.now.links }
    ensures reads { Reads P.Span span.old span.new true group_refusal result (λ file. conv_of_link file (link_at file block.now.at k) budget) }
{
    conv_at(alloc, span, block, k, budget).map_err(Halt::raised)
}

/// The name and the source of a channel or of a channel group, and what may still come.
#[tactic(auto, unfolding(crate::specs::Link::label))]
pub(crate) fn label_in<P: Span>(
    alloc: Global,
    span: &mut P,
    block: &BlockAt,
    budget: Budget,
) -> Result<(Label, Budget), Halt<GroupFault>>
    requires inside { IsInside (P.size span.old) block.now }
    requires linked { 4 ≤ block.now.links }
    ensures reads { Reads P.Span span.old span.new true group_refusal result (λ file. label file block.now.at budget) }
{
    let (name, left) = words_of(alloc, span, block, 2, budget)?;
    let source = source_of(alloc, span, block, 3, left);
    let (name, (source, left)) = beside(name, source)?;
    Ok((Label { name, source }, left))
}
