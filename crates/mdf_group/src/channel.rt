ghost use Rattle.std.specs.Prelude.{◌≡◌, ◌+◌, ◌≤◌, true, slice_index, IfOk};
ghost use Rattle.mdf_format.specs.declared.kind.Kind.TheVariants.{Cn};
ghost use Rattle.mdf_block.specs.Reads.{Looks, Reads};
ghost use Rattle.mdf_block.specs.Block.{body_of, IsInside, IsFilled};
ghost use Rattle.mdf_group.specs.Link.{channel_origin, channel_texts, channel_links, group_refusal};
ghost use Rattle.mdf_group.specs.Channel.{accepted, passed_of, channel_of_block, channel, channels_from};

use crate::extra::extra_in;
use crate::field::{channel_front_in, channel_of, kinds_in, links_of};
use crate::lower::{beside, block_of, conv_of, label_in, words_of};
use crate::room::{ChannelLinks, ChannelOrigin, ChannelTexts, Passed};
use crate::{ChannelRow, GroupFault};
use mdf_block::{BlockAt, Kind, Walk, What, chain_in, link_in};
use mdf_conv::{Budget, link_count};
use mdf_num::{Halt, Rows, Span, Stop};
use std::alloc::Global;

/// What the first links of a channel lead to, and what may still come.
#[tactic(auto, unfolding(crate::specs::Link::channel_origin))]
fn channel_origin_in<P: Span>(
    alloc: Global,
    span: &mut P,
    block: &BlockAt,
    budget: Budget,
) -> Result<(ChannelOrigin, Budget), Halt<GroupFault>>
    requires inside { IsInside (P.size span.old) block.now }
    requires linked { 8 ≤ block.now.links }
    ensures reads { Reads P.Span span.old span.new true group_refusal result (λ file. channel_origin file block.now.at budget) }
{
    let (label, left) = label_in(alloc, span, block, budget)?;
    let conv = conv_of(alloc, span, block, 4, left);
    let (label, (conv, left)) = beside(label, conv)?;
    let origin = ChannelOrigin {
        name: label.name,
        source: label.source,
        conv,
    };
    Ok((origin, left))
}

/// What the last links of a channel lead to, and what may still come.
#[tactic(auto, unfolding(crate::specs::Link::channel_texts))]
fn channel_texts_in<P: Span>(
    alloc: Global,
    span: &mut P,
    block: &BlockAt,
    budget: Budget,
) -> Result<(ChannelTexts, Budget), Halt<GroupFault>>
    requires inside { IsInside (P.size span.old) block.now }
    requires linked { 8 ≤ block.now.links }
    ensures reads { Reads P.Span span.old span.new true group_refusal result (λ file. channel_texts file block.now.at budget) }
{
    let (unit, left) = words_of(alloc, span, block, 6, budget)?;
    let comment = words_of(alloc, span, block, 7, left);
    let (unit, (comment, left)) = beside(unit, comment)?;
    Ok((ChannelTexts { unit, comment }, left))
}

/// What the links of a channel lead to, and what may still come.
#[tactic(auto, unfolding(crate::specs::Link::channel_links))]
fn channel_links_in<P: Span>(
    alloc: Global,
    span: &mut P,
    block: &BlockAt,
    budget: Budget,
) -> Result<(ChannelLinks, Budget), Halt<GroupFault>>
    requires inside { IsInside (P.size span.old) block.now }
    requires linked { 8 ≤ block.now.links }
    ensures reads { Reads P.Span span.old span.new true group_refusal result (λ file. channel_links file block.now.at budget) }
{
    let (origin, left) = channel_origin_in(alloc, span, block, budget)?;
    let texts = channel_texts_in(alloc, span, block, left);
    let (origin, (texts, left)) = beside(origin, texts)?;
    Ok((links_of(origin, texts), left))
}

/// Nothing, where the kind and the data type of a channel are read.
#[tactic(auto, unfolding(crate::specs::Channel::accepted))]
fn accepted_in<P: Span>(span: &mut P, block: &BlockAt) -> Result<(), Halt<GroupFault>>
    requires inside { IsInside (P.size span.old) block.now }
    requires filled { IsFilled Cn block.now }
    ensures reads { Reads P.Span span.old span.new P.may_want group_refusal result (λ file. accepted block.now.at (slice_index (body_of file block.now) 0) (slice_index (body_of file block.now) 2)) }
{
    let at = block.at;
    let (kind, data_type) = kinds_in(span, block)?;
    if kind == 4 || kind == 5 || kind > 6 {
        return Err(Halt::Fault(GroupFault::ChannelKind { at, kind }));
    }
    if data_type > 14 {
        return Err(Halt::Fault(GroupFault::ChannelType {
            at,
            value: data_type,
        }));
    }
    Ok(())
}

/// The links of a channel that are not followed inside it.
fn passed_in<P: Span>(span: &mut P, block: &BlockAt) -> Result<Passed, Stop>
    requires inside { IsInside (P.size span.old) block.now }
    requires linked { 8 ≤ block.now.links }
    ensures reads { Looks P.Span span.old span.new P.may_want result (λ file passed. passed ≡ passed_of file block.now) }
    ensures few { IfOk result (λ passed. passed.composed + passed.extra ≤ block.now.links + 1) }
{
    let next = link_in(span, block, 0)?;
    let composition = link_in(span, block, 1)?;
    let values = link_in(span, block, 5)?;
    let extra = extra_in(span, block)?;
    Ok(Passed {
        next,
        values,
        composed: link_count(composition),
        extra,
    })
}

/// The channel of a block, the address of the next one, and what may still come.
#[tactic(auto, unfolding(crate::specs::Channel::channel_of_block))]
fn channel_of_block<P: Span>(
    alloc: Global,
    span: &mut P,
    block: &BlockAt,
    budget: Budget,
) -> Result<(ChannelRow, u64, Budget), Halt<GroupFault>>
    requires inside { IsInside (P.size span.old) block.now }
    requires filled { IsFilled Cn block.now }
    ensures reads { Reads P.Span span.old span.new true group_refusal result (λ file. channel_of_block file block.now budget) }
{
    let passed = passed_in(span, block)?;
    let front = channel_front_in(span, block)?;
    let (links, left) = channel_links_in(alloc, span, block, budget)?;
    let row = channel_of(block.at, front, links, passed.values, passed.extra);
    let dropped = passed.composed + passed.extra;
    Ok((row, passed.next, left.with_dropped(dropped)))
}

/// The channels of a group, along their first links.
struct Channels;

impl Walk for Channels {
    ghost use Rattle.mdf_format.specs.declared.kind.Kind.TheVariants.{Cn};
    ghost use Rattle.mdf_block.specs.declared.what.What.TheVariants as whats;
    ghost use Rattle.mdf_block.specs.Chain.{full};

    type Item = ChannelRow;

    type State = Budget;

    type Fault = GroupFault;

    ghost refusal = { group_refusal };

    ghost step = { λ _ file. channel file };

    ghost full = { λ _ file. full whats.Cn Cn file };

    #[tactic(auto, unfolding(crate::specs::Channel::channel))]
    fn step_in<P: Span>(
        &self,
        alloc: Global,
        span: &mut P,
        at: u64,
        budget: Budget,
    ) -> Result<(ChannelRow, u64, Budget), Halt<GroupFault>> {
        let block = block_of(span, at, Kind::Cn)?;
        accepted_in(span, &block)?;
        channel_of_block(alloc, span, &block, budget)
    }

    #[tactic(auto, unfolding(mdf_block::specs::Chain::full))]
    fn full_in<P: Span>(&self, span: &mut P, at: u64) -> Halt<GroupFault> {
        match block_of(span, at, Kind::Cn) {
            Ok(_) => Halt::Fault(GroupFault::TooMany { what: What::Cn, at }),
            Err(halt) => halt,
        }
    }
}

/// The channels from `first` on, how many more may come, and what else.
pub(crate) fn channels_in<P: Span>(
    alloc: Global,
    span: &mut P,
    first: u64,
    most: u64,
    budget: Budget,
) -> Result<(Rows<ChannelRow>, u64, Budget), Halt<GroupFault>>
    ensures reads { Reads P.Span span.old span.new true group_refusal result (λ file. channels_from file most first budget) }
{
    chain_in(alloc, &Channels, span, first, most, budget)
}
