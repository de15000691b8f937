ghost use Rattle.std.specs.Prelude.{◌≡◌, ◌≤◌, ℕ, List, Some, length, slice_index, IfOk};
ghost use Rattle.mdf_format.specs.declared.kind.Kind.TheVariants.{Dg, Cg, Cn};
ghost use Rattle.mdf_block.specs.Reads.{Looks};
ghost use Rattle.mdf_block.specs.Block.{body_of, IsInside, IsFilled};
ghost use Rattle.mdf_conv.specs.Conv.{numbers_at};
ghost use Rattle.mdf_group.specs.Link.{links_of};
ghost use Rattle.mdf_group.specs.Channel.{channel_front, channel_row};
ghost use Rattle.mdf_group.specs.Group.{group_front, group_row};

use crate::room::{
    ChannelFront, ChannelLinks, ChannelOrigin, ChannelTexts, GroupFront, GroupLinks,
};
use crate::{ChannelRow, GroupRow};
use mdf_block::{BlockAt, body_in, u16_field, u32_field, u64_field};
use mdf_num::{Rows, Span, Stop};

/// The kind and the data type of a channel.
pub(crate) fn kinds_in<P: Span>(span: &mut P, block: &BlockAt) -> Result<(u8, u8), Stop>
    requires inside { IsInside (P.size span.old) block.now }
    requires filled { IsFilled Cn block.now }
    ensures reads { Looks P.Span span.old span.new P.may_want result (λ file kinds. kinds.0 ≡ slice_index (body_of file block.now) 0) }
    ensures data_type { IfOk result (λ kinds. (f : List ℕ) → P.bytes span.old ≡ Some f → kinds.1 ≡ slice_index (body_of f block.now) 2) }
{
    let mut front = [0u8; 3];
    body_in(span, block, &mut front)?;
    Ok((front[0], front[2]))
}

/// The six range values in the body of a channel.
fn ranges_of(body: &[u8]) -> [u64; 6]
    requires { 72 ≤ length body.now }
    ensures { result ≡ numbers_at body.now 24 6 }
{
    [
        u64_field(body, 24),
        u64_field(body, 32),
        u64_field(body, 40),
        u64_field(body, 48),
        u64_field(body, 56),
        u64_field(body, 64),
    ]
}

/// The numbers in the body of a channel.
pub(crate) fn channel_front_in<P: Span>(span: &mut P, block: &BlockAt) -> Result<ChannelFront, Stop>
    requires inside { IsInside (P.size span.old) block.now }
    requires filled { IsFilled Cn block.now }
    ensures reads { Looks P.Span span.old span.new P.may_want result (λ file front. front ≡ channel_front (body_of file block.now)) }
{
    let mut body = [0u8; 72];
    body_in(span, block, &mut body)?;
    Ok(ChannelFront {
        kind: body[0],
        sync: body[1],
        data_type: body[2],
        bit: body[3],
        byte: u32_field(&body, 4),
        bits: u32_field(&body, 8),
        flags: u32_field(&body, 12),
        inval: u32_field(&body, 16),
        precision: body[20],
        ranges: ranges_of(&body),
    })
}

/// What all links of a channel lead to, from what the first and the last of them do.
pub(crate) fn links_of(origin: ChannelOrigin, texts: ChannelTexts) -> ChannelLinks
    ensures { result ≡ links_of origin texts }
{
    ChannelLinks {
        name: origin.name,
        source: origin.source,
        conv: origin.conv,
        unit: texts.unit,
        comment: texts.comment,
    }
}

/// The channel at an address, from the numbers in its body and what its links lead to.
pub(crate) fn channel_of(
    at: u64,
    front: ChannelFront,
    links: ChannelLinks,
    values: u64,
    extra: u64,
) -> ChannelRow
    ensures { result ≡ channel_row at front links values extra }
{
    let ranges = front.ranges;
    ChannelRow {
        at,
        kind: front.kind,
        sync: front.sync,
        data_type: front.data_type,
        bit: front.bit,
        byte: front.byte,
        bits: front.bits,
        flags: front.flags,
        inval: front.inval,
        precision: front.precision,
        ranges,
        name: links.name,
        source: links.source,
        conv: links.conv,
        unit: links.unit,
        comment: links.comment,
        values,
        extra,
    }
}

/// The numbers in the body of a channel group.
pub(crate) fn group_front_in<P: Span>(span: &mut P, block: &BlockAt) -> Result<GroupFront, Stop>
    requires inside { IsInside (P.size span.old) block.now }
    requires filled { IsFilled Cg block.now }
    ensures reads { Looks P.Span span.old span.new P.may_want result (λ file front. front ≡ group_front (body_of file block.now)) }
{
    let mut body = [0u8; 32];
    body_in(span, block, &mut body)?;
    Ok(GroupFront {
        id: u64_field(&body, 0),
        cycles: u64_field(&body, 8),
        flags: u16_field(&body, 16),
        separator: u16_field(&body, 18),
        data_bytes: u32_field(&body, 24),
        inval_bytes: u32_field(&body, 28),
    })
}

/// The channel group at an address, from the numbers in its body, what its links lead to, and its channels.
pub(crate) fn group_of(
    at: u64,
    front: GroupFront,
    links: GroupLinks,
    channels: Rows<ChannelRow>,
) -> GroupRow
    ensures { result ≡ group_row at front links channels }
{
    GroupRow {
        at,
        id: front.id,
        cycles: front.cycles,
        flags: front.flags,
        separator: front.separator,
        data_bytes: front.data_bytes,
        inval_bytes: front.inval_bytes,
        name: links.name,
        source: links.source,
        comment: links.comment,
        channels,
    }
}

/// How many bytes the id before each record of a data group has.
pub(crate) fn id_size_in<P: Span>(span: &mut P, block: &BlockAt) -> Result<u8, Stop>
    requires inside { IsInside (P.size span.old) block.now }
    requires filled { IsFilled Dg block.now }
    ensures reads { Looks P.Span span.old span.new P.may_want result (λ file size. size ≡ slice_index (body_of file block.now) 0) }
{
    let mut body = [0u8; 8];
    body_in(span, block, &mut body)?;
    Ok(body[0])
}
