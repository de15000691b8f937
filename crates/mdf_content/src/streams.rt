ghost use Rattle.std.specs.Prelude.{◌≡◌, ◌+◌, ◌-◌, ◌^◌, ◌≤◌, ◌++◌, [], Some, length, min, slice_index_or, sum_by, take, true, IfOk};
ghost use Rattle.std.specs.List.{AllByRecursion};
ghost use Rattle.mdf_format.specs.declared.kind.Kind.TheVariants.{Sd};
ghost use Rattle.mdf_block.specs.Reads.{Looks, Reads};
ghost use Rattle.mdf_block.specs.Every.{AllByNumber};
ghost use Rattle.mdf_stream.specs.Link.{data_parts};
ghost use Rattle.mdf_stream.specs.Parts.{stream_of, stream_size, ArePartsInside};
ghost use Rattle.mdf_content.specs.Fault.{read_refusal};
ghost use Rattle.mdf_content.specs.Layouts.{HasOffset};
ghost use Rattle.mdf_content.specs.Values.{
  AreWithin,
  IsHeld,
  bytes_of,
  channel_stream,
  channel_values,
  has_value,
  held_of,
  records_of,
  streams,
  value_size,
  value_there,
  values_at,
};

use crate::contents::put_record;
use crate::lower::view_of;
use crate::values::{
    Held, Met, Records, offsets_met_in, place_at, places_or, stream_in, value_len_in, values_group,
};
use crate::{ReadFault, Room};
use mdf_block::{Kind, Visit, every_in};
use mdf_data::{DataView, Places};
use mdf_group::ChannelRow;
use mdf_num::{Bytes, Halt, Span, Stop};
use mdf_vlsd::{Streams, ValueStream};
use std::alloc::Global;

/// How many bytes the values in the records at these places have, each with its length; the greatest number for more.
fn values_len_in<P: Span>(span: &mut P, view: &DataView, places: &Places) -> Result<u64, Stop>
    requires inside { ArePartsInside (P.size span.old) view.now }
    requires room { AllByRecursion (λ place. place + 4 ≤ stream_size view.now) places.now }
    ensures reads { Looks P.Span span.old span.new P.may_want result (λ file total. total ≡ min (sum_by (value_size (stream_of file view.now) (stream_size view.now)) places.now) (2 ^ 64 - 1)) }
{
    let mut total: u64 = 0;
    let mut k = 0;
    let mut near = 0;
    while k < places.len() {
        let len = value_len_in(span, view, place_at(places, k), &mut near)?;
        total = total.saturating_add(len);
        k += 1;
    }
    Ok(total)
}

/// Reads the value in the record at a place, with its length, into a list, from `start` on, and answers where it ends there. The search
/// for it begins at part `near` of the stream of the records.
///
/// # Errors
/// The span's own; and a value that does not fit counts as want of memory.
fn put_value<P: Span>(
    span: &mut P,
    view: &DataView,
    place: u64,
    bytes: &mut [u8],
    start: usize,
    near: &mut usize,
) -> Result<usize, Stop>
    requires inside { ArePartsInside (P.size span.old) view.now }
    requires room { place + 4 ≤ stream_size view.now }
    requires within { start ≤ length bytes.old }
    ensures reads { Looks P.Span span.old span.new true result (λ file end. take end bytes.new ≡ take start bytes.old ++ value_there file view.now place) }
    ensures within { IfOk result (λ end. end ≤ length bytes.new) }
{
    let len = value_len_in(span, view, place, near)?;
    if len > (bytes.len() - start) as u64 {
        return Err(Stop::Memory);
    }
    put_record(span, view, len as usize, place, bytes, start, near)?;
    Ok(start + len as usize)
}

/// Reads the values in the records at these places, each with its length, into a list, one behind the other.
///
/// # Errors
/// The span's own; and values that do not fill the list, or do not fit, count as want of memory.
fn put_values<P: Span>(
    span: &mut P,
    view: &DataView,
    places: &Places,
    bytes: &mut [u8],
) -> Result<(), Stop>
    requires inside { ArePartsInside (P.size span.old) view.now }
    requires room { AllByRecursion (λ place. place + 4 ≤ stream_size view.now) places.now }
    ensures reads { Looks P.Span span.old span.new true result (λ file _. bytes.new ≡ stream_of file (values_at file view.now places.now)) }
{
    let mut k = 0;
    let mut done = 0;
    let mut near = 0;
    while k < places.len() {
        let place = place_at(places, k);
        done = put_value(span, view, place, bytes, done, &mut near)?;
        k += 1;
    }
    if done < bytes.len() {
        return Err(Stop::Memory);
    }
    Ok(())
}

/// The bytes of the values in the records at these places, each with its length, one behind the other. Where they stand is not kept.
fn values_stream_in<P: Span>(
    alloc: Global,
    span: &mut P,
    view: &DataView,
    places: &Places,
    room: &mut Room,
) -> Result<Bytes, Stop>
    requires inside { ArePartsInside (P.size span.old) view.now }
    requires room { AllByRecursion (λ place. place + 4 ≤ stream_size view.now) places.now }
    ensures reads { Looks P.Span span.old span.new true result (λ file bytes. bytes ≡ stream_of file (values_at file view.now places.now)) }
{
    let len = values_len_in(span, view, places)?;
    let mut bytes = room.zeros(alloc, len)?;
    put_values(span, view, places, bytes.as_mut_slice())?;
    Ok(Bytes::from_vec(bytes))
}

/// The bytes that a link to values leads to.
fn linked_stream_in<P: Span>(
    alloc: Global,
    span: &mut P,
    at: u64,
    room: &mut Room,
) -> Result<Bytes, Halt<ReadFault>>
    ensures reads { Reads P.Span span.old span.new true read_refusal result (λ file. bytes_of file (data_parts file Sd at)) }
{
    let view = view_of(alloc, span, at, Kind::Sd)?;
    let bytes = stream_in(alloc, span, &view, room)?;
    Ok(bytes)
}

/// The bytes of the values of a channel whose own link is `at`: those in the records of a group that stands there, or those where the
/// link leads to.
#[tactic(auto, unfolding(crate::specs::Values::channel_values))]
fn channel_bytes_in<P: Span>(
    alloc: Global,
    span: &mut P,
    held: &Held,
    at: u64,
    room: &mut Room,
) -> Result<Bytes, Halt<ReadFault>>
    requires held { IsHeld (P.size span.old) held.now }
    ensures reads { Reads P.Span span.old span.new true read_refusal result (λ file. bytes_of file (channel_values file (held_of held.now) at)) }
{
    let Some(k) = values_group(held, at) else {
        return linked_stream_in(alloc, span, at, room);
    };
    let none = Places::empty(alloc);
    let places = places_or(held.lists, k as usize, &none);
    let bytes = values_stream_in(alloc, span, held.view, places, room)?;
    Ok(bytes)
}

/// Whether a whole value stands at an offset of a stream.
fn has_value(stream: &ValueStream, offset: u64) -> bool
    ensures { result ≡ has_value stream.now offset }
{
    stream.value_at(offset).is_some()
}

/// Values in memory.
impl Met for ValueStream {
    ghost use Rattle.mdf_content.specs.Values.{has_value};

    ghost meets = { λ stream _. has_value stream };

    ghost needs = { λ _ _. Unit {0} };

    fn meets_in<P: Span>(
        &self,
        _span: &mut P,
        offset: u64,
        _near: &mut usize,
    ) -> Result<bool, Stop> {
        Ok(has_value(self, offset))
    }
}

/// The stream of a channel of variable length, whose number in its group is `c`.
#[tactic(auto, unfolding(crate::specs::Values::channel_stream))]
fn channel_stream_in<P: Span>(
    alloc: Global,
    span: &mut P,
    held: &Held,
    records: &Records,
    channel: &ChannelRow,
    c: u32,
    room: &mut Room,
) -> Result<ValueStream, Halt<ReadFault>>
    requires kind { channel.now.kind ≡ 1 }
    requires placed { HasOffset records.now.data_bytes channel.now }
    requires held { IsHeld (P.size span.old) held.now }
    requires within { AreWithin (stream_size held.now.view.now) (records_of records.now) }
    ensures reads { Reads P.Span span.old span.new true read_refusal result (λ file. channel_stream file (held_of held.now) (records_of records.now) channel.now c) }
{
    let bytes = channel_bytes_in(alloc, span, held, channel.values, room)?;
    let stream = ValueStream::from_bytes(bytes);
    offsets_met_in(span, held.view, records, &stream, channel, c)?;
    Ok(stream)
}

/// The channels of a group, with its records.
#[derive(Drop)]
struct Channels<'a> {
    held: &'a Held<'a>,
    records: &'a Records<'a>,
}

impl Visit for Channels<'_> {
    ghost use Rattle.mdf_stream.specs.Parts.{stream_size};
    ghost use Rattle.mdf_content.specs.Values.{AreWithin, IsHeld, channel_item, held_of, records_of};
    ghost use Rattle.mdf_content.specs.Layouts.{HasOffset};

    type Item = ChannelRow;

    type Found = ValueStream;

    type State = ();

    type Room = Room;

    type Fault = ReadFault;

    ghost refusal = { read_refusal };

    ghost read = { λ channels file. channel_item file (held_of channels.held.now) (records_of channels.records.now) };

    ghost needs = { λ channels size. IsHeld size channels.held.now × AreWithin (stream_size channels.held.now.view.now) (records_of channels.records.now) };

    ghost admits = { λ channels _. HasOffset channels.records.now.data_bytes };

    #[tactic(auto, unfolding(crate::specs::Values::channel_item))]
    fn item_in<P: Span>(
        &self,
        alloc: Global,
        span: &mut P,
        k: usize,
        item: &ChannelRow,
        state: (),
        room: &mut Room,
    ) -> Result<(Option<ValueStream>, ()), Halt<ReadFault>> {
        if !item.is_of_values() {
            return Ok((None, state));
        }
        if k > u32::MAX as usize {
            return Err(Halt::Memory);
        }
        let stream = channel_stream_in(alloc, span, self.held, self.records, item, k as u32, room)?;
        Ok((Some(stream), state))
    }
}

/// The streams of the channels of variable length (`cn_type` 1) of a group, in order, each with its values: those of the
/// group of values that the channel names, or those where its link to data leads. Beside them nothing is kept of the values.
///
/// # Errors
/// Of each channel of variable length in order the fault of its link to data, and `Offset` exactly where the offset in a
/// record that is looked at meets no value, with the first such record. The span's own; and want of memory, which is
/// answered too where the room does not suffice for the streams.
#[tactic(auto, unfolding(crate::specs::Values::streams))]
pub fn streams_in<P: Span>(
    alloc: Global,
    span: &mut P,
    held: &Held,
    records: &Records,
    channels: &[ChannelRow],
    room: &mut Room,
) -> Result<Streams, Halt<ReadFault>>
    requires held { IsHeld (P.size span.old) held.now }
    requires within { AreWithin (stream_size held.now.view.now) (records_of records.now) }
    requires placed { AllByNumber (λ _. HasOffset records.now.data_bytes) channels.now }
    ensures reads { Reads P.Span span.old span.new true read_refusal result (λ file. streams file (held_of held.now) (records_of records.now) channels.now) }
{
    let (streams, _) = every_in(alloc, &Channels { held, records }, span, channels, (), room)?;
    Ok(streams)
}
