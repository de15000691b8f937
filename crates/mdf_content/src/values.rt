ghost use Rattle.std.specs.Prelude.{◌≡◌, ◌+◌, ◌-◌, ◌≤◌, ◌<◌, ◌++◌, if◌then◌else◌, ◌&&◌, nat_eq, [], ℕ, Bool, List, Some, length, map, slice_index_or, true, false, None, IfOk, OnOk};
ghost use Rattle.std.specs.List.{AllByRecursion};
ghost use Rattle.std.specs.BTreeMap.{get};
ghost use Rattle.std.specs.Ordering.{nat_cmp};
ghost use Rattle.mdf_format.specs.Number.{bytes_at};
ghost use Rattle.mdf_format.specs.Field.{covered_end, covered_size, field_number};
ghost use Rattle.mdf_block.specs.Reads.{Looks, Reads};
ghost use Rattle.mdf_bits.specs.Field.{spot_of};
ghost use Rattle.mdf_block.specs.Every.{AllByNumber};
ghost use Rattle.mdf_stream.specs.Parts.{stream_of, stream_size, ArePartsInside};
ghost use Rattle.mdf_stream.specs.Range.{parts_between};
ghost use Rattle.mdf_group.specs.Group.{is_variable};
ghost use Rattle.mdf_layout.specs.Rule.{spot_in};
ghost use Rattle.mdf_content.specs.Fault.{read_refusal};
ghost use Rattle.mdf_content.specs.Found.{channel_found, values_found};
ghost use Rattle.mdf_content.specs.Layouts.{HasOffset, field_of};
ghost use Rattle.mdf_content.specs.Values.{
  IsHeld,
  IsValuesTable,
  AreWithin,
  channel_values,
  held_of,
  has_value,
  offset_in,
  offset_met,
  offsets_met,
  value_size,
  records_of,
  values_at,
  values_group,
};

use crate::lower::view_of;
use crate::{ReadFault, Room};
use mdf_bits::{Field, get};
use mdf_block::{Kind, Visit, every_in};
use mdf_data::{DataView, Places};
use mdf_group::{ChannelRow, GroupRow};
use mdf_num::{Bytes, Halt, Memory, Rows, Span, Stop};
use mdf_stream::add_part;
use mdf_vlsd::{Streams, ValueStream};
use std::alloc::Global;
use std::collections::BTreeMap;

/// The stream of a data group (DGBLOCK), with its channel groups and the places of their records in it.
#[derive(Drop)]
pub struct Held<'a> {
    /// The stream.
    pub view: &'a DataView,
    /// The channel groups (CGBLOCKs), in order.
    pub groups: &'a [GroupRow],
    /// The places of the bodies of their records in the stream, group by group.
    pub lists: &'a [Places],
    /// The numbers of the groups that hold values of variable length, by their addresses.
    pub table: &'a BTreeMap<u64, u64>,
}

/// The records of a group that are looked at.
#[derive(Drop)]
pub struct Records<'a> {
    /// How many data bytes they have.
    pub data_bytes: u32,
    /// The places of their bodies in the stream.
    pub places: &'a Places,
    /// How many they are: the first so many of these places.
    pub count: u64,
}

/// Adds a group to a table of the groups that hold values, if it is one.
fn add_group(table: &mut BTreeMap<u64, u64>, group: &GroupRow, k: u64) -> Result<(), Memory>
    ensures { OnOk result ((at : ℕ) → get nat_cmp table.new at
        ≡ (if is_variable group.now && nat_eq group.now.at at then Some k else get nat_cmp table.old at)) }
{
    if group.is_variable() {
        table.insert(group.at, k)?;
    }
    Ok(())
}

/// The numbers of the groups that hold values of variable length, by their addresses; of those at one address the first.
///
/// # Errors
/// Want of memory.
pub fn values_table(alloc: Global, groups: &[GroupRow]) -> Result<BTreeMap<u64, u64>, Memory>
    ensures { IfOk result (λ table. IsValuesTable groups.now (get nat_cmp table)) }
{
    let mut table = BTreeMap::new(alloc);
    let mut k = groups.len();
    while k > 0 {
        k -= 1;
        add_group(&mut table, &groups[k], k as u64)?;
    }
    Ok(table)
}

/// Place `row`; 0 past the end.
pub fn place_at(places: &Places, row: u64) -> u64
    ensures { result ≡ slice_index_or places.now row 0 }
{
    places.get(row).unwrap_or(0)
}

/// How many bytes the value in the record at a place has, with its length. The search for it begins at part `near` of the
/// stream of the records.
#[inline(always)]
pub(crate) fn value_len_in<P: Span>(
    span: &mut P,
    view: &DataView,
    place: u64,
    near: &mut usize,
) -> Result<u64, Stop>
    requires inside { ArePartsInside (P.size span.old) view.now }
    requires room { place + 4 ≤ stream_size view.now }
    ensures reads { Looks P.Span span.old span.new P.may_want result (λ file len. len ≡ value_size (stream_of file view.now) (stream_size view.now) place) }
    ensures within { IfOk result (λ len. place + len ≤ stream_size view.now) }
{
    let len = 4 + view.u32_near(span, place, near)? as u64;
    Ok(len.min(view.len() - place))
}

/// Adds the parts of a range of a stream at the end of a view. The search for them begins at part `near` of the stream.
#[inline(always)]
fn add_range(
    all: &mut DataView,
    view: &DataView,
    place: u64,
    len: u64,
    near: &mut usize,
) -> Result<(), Memory>
    requires within { place + len ≤ stream_size view.now }
    ensures { OnOk result (all.new ≡ all.old ++ parts_between view.now place len) }
{
    let _total = view.len();
    let mut at = place;
    let mut left = len;
    while left > 0 {
        let part = view.first_part(at, left, near);
        add_part(all, part)?;
        at += part.len;
        left -= part.len;
    }
    Ok(())
}

/// Adds the value in the record at a place, with its length, at the end of a view. The search for it begins at part
/// `near` of the stream of the records.
fn add_value<P: Span>(
    span: &mut P,
    view: &DataView,
    place: u64,
    values: &mut DataView,
    near: &mut usize,
) -> Result<(), Stop>
    requires inside { ArePartsInside (P.size span.old) view.now }
    requires room { place + 4 ≤ stream_size view.now }
    ensures reads { Looks P.Span span.old span.new true result (λ file _. values.new ≡ values.old ++ parts_between view.now place (value_size (stream_of file view.now) (stream_size view.now) place)) }
    ensures lies { ArePartsInside (P.size span.old) values.old → OnOk result (ArePartsInside (P.size span.old) values.new) }
{
    let len = value_len_in(span, view, place, near)?;
    add_range(values, view, place, len, near)?;
    Ok(())
}

/// The values in the records at these places, each with its length, one behind the other.
fn values_in<P: Span>(
    alloc: Global,
    span: &mut P,
    view: &DataView,
    places: &Places,
) -> Result<DataView, Stop>
    requires inside { ArePartsInside (P.size span.old) view.now }
    requires room { AllByRecursion (λ place. place + 4 ≤ stream_size view.now) places.now }
    ensures reads { Looks P.Span span.old span.new true result (λ file values. values ≡ values_at file view.now places.now) }
    ensures inside { IfOk result (ArePartsInside (P.size span.old)) }
{
    let mut values = DataView::empty(alloc);
    let mut k = 0;
    let mut near = 0;
    while k < places.len() {
        add_value(span, view, place_at(places, k), &mut values, &mut near)?;
        k += 1;
    }
    Ok(values)
}

/// The number of the group of values that stands at an address, if one does.
pub(crate) fn values_group(held: &Held, at: u64) -> Option<u64>
    requires table { IsValuesTable held.now.groups.now (get nat_cmp held.now.table.now) }
    ensures { result ≡ values_group held.now.groups.now at 0 }
{
    held.table.get(&at).copied()
}

/// List `k`; past the end the other one.
pub fn places_or<'a>(lists: &'a [Places], k: usize, other: &'a Places) -> &'a Places
    ensures { result.now ≡ slice_index_or lists.now k other.now }
{
    if k < lists.len() { &lists[k] } else { other }
}

/// The values of a channel whose own link is `at`: those in the records of a group that stands there, or those where the
/// link leads to.
#[tactic(auto, unfolding(crate::specs::Values::channel_values))]
fn channel_values_in<P: Span>(
    alloc: Global,
    span: &mut P,
    held: &Held,
    at: u64,
) -> Result<DataView, Halt<ReadFault>>
    requires held { IsHeld (P.size span.old) held.now }
    ensures reads { Reads P.Span span.old span.new true read_refusal result (λ file. channel_values file (held_of held.now) at) }
    ensures inside { IfOk result (ArePartsInside (P.size span.old)) }
{
    let Some(k) = values_group(held, at) else {
        return view_of(alloc, span, at, Kind::Sd);
    };
    let none = Places::empty(alloc);
    let places = places_or(held.lists, k as usize, &none);
    let values = values_in(alloc, span, held.view, places)?;
    Ok(values)
}

/// Whether a whole value stands at an offset of a stream. The search for it begins at part `near`.
fn has_value_in<P: Span>(
    span: &mut P,
    values: &DataView,
    offset: u64,
    near: &mut usize,
) -> Result<bool, Stop>
    requires inside { ArePartsInside (P.size span.old) values.now }
    ensures reads { Looks P.Span span.old span.new P.may_want result (λ file has. has ≡ has_value (stream_of file values.now) offset) }
{
    let total = values.len();
    let Some(place) = offset.checked_add(4) else {
        return Ok(false);
    };
    if place > total {
        return Ok(false);
    }
    let size = values.u32_near(span, offset, near)?;
    Ok(place + size as u64 <= total)
}

/// Values of variable length that an offset may meet. A contract sees them by whether a whole value stands at an offset, over the bytes
/// of the file.
pub(crate) trait Met {
    /// Whether a whole value stands at an offset.
    ghost meets: { Self → List ℕ → ℕ → Bool };

    /// What a file of so many bytes must have for it.
    ghost needs: { Self → ℕ → Type 0 };

    /// Whether a whole value stands at an offset. The search for it begins at part `near`.
    ///
    /// # Errors
    /// The span's own.
    fn meets_in<P: Span>(&self, span: &mut P, offset: u64, near: &mut usize) -> Result<bool, Stop>
        requires needs { needs self.now (P.size span.old) }
        ensures reads { Looks P.Span span.old span.new P.may_want result (λ file has. has ≡ meets self.now file offset) };
}

/// Values that stand in the file.
impl Met for DataView {
    ghost use Rattle.mdf_stream.specs.Parts.{ArePartsInside, stream_of};
    ghost use Rattle.mdf_content.specs.Values.{has_value};

    ghost meets = { λ values f. has_value (stream_of f values) };

    ghost needs = { λ values size. ArePartsInside size values };

    fn meets_in<P: Span>(&self, span: &mut P, offset: u64, near: &mut usize) -> Result<bool, Stop> {
        has_value_in(span, self, offset, near)
    }
}

/// Where the offset of a channel of variable length lies in so many data bytes.
fn offset_field(channel: &ChannelRow, data_bytes: u32) -> Field
    requires kind { channel.now.kind ≡ 1 }
    requires placed { HasOffset data_bytes channel.now }
    ensures spot { spot_of result ≡ spot_in (field_of channel.now) }
    ensures inside { covered_end (spot_of result) ≤ data_bytes }
{
    Field {
        byte: channel.byte,
        bit: channel.bit,
        bits: channel.bits as u8,
        big: false,
    }
}

/// The number of a field in the record at a place, which has so many data bytes. The buffer has as many bytes as the
/// field touches. The search for them begins at part `near` of the stream.
#[inline(always)]
fn number_by<P: Span>(
    span: &mut P,
    view: &DataView,
    field: Field,
    data_bytes: u32,
    place: u64,
    covered: &mut [u8],
    near: &mut usize,
) -> Result<u64, Stop>
    requires size { length covered.old ≡ covered_size (spot_of field) }
    requires covered { covered_end (spot_of field) ≤ data_bytes }
    requires inside { ArePartsInside (P.size span.old) view.now }
    requires within { place + data_bytes ≤ stream_size view.now }
    ensures reads { Looks P.Span span.old span.new P.may_want result (λ file number. number ≡ field_number (spot_of field) (bytes_at data_bytes (stream_of file view.now) place)) }
{
    let _total = view.len();
    let front = Field {
        byte: 0,
        bit: field.bit,
        bits: field.bits,
        big: field.big,
    };
    view.read_near(span, place + field.byte as u64, covered, near)?;
    Ok(get(covered, front))
}

/// The number of a field in the record at a place, which has so many data bytes. The search for it begins at part `near` of
/// the stream.
#[inline(always)]
fn number_in<P: Span>(
    span: &mut P,
    view: &DataView,
    field: Field,
    data_bytes: u32,
    place: u64,
    near: &mut usize,
) -> Result<u64, Stop>
    requires covered { covered_end (spot_of field) ≤ data_bytes }
    requires inside { ArePartsInside (P.size span.old) view.now }
    requires within { place + data_bytes ≤ stream_size view.now }
    ensures reads { Looks P.Span span.old span.new P.may_want result (λ file number. number ≡ field_number (spot_of field) (bytes_at data_bytes (stream_of file view.now) place)) }
{
    let size = (field.bit as usize + field.bits as usize + 7) / 8;
    let mut bytes = [0u8; 9];
    number_by(
        span,
        view,
        field,
        data_bytes,
        place,
        &mut bytes[..size],
        near,
    )
}

/// Nothing, where the offset of a channel in a row meets a value.
fn offset_met_in<V: Met, P: Span>(
    span: &mut P,
    view: &DataView,
    records: &Records,
    values: &V,
    channel: &ChannelRow,
    c: u32,
    row: u64,
    near: &mut usize,
    value_near: &mut usize,
) -> Result<(), Halt<ReadFault>>
    requires kind { channel.now.kind ≡ 1 }
    requires placed { HasOffset records.now.data_bytes channel.now }
    requires inside { ArePartsInside (P.size span.old) view.now }
    requires values { V.needs values.now (P.size span.old) }
    requires within { slice_index_or records.now.places.now row 0 + records.now.data_bytes ≤ stream_size view.now }
    ensures reads { Reads P.Span span.old span.new true read_refusal result (λ file. offset_met (V.meets values.now file) (offset_in (stream_of file view.now) (records_of records.now) channel.now) c row) }
{
    let place = place_at(records.places, row);
    let field = offset_field(channel, records.data_bytes);
    let offset = number_in(span, view, field, records.data_bytes, place, near)?;
    let met = values.meets_in(span, offset, value_near)?;
    if !met {
        return Err(Halt::Fault(ReadFault::Offset {
            channel: c,
            row,
            offset,
        }));
    }
    Ok(())
}

/// Nothing, where the offsets of a channel meet values.
pub(crate) fn offsets_met_in<V: Met, P: Span>(
    span: &mut P,
    view: &DataView,
    records: &Records,
    values: &V,
    channel: &ChannelRow,
    c: u32,
) -> Result<(), Halt<ReadFault>>
    requires kind { channel.now.kind ≡ 1 }
    requires placed { HasOffset records.now.data_bytes channel.now }
    requires inside { ArePartsInside (P.size span.old) view.now }
    requires values { V.needs values.now (P.size span.old) }
    requires within { AreWithin (stream_size view.now) (records_of records.now) }
    ensures reads { Reads P.Span span.old span.new true read_refusal result (λ file. offsets_met (V.meets values.now file) (offset_in (stream_of file view.now) (records_of records.now) channel.now) c 0 records.now.count) }
{
    let count = records.count;
    let mut row = 0;
    let mut near = 0;
    let mut value_near = 0;
    while row < count {
        offset_met_in(
            span,
            view,
            records,
            values,
            channel,
            c,
            row,
            &mut near,
            &mut value_near,
        )?;
        row += 1;
    }
    Ok(())
}

/// So many bytes of a stream.
pub(crate) fn bytes_in<P: Span>(
    alloc: Global,
    span: &mut P,
    view: &DataView,
    len: u64,
    room: &mut Room,
) -> Result<Bytes, Stop>
    requires inside { ArePartsInside (P.size span.old) view.now }
    requires within { len ≤ stream_size view.now }
    ensures reads { Looks P.Span span.old span.new true result (λ file bytes. bytes ≡ bytes_at len (stream_of file view.now) 0) }
{
    let mut bytes = room.zeros(alloc, len)?;
    view.read_in(span, 0, bytes.as_mut_slice())?;
    Ok(Bytes::from_vec(bytes))
}

/// All bytes of a stream.
pub(crate) fn stream_in<P: Span>(
    alloc: Global,
    span: &mut P,
    view: &DataView,
    room: &mut Room,
) -> Result<Bytes, Stop>
    requires inside { ArePartsInside (P.size span.old) view.now }
    ensures reads { Looks P.Span span.old span.new true result (λ file bytes. bytes ≡ stream_of file view.now) }
{
    bytes_in(alloc, span, view, view.len(), room)
}

/// The values of a channel of variable length, whose number in its group is `c`.
#[tactic(auto, unfolding(crate::specs::Found::channel_found))]
fn channel_found_in<P: Span>(
    alloc: Global,
    span: &mut P,
    held: &Held,
    records: &Records,
    channel: &ChannelRow,
    c: u32,
    room: &mut Room,
) -> Result<DataView, Halt<ReadFault>>
    requires kind { channel.now.kind ≡ 1 }
    requires placed { HasOffset records.now.data_bytes channel.now }
    requires held { IsHeld (P.size span.old) held.now }
    requires within { AreWithin (stream_size held.now.view.now) (records_of records.now) }
    ensures reads { Reads P.Span span.old span.new true read_refusal result (λ file. channel_found file (held_of held.now) (records_of records.now) channel.now c) }
    ensures inside { IfOk result (ArePartsInside (P.size span.old)) }
{
    let values = channel_values_in(alloc, span, held, channel.values)?;
    room.take_parts(values.count())?;
    offsets_met_in(span, held.view, records, &values, channel, c)?;
    Ok(values)
}

/// The channels of a group, with its records.
#[derive(Drop)]
struct Channels<'a> {
    held: &'a Held<'a>,
    records: &'a Records<'a>,
}

impl Visit for Channels<'_> {
    ghost use Rattle.mdf_stream.specs.Parts.{ArePartsInside, stream_size};
    ghost use Rattle.mdf_content.specs.Values.{AreWithin, IsHeld, held_of, records_of};
    ghost use Rattle.mdf_content.specs.Found.{channel_place};
    ghost use Rattle.mdf_content.specs.Layouts.{HasOffset};

    type Item = ChannelRow;

    type Found = DataView;

    type State = ();

    type Room = Room;

    type Fault = ReadFault;

    ghost refusal = { read_refusal };

    ghost read = { λ channels file. channel_place file (held_of channels.held.now) (records_of channels.records.now) };

    ghost needs = { λ channels size. IsHeld size channels.held.now × AreWithin (stream_size channels.held.now.view.now) (records_of channels.records.now) };

    ghost admits = { λ channels _. HasOffset channels.records.now.data_bytes };

    ghost keeps = { λ _. ArePartsInside };

    #[tactic(auto, unfolding(crate::specs::Found::channel_place))]
    fn item_in<P: Span>(
        &self,
        alloc: Global,
        span: &mut P,
        k: usize,
        item: &ChannelRow,
        state: (),
        room: &mut Room,
    ) -> Result<(Option<DataView>, ()), Halt<ReadFault>> {
        if !item.is_of_values() {
            return Ok((None, state));
        }
        if k > u32::MAX as usize {
            return Err(Halt::Memory);
        }
        let values = channel_found_in(alloc, span, self.held, self.records, item, k as u32, room)?;
        Ok((Some(values), state))
    }
}

/// The values of the channels of variable length (`cn_type` 1) of a group, in order: those of the group of values that the
/// channel names, or those where its link to data leads.
#[tactic(auto, unfolding(crate::specs::Found::values_found))]
pub(crate) fn values_found_in<P: Span>(
    alloc: Global,
    span: &mut P,
    held: &Held,
    records: &Records,
    channels: &[ChannelRow],
    room: &mut Room,
) -> Result<Rows<DataView>, Halt<ReadFault>>
    requires held { IsHeld (P.size span.old) held.now }
    requires within { AreWithin (stream_size held.now.view.now) (records_of records.now) }
    requires placed { AllByNumber (λ _. HasOffset records.now.data_bytes) channels.now }
    ensures reads { Reads P.Span span.old span.new true read_refusal result (λ file. values_found file (held_of held.now) (records_of records.now) channels.now) }
    ensures inside { IfOk result (AllByRecursion (ArePartsInside (P.size span.old))) }
{
    let (values, _) = every_in(alloc, &Channels { held, records }, span, channels, (), room)?;
    Ok(values)
}

/// The streams of these parts.
pub(crate) fn fetch_streams_in<P: Span>(
    alloc: Global,
    span: &mut P,
    views: &[DataView],
    room: &mut Room,
) -> Result<Streams, Stop>
    requires inside { AllByRecursion (ArePartsInside (P.size span.old)) views.now }
    ensures reads { Looks P.Span span.old span.new true result (λ file streams. streams ≡ map (stream_of file) views.now) }
{
    let mut streams = Rows::empty(alloc);
    for view in views {
        let bytes = stream_in(alloc, span, view, room)?;
        streams.push(ValueStream::from_bytes(bytes))?;
    }
    Ok(streams)
}
