ghost use Rattle.std.specs.Prelude.{ℕ, ◌≡◌, ◌+◌, ◌*◌, ◌^◌, ◌<◌, ◌≤◌, ◌↔◌, IsTrue, IfNone, IfSome, length, slice_index_or};
ghost use Rattle.std.specs.List.{AllByRecursion};
ghost use Rattle.mdf_format.specs.Row.{IsNumberPlaced};
ghost use Rattle.mdf_layout.specs.Layout.{record_size};
ghost use Rattle.mdf_layout.specs.Rule.{spot_in};
ghost use Rattle.mdf_layout.specs.declared.field.FieldKind.TheVariants as kinds;
ghost use Rattle.mdf_model.specs.declared.part.Measure.{Measure};
ghost use Rattle.mdf_model.specs.Measurement.{HasSamples};
ghost use Rattle.tool_concat.specs.Moved.{offset_in};
ghost use Rattle.tool_concat.specs.Wide.{HasPast, IsFirstWide, IsFirstWideAt, IsFirstWideIn, IsNoneWide, IsWide, NoneWideTo};

use crate::record::{offset_field, record_in, row_at, stream_length};
use mdf_bits::get;
use mdf_layout::{FieldRow, Shape, is_variable};
use mdf_model::Measurement;
use mdf_vlsd::ValueStream;

/// Whether an offset is past the bits of its channel once it is moved.
fn is_past(row: FieldRow, shift: u64, bytes: &[u8]) -> bool
    requires kind { row.kind ≡ kinds.Variable }
    requires placed { IsNumberPlaced (length bytes.now) (spot_in row) }
    ensures { IsTrue result ↔ (2 ^ row.bits ≤ offset_in row bytes.now + shift) }
{
    let offset = get(bytes, offset_field(row, bytes.len()));
    (u128::from(offset) + u128::from(shift)) >> row.bits != 0
}

/// Whether one of so many records has such an offset.
fn has_past(shape: &Shape, content: &[u8], count: u64, row: FieldRow, shift: u64) -> bool
    requires long { length content.now ≡ count * record_size shape.now }
    requires kind { row.kind ≡ kinds.Variable }
    requires placed { IsNumberPlaced shape.now.data_bytes (spot_in row) }
    ensures past { IsTrue result → HasPast shape.now content.now count row shift }
    ensures held { HasPast shape.now content.now count row shift → IsTrue result }
{
    let data_bytes = shape.data_bytes() as usize;
    for i in 0..count {
        let bytes = record_in(shape, content, count, i);
        if is_past(row, shift, &bytes[..data_bytes]) {
            return true;
        }
    }
    false
}

/// The first channel of a group with such an offset, where the group comes behind one with these streams.
fn wide_channel(shape: &Shape, content: &[u8], count: u64, streams: &[ValueStream]) -> Option<u32>
    requires long { length content.now ≡ count * record_size shape.now }
    ensures wide { IfSome result (IsFirstWideAt shape.now content.now count streams.now) }
    ensures held { IfNone result ((k : ℕ) → ¬ IsWide shape.now content.now count streams.now k) }
{
    let rows = shape.fields().as_slice();
    let mut stream = 0;
    for channel in 0..rows.len() {
        let row = row_at(rows, channel);
        if !is_variable(row) {
            continue;
        }
        if has_past(shape, content, count, row, stream_length(streams, stream)) {
            return Some(channel as u32);
        }
        stream += 1;
    }
    None
}

/// The first channel of a group with such an offset.
fn wide_at(first: &Measurement, second: &Measurement, group: u32) -> Option<u32>
    requires first { group < length first.now.groups }
    requires second { group < length second.now.groups }
    requires samples { (d : Measure) → HasSamples (slice_index_or second.now.groups group d) }
    ensures wide { (d : Measure) → IfSome result (IsFirstWideIn (slice_index_or first.now.groups group d) (slice_index_or second.now.groups group d)) }
    ensures held { (d : Measure) → IfNone result (IsNoneWide (slice_index_or first.now.groups group d) (slice_index_or second.now.groups group d)) }
{
    let part = second.part(group);
    wide_channel(
        second.shape(group),
        part.content.as_slice(),
        second.samples(group),
        first.part(group).streams.as_slice(),
    )
}

/// A channel of a group.
#[derive(Clone, Copy)]
pub(crate) struct Place {
    pub group: u32,
    pub channel: u32,
}

/// The first group with such a channel, and its first one.
pub(crate) fn first_wide(first: &Measurement, second: &Measurement) -> Option<Place>
    requires count { length first.now.groups ≡ length second.now.groups }
    requires samples { AllByRecursion HasSamples second.now.groups }
    ensures wide { IfSome result (λ place. IsFirstWide first.now.groups second.now.groups place.group place.channel) }
    ensures held { IfNone result (NoneWideTo first.now.groups second.now.groups (length first.now.groups)) }
{
    for group in 0..first.groups() {
        match wide_at(first, second, group) {
            Some(channel) => return Some(Place { group, channel }),
            None => {}
        }
    }
    None
}
