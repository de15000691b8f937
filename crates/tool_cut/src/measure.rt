ghost use Rattle.std.specs.Prelude.{◌≡◌, ◌<◌, length, slice_get, slice_index_or, slice_set, IfSome};
ghost use Rattle.std.specs.List.{AllByRecursion};
ghost use Rattle.mdf_layout.specs.Rule.{IsPlacedAs, spot_in};
ghost use Rattle.mdf_model.specs.declared.part.Measure.{Measure};
ghost use Rattle.mdf_model.specs.Measurement.{HasSamples};
ghost use Rattle.tool_cut.specs.Kept.{cut_by, cut_measure, cut_of};
ghost use Rattle.tool_cut.specs.Master.{master_field};

use crate::kept::{Kept, kept_in};
use crate::master::{Range, master_of};
use mdf_layout::{FieldRow, Shape};
use mdf_model::Measurement;
use std::alloc::Global;

/// The field of a channel, where there is one.
fn field_at(shape: &Shape, channel: usize) -> Option<FieldRow>
    ensures field { result ≡ slice_get shape.now.rows channel }
    ensures placed { IfSome result (λ field. IsPlacedAs field.kind shape.now.data_bytes (spot_in field)) }
{
    shape.fields().get(channel as u64).copied()
}

/// The field of the master of a group, where it has one.
fn master_field(measurement: &Measurement, group: u32) -> Option<FieldRow>
    requires { group < length measurement.now.groups }
    ensures field { (d : Measure) → result ≡ master_field (slice_index_or measurement.now.groups group d) }
    ensures placed { (d : Measure) → IfSome result (λ field. IsPlacedAs field.kind (slice_index_or measurement.now.groups group d).shape.data_bytes (spot_in field)) }
{
    match master_of(measurement.part(group).row.channels.as_slice()) {
        Some(channel) => field_at(measurement.shape(group), channel),
        None => None,
    }
}

/// Leaves of the records of a group those in which the number of a field lies in the range.
fn cut_by(alloc: Global, measurement: &mut Measurement, group: u32, field: FieldRow, range: Range)
    requires group { group < length measurement.old.groups }
    requires samples { (d : Measure) → HasSamples (slice_index_or measurement.old.groups group d) }
    requires placed { (d : Measure) → IsPlacedAs field.kind (slice_index_or measurement.old.groups group d).shape.data_bytes (spot_in field) }
    ensures { (d : Measure) → measurement.new ≡ record measurement.old {
      groups = slice_set measurement.old.groups group (cut_by range.from range.to (slice_index_or measurement.old.groups group d) field);
    } }
{
    let count = measurement.samples(group);
    let content = measurement.take_content(alloc, group);
    let Kept { count, content } = kept_in(measurement.shape(group), content, count, field, range);
    measurement.put_content(group, count, content);
}

/// Cuts a group to the records in which its master lies in the range. A group without a master stays whole.
fn cut_group(alloc: Global, measurement: &mut Measurement, group: u32, range: Range)
    requires group { group < length measurement.old.groups }
    requires samples { (d : Measure) → HasSamples (slice_index_or measurement.old.groups group d) }
    ensures { (d : Measure) → measurement.new ≡ record measurement.old {
      groups = slice_set measurement.old.groups group (cut_measure range.from range.to (slice_index_or measurement.old.groups group d));
    } }
{
    if let Some(field) = master_field(measurement, group) {
        cut_by(alloc, measurement, group, field, range);
    }
}

/// Cuts each group to the records in which its master lies in the range. It takes no memory.
pub(crate) fn cut_all(alloc: Global, measurement: &mut Measurement, range: Range)
    requires samples { AllByRecursion HasSamples measurement.old.groups }
    ensures { measurement.new ≡ cut_of range.from range.to measurement.old }
{
    for group in 0..measurement.groups() {
        cut_group(alloc, measurement, group, range);
    }
}
