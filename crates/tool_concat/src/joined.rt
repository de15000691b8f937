ghost use Rattle.std.specs.Prelude.{ℕ, ◌≡◌, ◌≢◌, ◌<◌, length, slice_index_or, IfOk, OnOk};
ghost use Rattle.mdf_model.specs.declared.part.Measure.{Measure};
ghost use Rattle.mdf_model.specs.Measurement.{HasSamples};
ghost use Rattle.tool_concat.specs.Joined.{IsJoined, IsJoinedGroup, joined_streams};
ghost use Rattle.tool_concat.specs.Wide.{IsNoneWide, NoneWideTo};

use crate::moved::with_moved;
use mdf_model::Measurement;
use mdf_num::{Bytes, Memory, Rows};
use mdf_vlsd::{Streams, ValueStream};
use std::alloc::Global;

/// Streams with others one by one behind them.
fn joined_streams(
    alloc: Global,
    streams: &[ValueStream],
    others: &[ValueStream],
) -> Result<Streams, Memory>
    requires { length streams.now ≡ length others.now }
    ensures { IfOk result (λ joined. joined ≡ joined_streams streams.now others.now) }
{
    let mut joined = Rows::empty(alloc);
    for k in 0..streams.len() {
        let mut bytes = Bytes::from_slice(alloc, streams[k].bytes())?;
        bytes.push_slice(others[k].bytes())?;
        joined.push(ValueStream::from_bytes(bytes))?;
    }
    Ok(joined)
}

/// Puts the records of a group of the second behind those of the first.
fn join_group(
    alloc: Global,
    first: &mut Measurement,
    second: &Measurement,
    group: u32,
) -> Result<(), Memory>
    requires group { group < length first.old.groups }
    requires other { group < length second.now.groups }
    requires samples { (d : Measure) → HasSamples (slice_index_or first.old.groups group d) }
    requires others { (d : Measure) → HasSamples (slice_index_or second.now.groups group d) }
    requires shape { (d : Measure) → (slice_index_or first.old.groups group d).shape ≡ (slice_index_or second.now.groups group d).shape }
    requires held { (d : Measure) → IsNoneWide (slice_index_or first.old.groups group d) (slice_index_or second.now.groups group d) }
    ensures joined { (d : Measure) → OnOk result (IsJoinedGroup (slice_index_or first.old.groups group d) (slice_index_or second.now.groups group d)
        (slice_index_or first.new.groups group d)) }
    ensures others { (k : ℕ) (d : Measure) → k ≢ group → OnOk result (slice_index_or first.new.groups k d ≡ slice_index_or first.old.groups k d) }
    ensures count { OnOk result (length first.new.groups ≡ length first.old.groups) }
    ensures rest { OnOk result (first.new ≡ record first.old { groups = first.new.groups }) }
{
    let Some(count) = first.samples(group).checked_add(second.samples(group)) else {
        return Err(Memory);
    };
    let before = first.take_content(alloc, group);
    let own = first.part(group).streams.as_slice();
    let part = second.part(group);
    let content = with_moved(
        alloc,
        before,
        second.shape(group),
        own,
        part.content.as_slice(),
        second.samples(group),
    )?;
    let streams = joined_streams(alloc, own, part.streams.as_slice())?;
    first.replace(group, count, content, streams);
    Ok(())
}

/// Puts the records of each group of the second behind those of the first.
pub(crate) fn join_all(
    alloc: Global,
    first: &mut Measurement,
    second: &Measurement,
) -> Result<(), Memory>
    requires samples { (k : ℕ) (d : Measure) → k < length first.old.groups → HasSamples (slice_index_or first.old.groups k d) }
    requires others { (k : ℕ) (d : Measure) → k < length second.now.groups → HasSamples (slice_index_or second.now.groups k d) }
    requires count { length first.old.groups ≡ length second.now.groups }
    requires shapes { (k : ℕ) (d : Measure) → k < length first.old.groups
        → (slice_index_or first.old.groups k d).shape ≡ (slice_index_or second.now.groups k d).shape }
    requires held { NoneWideTo first.old.groups second.now.groups (length first.old.groups) }
    ensures { OnOk result (IsJoined first.old second.now first.new) }
{
    for group in 0..first.groups() {
        join_group(alloc, first, second, group)?;
    }
    Ok(())
}
