// The plan of a part.
ghost use Rattle.std.specs.Prelude.{◌≡◌, None, IfOk};
ghost use Rattle.std.specs.List.{AllByRecursion};
ghost use Rattle.mdf_group.specs.Recordable.{IsRecordableChannel, IsRecordableGroup};
ghost use Rattle.acq_script.specs.Plan.{IsPlan};
ghost use Rattle.book_rotate.specs.Part.{part_plan};

use acq_script::Plan;
use mdf_block::Note;
use mdf_group::{ChannelRow, GroupRow};
use mdf_layout::{Shape, ShapeFault, Shapes, shape_of};
use mdf_num::{Memory, Rows};
use std::alloc::Global;

/// An equal channel, which can be recorded.
fn channel_like(row: &ChannelRow) -> Result<ChannelRow, Memory>
    requires { IsRecordableChannel row.now }
    ensures { IfOk result (λ copy. copy ≡ row.now) }
{
    let name = row.name.copy()?;
    let unit = row.unit.copy()?;
    Ok(ChannelRow {
        at: row.at,
        kind: row.kind,
        sync: row.sync,
        data_type: row.data_type,
        bit: row.bit,
        byte: row.byte,
        bits: row.bits,
        flags: row.flags,
        inval: row.inval,
        precision: row.precision,
        ranges: row.ranges,
        name,
        source: None,
        conv: None,
        unit,
        comment: Note::Nothing,
        values: row.values,
        extra: row.extra,
    })
}

/// Equal channels.
fn channels_like(alloc: Global, rows: &[ChannelRow]) -> Result<Rows<ChannelRow>, Memory>
    requires { AllByRecursion IsRecordableChannel rows.now }
    ensures { IfOk result (λ copies. copies ≡ rows.now) }
{
    let mut copies = Rows::empty(alloc);
    for row in rows {
        copies.push(channel_like(row)?)?;
    }
    Ok(copies)
}

/// An equal group, which can be recorded.
fn group_like(alloc: Global, row: &GroupRow) -> Result<GroupRow, Memory>
    requires { IsRecordableGroup row.now }
    ensures { IfOk result (λ copy. copy ≡ row.now) }
{
    let name = row.name.copy()?;
    let channels = channels_like(alloc, row.channels.as_slice())?;
    Ok(GroupRow {
        at: row.at,
        id: row.id,
        cycles: row.cycles,
        flags: row.flags,
        separator: row.separator,
        data_bytes: row.data_bytes,
        inval_bytes: row.inval_bytes,
        name,
        source: None,
        comment: Note::Nothing,
        channels,
    })
}

/// Equal groups.
fn groups_like(alloc: Global, rows: &[GroupRow]) -> Result<Rows<GroupRow>, Memory>
    requires { AllByRecursion IsRecordableGroup rows.now }
    ensures { IfOk result (λ copies. copies ≡ rows.now) }
{
    let mut copies = Rows::empty(alloc);
    for row in rows {
        copies.push(group_like(alloc, row)?)?;
    }
    Ok(copies)
}

/// An equal layout.
fn shape_like(alloc: Global, shape: &Shape) -> Result<Shape, Memory>
    ensures { IfOk result (λ copy. copy ≡ shape.now) }
{
    match shape_of(
        alloc,
        shape.fields(),
        shape.data_bytes(),
        shape.inval_bytes(),
    ) {
        Ok(copy) => Ok(copy),
        Err(ShapeFault::Bad { .. }) => unreachable!(),
        Err(ShapeFault::Memory) => Err(Memory),
    }
}

/// Equal layouts, for another book over the same plan.
pub fn shapes_like(alloc: Global, shapes: &Shapes) -> Result<Shapes, Memory>
    ensures { IfOk result (λ copies. copies ≡ shapes.now) }
{
    let mut copies = Shapes::empty(alloc);
    for group in 0..shapes.len() {
        let Some(shape) = shapes.get(group) else {
            unreachable!()
        };
        copies.push(shape_like(alloc, shape)?)?;
    }
    Ok(copies)
}

/// The plan of a part of a script with this plan.
pub(crate) fn part_plan(alloc: Global, plan: &Plan) -> Result<Plan, Memory>
    requires { IsPlan plan.now }
    ensures { IfOk result (λ part. part ≡ part_plan plan.now) }
{
    let shapes = shapes_like(alloc, &plan.shapes)?;
    let rows = groups_like(alloc, plan.rows.as_slice())?;
    let owners = plan.owners.copy()?;
    Ok(Plan {
        shapes,
        rows,
        owners,
        sources: plan.sources,
        block: plan.block,
        session: plan.session,
        form: plan.form,
        live: false,
    })
}
