// A plan whose groups are being named.
ghost use Rattle.std.specs.Prelude.{◌≡◌, ◌≤◌, ◌<◌, All, length, map, replicate, [], IfOk, IsSome, OnErr};
ghost use Rattle.mdf_group.specs.Recordable.{numbers_of};
ghost use Rattle.mdf_layout.specs.Row.{field_row};
ghost use Rattle.acq_script.specs.Done.{done_as};
ghost use Rattle.acq_script.specs.Sketch.{IsSketch, opening_of, first_sketch, with_group, channel_in, unit_in, plan_with, begun, more_sources, has_room, counted};
ghost use Rattle.script_line.specs.Line.{IsForm};
ghost use Rattle.acq_script.specs.Plan.{layout_of, HasPlace};

use crate::draft::{self, Draft, group_row, new_draft};
use crate::script::{Plan, Script, Task};
use mdf_format::Form;
use mdf_group::{ChannelRow, GroupRow};
use mdf_layout::{
    ChannelNumbers, FieldRow, Shape, ShapeFault, Shapes, field_row, rules_are_tested, shape_of,
};
use mdf_num::{Bytes, Memory, Rows};
use script_line::ChannelForm;
use std::alloc::Global;
use std::mem::replace;

/// The most groups that a plan can have.
const MOST_GROUPS: u64 = 64;

/// The most channels of all groups.
const MOST_CHANNELS: u32 = 1024;

/// The most channels of variable length of all groups.
const MOST_VARIABLE: u32 = 128;

/// The most sources.
const MOST_SOURCES: u64 = 16;

/// How many data bytes a block has at most where the script says nothing of it.
const BLOCK: u32 = 65_536;

/// What the samples cost in all at most where the script says nothing of it.
const SESSION: u64 = 268_435_456;

/// What the lines before the first group say: each limit and the form if one of them does, and whether one is `live`.
#[derive(Clone, Copy)]
pub(crate) struct Preamble {
    /// How many data bytes a block of records has at most.
    pub block: Option<u32>,
    /// What the samples cost in all at most.
    pub session: Option<u64>,
    /// The form of the recording.
    pub form: Option<Form>,
    /// Whether samples are shown while the recording is made.
    pub live: bool,
}

/// What holds for the recording.
#[derive(Clone, Copy)]
pub(crate) struct Opening {
    /// How many data bytes a block of records has at most.
    pub block: u32,
    /// What the samples cost in all at most.
    pub session: u64,
    /// The form of the recording.
    pub form: Form,
    /// Whether samples are shown while the recording is made.
    pub live: bool,
}

/// What there is of all groups.
#[derive(Clone, Copy)]
pub(crate) struct Counts {
    pub channels: u32,
    /// The channels of variable length among them.
    pub variable: u32,
    pub sources: u8,
}

/// A plan whose groups are being named.
#[derive(Drop)]
pub(crate) struct Sketch {
    pub opening: Opening,
    pub counts: Counts,
    /// The source of each group.
    pub owners: Bytes,
    /// The groups before the last one.
    pub rows: Rows<GroupRow>,
    /// The last group.
    pub draft: Draft,
}

/// What holds for the recording if the lines before the first group say this.
pub(crate) fn opening_of(said: Preamble) -> Opening
    ensures { result ≡ opening_of said }
{
    Opening {
        block: said.block.unwrap_or(BLOCK),
        session: said.session.unwrap_or(SESSION),
        form: said.form.unwrap_or(Form::Bare),
        live: said.live,
    }
}

/// The plan of the first group, of this source and name, if they are admitted.
pub(crate) fn first_sketch(
    alloc: Global,
    opening: Opening,
    source: u64,
    name: &[u8],
) -> Result<Option<Sketch>, Memory>
    ensures found { IfOk result (λ found. found ≡ first_sketch opening source name.now) }
    ensures wanted { OnErr result (IsSome (first_sketch opening source name.now)) }
{
    if source >= MOST_SOURCES {
        return Ok(None);
    }
    let owners = Bytes::from_slice(alloc, &[source as u8])?;
    let draft = new_draft(alloc, name)?;
    Ok(Some(Sketch {
        opening,
        counts: Counts {
            channels: 0,
            variable: 0,
            sources: source as u8 + 1,
        },
        owners,
        rows: Rows::empty(alloc),
        draft,
    }))
}

/// So many sources, or those up to this one.
fn more_sources(sources: u8, source: u8) -> u8
    requires { source < 255 }
    ensures { result ≡ more_sources sources source }
{
    if sources <= source {
        source + 1
    } else {
        sources
    }
}

/// Adds the next group to the plan, of this source and name, and answers whether it is admitted: the last group has a
/// channel, and there are at most 64.
pub(crate) fn add_group(
    alloc: Global,
    sketch: &mut Sketch,
    source: u64,
    name: &[u8],
) -> Result<bool, Memory>
    requires { IsSketch sketch.old }
    ensures found { IfOk result (λ done. with_group sketch.old source name.now ≡ done_as done sketch.new) }
    ensures wanted { OnErr result (IsSome (with_group sketch.old source name.now)) }
{
    if source >= MOST_SOURCES
        || sketch.draft.channels.len() == 0
        || sketch.rows.len() + 1 >= MOST_GROUPS
    {
        return Ok(false);
    }
    let next = new_draft(alloc, name)?;
    let last = group_row(replace(&mut sketch.draft, next));
    sketch.rows.push(last)?;
    sketch.owners.push_slice(&[source as u8])?;
    sketch.counts.sources = more_sources(sketch.counts.sources, source as u8);
    Ok(true)
}

/// Whether the groups can have one channel more of this form.
fn has_room(counts: Counts, form: ChannelForm) -> bool
    ensures { result ≡ has_room counts form }
{
    counts.channels < MOST_CHANNELS && !(form.kind.variable && counts.variable >= MOST_VARIABLE)
}

/// What there is of all groups with one channel more of this form.
fn counted(counts: Counts, form: ChannelForm) -> Counts
    requires channels { counts.channels ≤ 1024 }
    requires variable { counts.variable ≤ 128 }
    ensures { result ≡ counted counts form }
{
    Counts {
        channels: counts.channels + 1,
        variable: if form.kind.variable {
            counts.variable + 1
        } else {
            counts.variable
        },
        sources: counts.sources,
    }
}

/// Adds a channel to the last group, and answers whether it is admitted.
pub(crate) fn add_channel(
    alloc: Global,
    sketch: &mut Sketch,
    name: &[u8],
    form: ChannelForm,
) -> Result<bool, Memory>
    requires sketch { IsSketch sketch.old }
    requires form { IsForm form }
    ensures found { IfOk result (λ done. channel_in sketch.old name.now form ≡ done_as done sketch.new) }
    ensures wanted { OnErr result (IsSome (channel_in sketch.old name.now form)) }
{
    if !has_room(sketch.counts, form) {
        return Ok(false);
    }
    sketch.counts = counted(sketch.counts, form);
    draft::add_channel(alloc, &mut sketch.draft, name, form)
}

/// Gives the last channel this unit, and answers whether it is admitted.
pub(crate) fn add_unit(alloc: Global, sketch: &mut Sketch, unit: &[u8]) -> Result<bool, Memory>
    ensures found { IfOk result (λ done. unit_in sketch.old unit.now ≡ done_as done sketch.new) }
    ensures wanted { OnErr result (IsSome (unit_in sketch.old unit.now)) }
{
    draft::add_unit(alloc, &mut sketch.draft, unit)
}

/// The field of a channel.
fn field_of(channel: &ChannelRow) -> FieldRow
    ensures { result ≡ field_row (numbers_of channel.now) }
{
    field_row(ChannelNumbers {
        kind: channel.kind,
        data_type: channel.data_type,
        byte: channel.byte,
        bit: channel.bit,
        bits: channel.bits,
        flags: channel.flags,
        inval: channel.inval,
    })
}

/// The fields of channels.
fn fields_of(alloc: Global, channels: &[ChannelRow]) -> Result<Rows<FieldRow>, Memory>
    ensures { IfOk result (λ rows. rows ≡ map (λ channel. field_row (numbers_of channel)) channels.now) }
{
    let mut rows = Rows::empty(alloc);
    for channel in channels {
        rows.push(field_of(channel))?;
    }
    Ok(rows)
}

/// The layout of a group.
fn shape_of_row(alloc: Global, row: &GroupRow) -> Result<Shape, Memory>
    requires { HasPlace row.now }
    ensures { IfOk result (λ shape. shape ≡ layout_of row.now) }
{
    let fields = fields_of(alloc, row.channels.as_slice())?;
    rules_are_tested();
    match shape_of(alloc, &fields, row.data_bytes, row.inval_bytes) {
        Ok(shape) => Ok(shape),
        Err(ShapeFault::Bad { .. }) => unreachable!(),
        Err(ShapeFault::Memory) => Err(Memory),
    }
}

/// The layouts of groups.
fn shapes_of(alloc: Global, rows: &[GroupRow]) -> Result<Shapes, Memory>
    requires { All HasPlace rows.now }
    ensures { IfOk result (λ shapes. shapes ≡ map layout_of rows.now) }
{
    let mut shapes = Shapes::empty(alloc);
    for row in rows {
        shapes.push(shape_of_row(alloc, row)?)?;
    }
    Ok(shapes)
}

/// A list for each of so many sources, which does nothing yet.
fn new_lists(alloc: Global, sources: u8) -> Result<Rows<Rows<Task>>, Memory>
    ensures { IfOk result (λ lists. lists ≡ replicate sources []) }
{
    let mut lists = Rows::empty(alloc);
    for _ in 0..sources {
        lists.push(Rows::empty(alloc))?;
    }
    Ok(lists)
}

/// The plan that has ended.
fn plan_of(alloc: Global, sketch: Sketch) -> Result<Plan, Memory>
    requires sketch { IsSketch sketch }
    requires some { 1 ≤ length sketch.draft.channels }
    ensures { IfOk result (λ plan. plan ≡ plan_with sketch) }
{
    let Sketch {
        opening,
        counts,
        owners,
        rows,
        draft,
    } = sketch;
    let mut rows = rows;
    rows.push(group_row(draft))?;
    let shapes = shapes_of(alloc, rows.as_slice())?;
    Ok(Plan {
        shapes,
        rows,
        owners,
        sources: counts.sources,
        block: opening.block,
        session: opening.session,
        form: opening.form,
        live: opening.live,
    })
}

/// The script of a plan that has ended, without tasks yet, if its last group has a channel.
pub(crate) fn begun(alloc: Global, sketch: Sketch) -> Result<Option<Script>, Memory>
    requires { IsSketch sketch }
    ensures found { IfOk result (λ found. found ≡ begun sketch) }
    ensures wanted { OnErr result (IsSome (begun sketch)) }
{
    if sketch.draft.channels.len() == 0 {
        return Ok(None);
    }
    let plan = plan_of(alloc, sketch)?;
    let lists = new_lists(alloc, plan.sources)?;
    Ok(Some(Script { plan, lists }))
}
