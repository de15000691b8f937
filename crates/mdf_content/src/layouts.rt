ghost use Rattle.std.specs.Prelude.{◌≡◌, map, true, false, IsTrue, IfOk, IfErr};
ghost use Rattle.mdf_num.specs.Halt.{HaltCause};
ghost use Rattle.mdf_block.specs.Refusal.{Gives, IsPlain, Refuses};
ghost use Rattle.mdf_block.specs.Reads.{Reads};
ghost use Rattle.mdf_block.specs.Every.{AllByNumber};
ghost use Rattle.mdf_group.specs.Group.{is_variable};
ghost use Rattle.mdf_layout.specs.Rule.{IsFirstBad};
ghost use Rattle.mdf_content.specs.Fault.{read_refusal};
ghost use Rattle.mdf_content.specs.Layouts.{HasOffset, field_of, placed_channels, layout, laid_group, has_id_size, layouts};

use crate::ReadFault;
use mdf_block::{Visit, every_in};
use mdf_group::{ChannelRow, DataRow, GroupRow};
use mdf_layout::{ChannelNumbers, FieldRow, Shape, ShapeFault, field_row, shape_of};
use mdf_num::{Halt, Memory, Rows, Span};
use std::alloc::Global;

/// The field of a channel.
pub(crate) fn field_of(channel: &ChannelRow) -> FieldRow
    ensures { result ≡ field_of channel.now }
{
    field_row(ChannelNumbers {
        kind: channel.kind,
        data_type: channel.data_type,
        byte: channel.byte,
        bit: channel.bit,
        bits: channel.bits,
        flags: channel.flags,
        inval: channel.inval,
    })
}

/// The channels that have fields in the records of the group.
fn placed_channels(group: &GroupRow) -> &[ChannelRow]
    ensures { result.now ≡ placed_channels group.now }
{
    let channels = group.channels.as_slice();
    let count = if group.is_variable() {
        0
    } else {
        channels.len()
    };
    &channels[..count]
}

/// The fields of channels.
fn fields_of(alloc: Global, channels: &[ChannelRow]) -> Result<Rows<FieldRow>, Memory>
    ensures { IfOk result (λ fields. fields ≡ map field_of channels.now) }
{
    let mut fields = Rows::empty(alloc);
    for channel in channels {
        fields.push(field_of(channel))?;
    }
    Ok(fields)
}

/// The fault of a group whose least channel that breaks a rule is this one.
fn unplaced(group: &GroupRow, channel: u32) -> ReadFault
    requires bad { IsFirstBad group.now.data_bytes group.now.inval_bytes (map field_of (placed_channels group.now)) channel }
    ensures { Refuses (read_refusal result) (layout group.now) }
{
    let at = placed_channels(group)[channel as usize].at;
    ReadFault::Layout { at }
}

/// The layout of the records of a channel group (CGBLOCK): its channels, `cg_data_bytes` and `cg_inval_bytes`. A group of
/// values of variable length has no channels in its records.
///
/// # Errors
/// `Layout` exactly where a channel breaks a rule of layouts, with the address of the first that does; and `Memory`.
pub fn layout_in(alloc: Global, group: &GroupRow) -> Result<Shape, Halt<ReadFault>>
    ensures found { Gives read_refusal result (layout group.now) }
    ensures offsets { IfOk result (λ _. is_variable group.now ≡ false → AllByNumber (λ _. HasOffset group.now.data_bytes) group.now.channels) }
    ensures plain { IfErr result (IsPlain read_refusal) }
    ensures cause { HaltCause true 0 0 result }
{
    let fields = fields_of(alloc, placed_channels(group))?;
    match shape_of(alloc, &fields, group.data_bytes, group.inval_bytes) {
        Ok(shape) => Ok(shape),
        Err(ShapeFault::Bad { channel }) => Err(Halt::Fault(unplaced(group, channel))),
        Err(ShapeFault::Memory) => Err(Halt::Memory),
    }
}

/// The layouts of the groups of a data group, one after another.
struct Layouts;

impl Visit for Layouts {
    ghost use Rattle.mdf_content.specs.Layouts.{laid_group};

    type Item = GroupRow;

    type Found = ();

    type State = ();

    type Room = ();

    type Fault = ReadFault;

    ghost refusal = { read_refusal };

    ghost read = { λ _ _. laid_group };

    ghost needs = { λ _ _. Unit {0} };

    ghost admits = { λ _ _ _. Unit {0} };

    fn item_in<P: Span>(
        &self,
        alloc: Global,
        _span: &mut P,
        _k: usize,
        item: &GroupRow,
        _state: (),
        _room: &mut (),
    ) -> Result<(Option<()>, ()), Halt<ReadFault>> {
        layout_in(alloc, item)?;
        Ok((None, ()))
    }
}

/// Whether the ids of the records have 1, 2, 4 or 8 bytes, or there are no ids and at most one group.
fn has_id_size(row: &DataRow) -> bool
    ensures { result ≡ has_id_size row.now }
{
    let size = row.id_size;
    size == 0 && row.groups.len() <= 1 || (size == 1 || (size == 2 || (size == 4 || size == 8)))
}

/// Nothing, where the id size of a data group (DGBLOCK) and the layouts of its channel groups are as they must be.
///
/// # Errors
/// `Layout` with the address of the data group exactly where `dg_rec_id_size` is none of 0, 1, 2, 4 and 8, or is 0 with
/// more than one channel group; else with the address of the first channel that breaks a rule of layouts; and want of
/// memory.
#[tactic(auto, unfolding(crate::specs::Layouts::layouts))]
pub fn layouts_in<P: Span>(
    alloc: Global,
    span: &mut P,
    row: &DataRow,
) -> Result<(), Halt<ReadFault>>
    ensures reads { Reads P.Span span.old span.new true read_refusal result (λ file. layouts row.now) }
    ensures ids { IfOk result (λ _. IsTrue (has_id_size row.now)) }
{
    if !has_id_size(row) {
        return Err(Halt::Fault(ReadFault::Layout { at: row.at }));
    }
    every_in(alloc, &Layouts, span, row.groups.as_slice(), (), &mut ())?;
    Ok(())
}
