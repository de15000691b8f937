// A group whose channels are being named.
ghost use Rattle.std.specs.Prelude.{◌≡◌, ◌≤◌, ◌*◌, ◌+◌, ◌<◌, ◌^◌, length, IfOk, IsSome, OnErr};
ghost use Rattle.acq_script.specs.Done.{done_as};
ghost use Rattle.acq_script.specs.Draft.{whole, start_of, free_behind, channel_kind, channel_row, group_row, new_draft, with_channel, with_unit, measured, set_unit};

use mdf_block::Note;
use mdf_group::{ChannelRow, GroupRow};
use mdf_num::{Bytes, Memory, Rows};
use script_line::{ChannelForm, ValueType};
use std::alloc::Global;
use std::mem::replace;

/// The most channels that a group can have.
const MOST_CHANNELS: u64 = 256;

/// A group whose channels are being named.
#[derive(Drop)]
pub(crate) struct Draft {
    pub name: Bytes,
    /// The channels so far.
    pub channels: Rows<ChannelRow>,
    /// The next free bit of the data bytes.
    pub free: u32,
    /// The next position of an invalidation bit.
    pub positions: u32,
    /// Whether one of the channels is the master.
    pub master: bool,
    /// Whether the last line was that of a channel, so that its unit can follow.
    pub unit: bool,
}

/// A group of this name, without channels yet.
pub(crate) fn new_draft(alloc: Global, name: &[u8]) -> Result<Draft, Memory>
    ensures { IfOk result (λ draft. draft ≡ new_draft name.now) }
{
    Ok(Draft {
        name: Bytes::from_slice(alloc, name)?,
        channels: Rows::empty(alloc),
        free: 0,
        positions: 0,
        master: false,
        unit: false,
    })
}

/// The first bit from this one on that begins a byte.
fn whole(bit: u32) -> u32
    requires { bit < 2 ^ 31 }
    ensures { result ≡ whole bit }
{
    (bit + 7) / 8 * 8
}

/// Where the field of a value of this type begins, where this bit is the next free one.
fn start_of(kind: ValueType, free: u32) -> u32
    requires { free < 2 ^ 30 }
    ensures { result ≡ start_of kind free }
{
    if kind.packed { free } else { whole(free) }
}

/// The next free bit behind a field of this type.
fn free_behind(kind: ValueType, free: u32) -> u32
    requires free { free < 2 ^ 29 }
    requires bits { kind.bits ≤ 2040 }
    ensures { result ≡ free_behind kind free }
{
    let end = start_of(kind, free) + kind.bits;
    if kind.packed { end } else { whole(end) }
}

/// The kind of a channel (`cn_type`): 1 for values of variable length, 2 for a master, else 0.
fn channel_kind(form: ChannelForm) -> u8
    ensures { result ≡ channel_kind form }
{
    if form.kind.variable {
        1
    } else if form.master {
        2
    } else {
        0
    }
}

/// A channel of this name and form, whose field begins at this bit, and whose invalidation bit, where it has one, has this
/// position.
fn channel_row(name: Bytes, form: ChannelForm, start: u32, position: u32) -> ChannelRow
    ensures { result ≡ channel_row name form start position }
{
    ChannelRow {
        at: 0,
        kind: channel_kind(form),
        sync: if form.master { 1 } else { 0 },
        data_type: form.kind.data_type,
        bit: (start % 8) as u8,
        byte: start / 8,
        bits: form.kind.bits,
        flags: if form.inval { 2 } else { 0 },
        inval: if form.inval { position } else { 0 },
        precision: 0,
        ranges: [0; 6],
        name: Note::Plain(name),
        source: None,
        conv: None,
        unit: Note::Nothing,
        comment: Note::Nothing,
        values: 0,
        extra: 0,
    }
}

/// Adds a channel to the group, and answers whether it is admitted: there are at most 256, and at most one is the master.
pub(crate) fn add_channel(
    alloc: Global,
    draft: &mut Draft,
    name: &[u8],
    form: ChannelForm,
) -> Result<bool, Memory>
    requires free { draft.old.free ≤ 2048 * length draft.old.channels }
    requires positions { draft.old.positions ≤ length draft.old.channels }
    requires bits { form.kind.bits ≤ 2040 }
    ensures found { IfOk result (λ done. with_channel draft.old name.now form ≡ done_as done draft.new) }
    ensures wanted { OnErr result (IsSome (with_channel draft.old name.now form)) }
{
    if draft.channels.len() >= MOST_CHANNELS || (draft.master && form.master) {
        return Ok(false);
    }
    let name = Bytes::from_slice(alloc, name)?;
    let start = start_of(form.kind, draft.free);
    draft.free = free_behind(form.kind, draft.free);
    draft
        .channels
        .push(channel_row(name, form, start, draft.positions))?;
    if form.inval {
        draft.positions += 1;
    }
    draft.master = draft.master || form.master;
    draft.unit = true;
    Ok(true)
}

/// The channel with this unit.
fn measured(row: ChannelRow, unit: Bytes) -> ChannelRow
    ensures { result ≡ measured unit row }
{
    let mut row = row;
    row.unit = Note::Plain(unit);
    row
}

/// The channels, the last of them with this unit.
#[tactic(auto, using(crate::proofs::Drafts::unit_last))]
fn set_unit(channels: Rows<ChannelRow>, unit: Bytes) -> Result<Rows<ChannelRow>, Memory>
    ensures { IfOk result (λ rows. rows ≡ set_unit unit channels) }
{
    let mut channels = channels.into_vec();
    match channels.pop() {
        Some(row) => {
            channels.push(measured(row, unit))?;
            Ok(Rows::from_vec(channels))
        }
        None => Ok(Rows::from_vec(channels)),
    }
}

/// Gives the last channel of the group this unit, and answers whether the last line was that of the channel.
pub(crate) fn add_unit(alloc: Global, draft: &mut Draft, unit: &[u8]) -> Result<bool, Memory>
    ensures found { IfOk result (λ done. with_unit draft.old unit.now ≡ done_as done draft.new) }
    ensures wanted { OnErr result (IsSome (with_unit draft.old unit.now)) }
{
    if !draft.unit {
        return Ok(false);
    }
    let unit = Bytes::from_slice(alloc, unit)?;
    let channels = replace(&mut draft.channels, Rows::empty(alloc));
    draft.channels = set_unit(channels, unit)?;
    draft.unit = false;
    Ok(true)
}

/// The row of the group, which has all begun bytes.
pub(crate) fn group_row(draft: Draft) -> GroupRow
    requires free { draft.free < 2 ^ 31 }
    requires positions { draft.positions < 2 ^ 31 }
    ensures { result ≡ group_row draft }
{
    GroupRow {
        at: 0,
        id: 0,
        cycles: 0,
        flags: 0,
        separator: 0,
        data_bytes: (draft.free + 7) / 8,
        inval_bytes: (draft.positions + 7) / 8,
        name: Note::Plain(draft.name),
        source: None,
        comment: Note::Nothing,
        channels: draft.channels,
    }
}
