ghost use Rattle.std.specs.Prelude.{◌≡◌, ◌+◌, ◌≤◌, Some, [], map, slice_index_or, true, false, IfOk};
ghost use Rattle.std.specs.List.{AllByRecursion};
ghost use Rattle.mdf_block.specs.Reads.{Reads};
ghost use Rattle.mdf_stream.specs.Parts.{stream_size, ArePartsInside};
ghost use Rattle.mdf_data.specs.Places.{HaveRoom};
ghost use Rattle.mdf_group.specs.Group.{is_variable};
ghost use Rattle.mdf_content.specs.Fault.{read_refusal};
ghost use Rattle.mdf_content.specs.Found.{IsFoundInside, IsGroupInside, data_at, group_found, groups_found};
ghost use Rattle.mdf_content.specs.Kept.{data_kept};
ghost use Rattle.mdf_content.specs.Records.{known_of, record_size};
ghost use Rattle.mdf_content.specs.Values.{IsHeld, held_of};

use crate::contents::is_strict;
use crate::layouts::{layout_in, layouts_in};
use crate::lower::view_of;
use crate::records::{counted_in, kept_records_in};
use crate::values::{Held, Records, places_or, values_found_in, values_table};
use crate::{ReadFault, Room, Wanted};
use mdf_block::{Kind, Visit, every_in};
use mdf_data::{DataView, Places};
use mdf_group::{DataRow, GroupRow};
use mdf_layout::Shape;
use mdf_num::{Halt, Rows, Span};
use std::alloc::Global;

/// Where what is read of a channel group (CGBLOCK) stands that holds no values of variable length.
#[derive(Drop)]
pub struct Found {
    /// The layout of its records.
    pub shape: Shape,
    /// Its number among the channel groups of its data group, which is that of the places of its records.
    pub which: u64,
    /// How many records it has: the first so many of these places.
    pub count: u64,
    /// The values of its channels of variable length, in order.
    pub values: Rows<DataView>,
}

/// Where what is read of a data group (DGBLOCK) stands.
#[derive(Drop)]
pub struct DataFound {
    /// Its data stream.
    pub view: DataView,
    /// The places of the bodies of all records in the stream, channel group by channel group. Of a group whose records are counted
    /// alone each place is told as 0.
    pub lists: Rows<Places>,
    /// Its channel groups that hold no values of variable length, in order.
    pub groups: Rows<Found>,
    /// Whether nothing is left of its stream, each channel group says how many records it has, and no two have one id.
    pub strict: bool,
}

/// Where what is read of group `k` of a data group stands, which holds no values and whose records have these places.
///
/// # Errors
/// `Layout` exactly where a channel breaks a rule of layouts. Else of each channel of variable length in order: the fault
/// of its link to data, and `Offset` exactly where an offset meets no value. The span's own; and want of memory.
#[tactic(auto, unfolding(crate::specs::Found::group_found))]
fn group_found_in<P: Span>(
    alloc: Global,
    span: &mut P,
    held: &Held,
    k: usize,
    group: &GroupRow,
    places: &Places,
    room: &mut Room,
) -> Result<Found, Halt<ReadFault>>
    requires held { IsHeld (P.size span.old) held.now }
    requires other { is_variable group.now ≡ false }
    requires listed { places.now ≡ slice_index_or held.now.lists.now k [] }
    requires room { AllByRecursion (λ place. place + record_size group.now ≤ stream_size held.now.view.now) places.now }
    ensures reads { Reads P.Span span.old span.new true read_refusal result (λ file. group_found file (held_of held.now) k group.now places.now) }
    ensures inside { IfOk result (IsGroupInside (P.size span.old) held.now.view.now held.now.lists.now) }
{
    let shape = layout_in(alloc, group)?;
    let count = group.cycles.min(places.len());
    let records = Records {
        data_bytes: group.data_bytes,
        places,
        count,
    };
    let values = values_found_in(alloc, span, held, &records, group.channels.as_slice(), room)?;
    Ok(Found {
        shape,
        which: k as u64,
        count,
        values,
    })
}

/// The groups of a data group, with its stream.
#[derive(Drop)]
struct Groups<'a> {
    held: &'a Held<'a>,
}

impl Visit for Groups<'_> {
    ghost use Rattle.mdf_stream.specs.Parts.{stream_size};
    ghost use Rattle.mdf_content.specs.Found.{IsGroupInside, group_place};
    ghost use Rattle.mdf_content.specs.Records.{HasRoom};
    ghost use Rattle.mdf_content.specs.Values.{IsHeld, held_of};

    type Item = GroupRow;

    type Found = Found;

    type State = ();

    type Room = Room;

    type Fault = ReadFault;

    ghost refusal = { read_refusal };

    ghost read = { λ groups file. group_place file (held_of groups.held.now) };

    ghost needs = { λ groups size. IsHeld size groups.held.now };

    ghost admits = { λ groups. HasRoom (stream_size groups.held.now.view.now) groups.held.now.lists.now };

    ghost keeps = { λ groups size. IsGroupInside size groups.held.now.view.now groups.held.now.lists.now };

    #[tactic(auto, unfolding(crate::specs::Found::group_place))]
    fn item_in<P: Span>(
        &self,
        alloc: Global,
        span: &mut P,
        k: usize,
        item: &GroupRow,
        state: (),
        room: &mut Room,
    ) -> Result<(Option<Found>, ()), Halt<ReadFault>> {
        if item.is_variable() {
            return Ok((None, state));
        }
        let none = Places::empty(alloc);
        let places = places_or(self.held.lists, k, &none);
        let found = group_found_in(alloc, span, self.held, k, item, places, room)?;
        Ok((Some(found), state))
    }
}

/// Where what is read of all groups of a data group stands that hold no values.
#[tactic(auto, unfolding(crate::specs::Found::groups_found))]
fn groups_found_in<P: Span>(
    alloc: Global,
    span: &mut P,
    view: &DataView,
    groups: &[GroupRow],
    lists: &[Places],
    room: &mut Room,
) -> Result<Rows<Found>, Halt<ReadFault>>
    requires inside { ArePartsInside (P.size span.old) view.now }
    requires room { HaveRoom (stream_size view.now) (map known_of groups.now) lists.now }
    ensures reads { Reads P.Span span.old span.new true read_refusal result (λ file. groups_found file (record { parts = view.now; groups = groups.now; lists = lists.now })) }
    ensures inside { IfOk result (AllByRecursion (IsGroupInside (P.size span.old) view.now lists.now)) }
{
    let table = values_table(alloc, groups)?;
    let held = Held {
        view,
        groups,
        lists,
        table: &table,
    };
    let (found, _) = every_in(alloc, &Groups { held: &held }, span, groups, (), room)?;
    Ok(found)
}

/// Where what is read of a data group stands whose records are found.
#[tactic(auto, unfolding(crate::specs::Found::data_at))]
fn data_at_in<P: Span>(
    alloc: Global,
    span: &mut P,
    view: DataView,
    row: &DataRow,
    lists: Rows<Places>,
    room: &mut Room,
) -> Result<DataFound, Halt<ReadFault>>
    requires inside { ArePartsInside (P.size span.old) view }
    requires room { HaveRoom (stream_size view) (map known_of row.now.groups) lists }
    ensures reads { Reads P.Span span.old span.new true read_refusal result (λ file. data_at file view row.now lists) }
    ensures inside { IfOk result (IsFoundInside (P.size span.old)) }
{
    let groups = groups_found_in(
        alloc,
        span,
        &view,
        row.groups.as_slice(),
        lists.as_slice(),
        room,
    )?;
    let strict = is_strict(alloc, row, view.len(), lists.as_slice())?;
    Ok(DataFound {
        view,
        lists,
        groups,
        strict,
    })
}

/// Where what is read of a data group (DGBLOCK) of a finalized file stands, and how many groups that hold no values come
/// before the next one, where so many came before this one. Of the places of records with ids those are kept that are wanted;
/// the others are counted. None of its records and values are read but for their lengths and the offsets of channels of variable
/// length.
///
/// # Errors
/// The first fault in this order: `Layout` of its id size; `Layout` of the first channel that breaks a rule; the fault of
/// its link to data; that of its records, as `records_in`; `Cycles` of the first group that says to have more records than
/// there are; and of the groups in order, of each channel of variable length the fault of its link to data, and `Offset`
/// of the first record whose offset meets no value. The span's own; and want of memory, which is answered too where the
/// room does not suffice for the parts of the values.
#[tactic(auto, unfolding(crate::specs::Kept::data_kept))]
pub fn data_found_in<P: Span>(
    alloc: Global,
    span: &mut P,
    row: &DataRow,
    wanted: Wanted,
    number: u32,
    room: &mut Room,
) -> Result<(DataFound, u32), Halt<ReadFault>>
    ensures reads { Reads P.Span span.old span.new true read_refusal result (λ file. data_kept wanted file row.now number) }
    ensures inside { IfOk result (λ found. IsFoundInside (P.size span.old) found.0) }
{
    layouts_in(alloc, span, row)?;
    let view = view_of(alloc, span, row.content, Kind::Dt)?;
    let lists = kept_records_in(alloc, span, &view, true, wanted, row)?;
    let next = counted_in(alloc, span, lists.as_slice(), row.groups.as_slice(), number)?;
    let found = data_at_in(alloc, span, view, row, lists, room)?;
    Ok((found, next))
}
