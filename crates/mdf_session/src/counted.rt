ghost use Rattle.std.specs.Prelude.{◌≡◌, ◌+◌, ◌≤◌, ◌<◌, ◌++◌, ◌∷◌, [], Some, length, map, false, true, IfOk, OnOk};
ghost use Rattle.std.specs.List.{AllByRecursion};
ghost use Rattle.mdf_block.specs.Reads.{Looks, Reads};
ghost use Rattle.mdf_stream.specs.Parts.{ArePartsInside, stream_of, stream_size};
ghost use Rattle.mdf_data.specs.Places.{HaveRoom};
ghost use Rattle.mdf_content.specs.Fault.{read_refusal};
ghost use Rattle.mdf_content.specs.Records.{known_of, size_of};
ghost use Rattle.mdf_data.specs.Record.{least_size};
ghost use Rattle.mdf_group.specs.Group.{is_variable};
ghost use Rattle.mdf_content.specs.Values.{IsHeld, held_of};
ghost use Rattle.mdf_session.specs.Counted.{all_streams, counts_from, joined, streams_at, totals_from, total_of, values_total};

use mdf_block::{Visit, every_in};
use mdf_content::{
    Held, ReadFault, Records, Room, count_at, layout_in, place_at, places_or, streams_in,
    values_table,
};
use mdf_data::Places;
use mdf_group::GroupRow;
use mdf_num::{Halt, Memory, Rows, Span, Stop};
use mdf_stream::DataView;
use mdf_vlsd::{Streams, ValueStream};
use std::alloc::Global;

/// The streams of the channels of variable length of a group that holds no values, whose records have these places.
///
/// # Errors
/// Those of `layout_in` and of `streams_in`.
fn group_streams_in<P: Span>(
    alloc: Global,
    span: &mut P,
    held: &Held,
    group: &GroupRow,
    places: &Places,
    room: &mut Room,
) -> Result<Streams, Halt<ReadFault>>
    requires held { IsHeld (P.size span.old) held.now }
    requires other { is_variable group.now ≡ false }
    requires room { AllByRecursion (λ place. place + least_size (size_of group.now) ≤ stream_size held.now.view.now) places.now }
    ensures reads { Reads P.Span span.old span.new true read_refusal result (λ file. streams_at file (held_of held.now) group.now places.now) }
{
    layout_in(alloc, group)?;
    let records = Records {
        data_bytes: group.data_bytes,
        places,
        count: places.len(),
    };
    streams_in(alloc, span, held, &records, group.channels.as_slice(), room)
}

/// The channel groups of a recording, with its stream.
#[derive(Drop)]
struct Groups<'a> {
    held: &'a Held<'a>,
}

impl Visit for Groups<'_> {
    ghost use Rattle.mdf_stream.specs.Parts.{stream_size};
    ghost use Rattle.mdf_content.specs.Records.{HasRoom};
    ghost use Rattle.mdf_content.specs.Values.{IsHeld, held_of};
    ghost use Rattle.mdf_session.specs.Counted.{group_streams};

    type Item = GroupRow;

    type Found = Streams;

    type State = ();

    type Room = Room;

    type Fault = ReadFault;

    ghost refusal = { read_refusal };

    ghost read = { λ groups file. group_streams file (held_of groups.held.now) };

    ghost needs = { λ groups size. IsHeld size groups.held.now };

    ghost admits = { λ groups. HasRoom (stream_size groups.held.now.view.now) groups.held.now.lists.now };

    #[tactic(auto, unfolding(crate::specs::Counted::group_streams))]
    fn item_in<P: Span>(
        &self,
        alloc: Global,
        span: &mut P,
        k: usize,
        item: &GroupRow,
        state: (),
        room: &mut Room,
    ) -> Result<(Option<Streams>, ()), Halt<ReadFault>> {
        if item.is_variable() {
            return Ok((None, state));
        }
        let none = Places::empty(alloc);
        let places = places_or(self.held.lists, k, &none);
        let found = group_streams_in(alloc, span, self.held, item, places, room)?;
        Ok((Some(found), state))
    }
}

/// Adds the streams of lists, one behind the other.
fn add_streams(all: &mut Vec<ValueStream>, lists: Vec<Streams>) -> Result<(), Memory>
    ensures { OnOk result (all.new.items ≡ all.old.items ++ joined lists.items) }
{
    for list in lists {
        let mut items = list.into_vec();
        all.append(&mut items)?;
    }
    Ok(())
}

/// The streams of lists, one behind the other.
fn joined_of(alloc: Global, lists: Rows<Streams>) -> Result<Streams, Memory>
    ensures { IfOk result (λ all. all ≡ joined lists) }
{
    let mut all = Vec::new(alloc);
    add_streams(&mut all, lists.into_vec())?;
    Ok(Rows::from_vec(all))
}

/// The streams of all channels of variable length of the groups, over all of their records.
///
/// # Errors
/// Of each group that holds no values, in order, those of `streams_in`; the span's own; and want of memory.
#[tactic(auto, unfolding(crate::specs::Counted::all_streams))]
pub(crate) fn all_streams_in<P: Span>(
    alloc: Global,
    span: &mut P,
    view: &DataView,
    groups: &[GroupRow],
    lists: &[Places],
) -> Result<Streams, Halt<ReadFault>>
    requires inside { ArePartsInside (P.size span.old) view.now }
    requires room { HaveRoom (stream_size view.now) (map known_of groups.now) lists.now }
    ensures reads { Reads P.Span span.old span.new true read_refusal result (λ file. all_streams file (record { parts = view.now; groups = groups.now; lists = lists.now })) }
{
    let table = values_table(alloc, groups)?;
    let held = Held {
        view,
        groups,
        lists,
        table: &table,
    };
    let mut room = Room::of_file(span);
    let (found, _) = every_in(alloc, &Groups { held: &held }, span, groups, (), &mut room)?;
    let all = joined_of(alloc, found)?;
    Ok(all)
}

/// How many records each group has.
pub(crate) fn counts_of(
    alloc: Global,
    groups: &[GroupRow],
    lists: &[Places],
) -> Result<Rows<u64>, Memory>
    ensures counts { IfOk result (λ counts. counts ≡ counts_from lists.now 0 groups.now) }
    ensures count { IfOk result (λ counts. length counts ≡ length groups.now) }
{
    let mut counts = Rows::empty(alloc);
    for k in 0..groups.len() {
        counts.push(count_at(lists, k))?;
    }
    Ok(counts)
}

/// How many bytes the values in the records at these places have. A sum past the last u64 counts as want of memory. The places
/// rise, so that each is looked for near the one before.
fn values_total_in<P: Span>(span: &mut P, view: &DataView, places: &Places) -> Result<u64, Stop>
    requires inside { ArePartsInside (P.size span.old) view.now }
    requires room { AllByRecursion (λ place. place + 4 ≤ stream_size view.now) places.now }
    ensures reads { Looks P.Span span.old span.new true result (λ file total. total ≡ values_total (stream_of file view.now) places.now) }
{
    let mut total = 0u64;
    let mut near = 0;
    for row in 0..places.len() {
        let len = view.u32_near(span, place_at(places, row), &mut near)? as u64;
        let Some(sum) = total.checked_add(len) else {
            return Err(Stop::Memory);
        };
        total = sum;
    }
    Ok(total)
}

/// How many bytes the values of a group have; 0 where it holds none.
fn total_in<P: Span>(
    span: &mut P,
    view: &DataView,
    group: &GroupRow,
    places: &Places,
) -> Result<u64, Stop>
    requires inside { ArePartsInside (P.size span.old) view.now }
    requires room { AllByRecursion (λ place. place + least_size (size_of group.now) ≤ stream_size view.now) places.now }
    ensures reads { Looks P.Span span.old span.new true result (λ file total. total ≡ total_of (stream_of file view.now) group.now places.now) }
{
    if group.is_variable() {
        values_total_in(span, view, places)
    } else {
        Ok(0)
    }
}

/// Adds how many bytes the values of a group have at the end.
fn add_total<P: Span>(
    span: &mut P,
    view: &DataView,
    group: &GroupRow,
    places: &Places,
    totals: &mut Rows<u64>,
) -> Result<(), Stop>
    requires inside { ArePartsInside (P.size span.old) view.now }
    requires room { AllByRecursion (λ place. place + least_size (size_of group.now) ≤ stream_size view.now) places.now }
    ensures reads { Looks P.Span span.old span.new true result (λ file _. totals.new ≡ totals.old ++ total_of (stream_of file view.now) group.now places.now ∷ []) }
    ensures longer { OnOk result (length totals.new ≡ length totals.old + 1) }
{
    let total = total_in(span, view, group, places)?;
    totals.push(total)?;
    Ok(())
}

/// How many bytes the values of each group have.
pub(crate) fn totals_in<P: Span>(
    alloc: Global,
    span: &mut P,
    view: &DataView,
    groups: &[GroupRow],
    lists: &[Places],
) -> Result<Rows<u64>, Stop>
    requires inside { ArePartsInside (P.size span.old) view.now }
    requires room { HaveRoom (stream_size view.now) (map known_of groups.now) lists.now }
    ensures reads { Looks P.Span span.old span.new true result (λ file totals. totals ≡ totals_from (stream_of file view.now) lists.now 0 groups.now) }
    ensures count { IfOk result (λ totals. length totals ≡ length groups.now) }
{
    let none = Places::empty(alloc);
    let mut totals = Rows::empty(alloc);
    for (k, group) in groups.iter().enumerate() {
        let places = places_or(lists, k, &none);
        add_total(span, view, group, places, &mut totals)?;
    }
    Ok(totals)
}
