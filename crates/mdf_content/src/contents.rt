ghost use Rattle.std.specs.Prelude.{◌≡◌, ◌+◌, ◌*◌, ◌≤◌, ◌<◌, ◌++◌, ◌||◌, not, nat_eq, ℕ, Some, length, map, reverse, take, true, false, IfOk, OnOk};
ghost use Rattle.std.specs.List.{AllByRecursion};
ghost use Rattle.std.specs.Ordering.{nat_cmp};
ghost use Rattle.std.specs.BTreeSet.{contains};
ghost use Rattle.mdf_format.specs.Number.{bytes_at};
ghost use Rattle.mdf_block.specs.Reads.{Looks};
ghost use Rattle.mdf_stream.specs.Parts.{stream_of, stream_size, ArePartsInside};
ghost use Rattle.mdf_data.specs.Places.{steps};
ghost use Rattle.mdf_content.specs.Contents.{are_ids_apart, are_said, content_of, is_strict, leaves_nothing, taken};
ghost use Rattle.mdf_content.specs.Found.{IsFoundInside, IsGroupInside, data_fetched, fetched};

use crate::Room;
use crate::found::{DataFound, Found};
use crate::records::{count_at, record_size};
use crate::values::{bytes_in, fetch_streams_in, place_at, places_or};
use mdf_data::{DataView, Places};
use mdf_group::{DataRow, GroupRow};
use mdf_layout::Shape;
use mdf_num::{Bytes, Memory, Rows, Span, Stop};
use mdf_vlsd::Streams;
use std::alloc::Global;
use std::collections::BTreeSet;

/// What is read of a channel group (CGBLOCK) that holds no values of variable length.
#[derive(Drop)]
pub struct Contents {
    /// The layout of its records.
    pub shape: Shape,
    /// How many records it has.
    pub count: u64,
    /// Their data bytes and invalidation bytes, one record behind the other.
    pub content: Bytes,
    /// The streams of its channels of variable length, in order.
    pub streams: Streams,
}

/// What is read of a data group (DGBLOCK).
#[derive(Drop)]
pub struct DataContents {
    /// Its channel groups that hold no values of variable length, in order.
    pub groups: Rows<Contents>,
    /// Whether nothing is left of its stream, each channel group says how many records it has, and no two have one id.
    pub strict: bool,
}

/// Reads the record of a size at a place of a stream into a list, from `start` on. The search for it begins at part `near`
/// of the stream.
#[inline(always)]
pub(crate) fn put_record<P: Span>(
    span: &mut P,
    view: &DataView,
    size: usize,
    place: u64,
    content: &mut [u8],
    start: usize,
    near: &mut usize,
) -> Result<(), Stop>
    requires inside { ArePartsInside (P.size span.old) view.now }
    requires room { place + size ≤ stream_size view.now }
    requires fits { start + size ≤ length content.old }
    ensures reads { Looks P.Span span.old span.new P.may_want result (λ file _. take (start + size) content.new ≡ take start content.old ++ bytes_at size (stream_of file view.now) place) }
{
    view.read_near(span, place, &mut content[start..start + size], near)
}

/// Reads so many records of a size into a list, one record behind the other, record by record, wherever they stand.
fn put_records<P: Span>(
    span: &mut P,
    view: &DataView,
    size: usize,
    places: &Places,
    count: u64,
    content: &mut [u8],
) -> Result<(), Stop>
    requires inside { ArePartsInside (P.size span.old) view.now }
    requires room { AllByRecursion (λ place. place + size ≤ stream_size view.now) places.now }
    requires few { count ≤ length places.now }
    requires long { length content.old ≡ count * size }
    ensures reads { Looks P.Span span.old span.new P.may_want result (λ file _. content.new ≡ content_of (stream_of file view.now) size (take count places.now)) }
{
    let mut row = 0;
    let mut done = 0;
    let mut near = 0;
    while row < count {
        let place = place_at(places, row);
        put_record(span, view, size, place, content, done, &mut near)?;
        done += size;
        row += 1;
    }
    Ok(())
}

/// The bytes of so many records of a size that stand one behind the other from the begin of the stream on, which are read at once.
fn even_content_in<P: Span>(
    alloc: Global,
    span: &mut P,
    view: &DataView,
    size: u64,
    places: &Places,
    count: u64,
    room: &mut Room,
) -> Result<Bytes, Stop>
    requires even { places.now ≡ steps (length places.now) size 0 }
    requires inside { ArePartsInside (P.size span.old) view.now }
    requires room { AllByRecursion (λ place. place + size ≤ stream_size view.now) places.now }
    requires few { count ≤ length places.now }
    ensures reads { Looks P.Span span.old span.new true result (λ file content. content ≡ content_of (stream_of file view.now) size (take count places.now)) }
{
    let _total = view.len();
    bytes_in(alloc, span, view, count * size, room)
}

/// The bytes of so many records of a size, one record behind the other, wherever they stand.
pub(crate) fn content_in<P: Span>(
    alloc: Global,
    span: &mut P,
    view: &DataView,
    size: u64,
    places: &Places,
    count: u64,
    room: &mut Room,
) -> Result<Bytes, Stop>
    requires inside { ArePartsInside (P.size span.old) view.now }
    requires room { AllByRecursion (λ place. place + size ≤ stream_size view.now) places.now }
    requires few { count ≤ length places.now }
    ensures reads { Looks P.Span span.old span.new true result (λ file content. content ≡ content_of (stream_of file view.now) size (take count places.now)) }
{
    if places.step() == Some(size) {
        return even_content_in(alloc, span, view, size, places, count, room);
    }
    let Some(total) = count.checked_mul(size) else {
        return Err(Stop::Memory);
    };
    let mut content = room.zeros(alloc, total)?;
    put_records(
        span,
        view,
        size as usize,
        places,
        count,
        content.as_mut_slice(),
    )?;
    Ok(Bytes::from_vec(content))
}

/// Whether nothing of a stream of so many bytes is left behind the records of a data group.
fn leaves_nothing(row: &DataRow, total: u64, lists: &[Places]) -> bool
    ensures { result ≡ leaves_nothing row.now total lists.now }
{
    row.id_size != 0 || total as u128 == taken(row.groups.as_slice(), lists)
}

/// How many bytes of a stream without ids are records of its one group.
fn taken(groups: &[GroupRow], lists: &[Places]) -> u128
    ensures { result ≡ taken groups.now lists.now }
{
    if groups.is_empty() {
        return 0;
    }
    record_size(&groups[0]) as u128 * count_at(lists, 0) as u128
}

/// Whether each group says as many records as it has.
fn are_said(groups: &[GroupRow], lists: &[Places]) -> bool
    ensures { result ≡ are_said lists.now 0 groups.now }
{
    let mut k = 0;
    while k < groups.len() {
        if groups[k].cycles != count_at(lists, k) {
            return false;
        }
        k += 1;
    }
    true
}

/// Adds an id. Answers whether it is a new one.
fn add_id(ids: &mut BTreeSet<u64>, id: u64) -> Result<bool, Memory>
    ensures new { IfOk result (λ new. new ≡ not (contains nat_cmp ids.old id)) }
    ensures added { OnOk result ((q : ℕ) → contains nat_cmp ids.new q ≡ (nat_eq id q || contains nat_cmp ids.old q)) }
{
    Ok(ids.insert(id)?)
}

/// Whether no two groups have one id.
fn are_ids_apart(alloc: Global, groups: &[GroupRow]) -> Result<bool, Memory>
    ensures { IfOk result (λ apart. apart ≡ are_ids_apart groups.now) }
{
    let mut ids = BTreeSet::new(alloc);
    let mut k = groups.len();
    while k > 0 {
        k -= 1;
        let new = add_id(&mut ids, groups[k].id)?;
        if !new {
            return Ok(false);
        }
    }
    Ok(true)
}

/// Whether a data group with a stream of so many bytes is as the standard has it.
pub(crate) fn is_strict(
    alloc: Global,
    row: &DataRow,
    total: u64,
    lists: &[Places],
) -> Result<bool, Memory>
    ensures { IfOk result (λ strict. strict ≡ is_strict row.now total lists.now) }
{
    let groups = row.groups.as_slice();
    if !leaves_nothing(row, total, lists) || !are_said(groups, lists) {
        return Ok(false);
    }
    are_ids_apart(alloc, groups)
}

/// What is found of a group, with the bytes of its records and of its values. The parts of the values are let go before its records are
/// copied.
fn group_fetched_in<P: Span>(
    alloc: Global,
    span: &mut P,
    view: &DataView,
    lists: &[Places],
    found: Found,
    room: &mut Room,
) -> Result<Contents, Stop>
    requires view { ArePartsInside (P.size span.old) view.now }
    requires inside { IsGroupInside (P.size span.old) view.now lists.now found }
    ensures reads { Looks P.Span span.old span.new true result (λ file contents. contents ≡ fetched file view.now lists.now found) }
{
    let Found {
        shape,
        which,
        count,
        values,
    } = found;
    let streams = fetch_streams_in(alloc, span, values.as_slice(), room)?;
    drop(values);
    let none = Places::empty(alloc);
    let places = places_or(lists, which as usize, &none);
    let content = content_in(alloc, span, view, shape.record_size(), places, count, room)?;
    Ok(Contents {
        shape,
        count,
        content,
        streams,
    })
}

/// Adds what is found of groups, with the bytes of their records and of their values. They stand with the last first.
pub(crate) fn add_fetched_in<P: Span>(
    alloc: Global,
    span: &mut P,
    view: &DataView,
    lists: &[Places],
    groups: Vec<Found>,
    all: &mut Rows<Contents>,
    room: &mut Room,
) -> Result<(), Stop>
    requires view { ArePartsInside (P.size span.old) view.now }
    requires inside { AllByRecursion (IsGroupInside (P.size span.old) view.now lists.now) groups.items }
    ensures reads { Looks P.Span span.old span.new true result (λ file _. all.new ≡ all.old ++ map (fetched file view.now lists.now) (reverse groups.items)) }
{
    let mut groups = groups;
    'groups: while let Some(found) = groups.pop() {
        let contents = group_fetched_in(alloc, span, view, lists, found, room)?;
        all.push(contents)?;
    }
    Ok(())
}

/// What is found of a data group, with the bytes of its records and of its values.
///
/// # Errors
/// The span's own; and want of memory, which is answered too where the room does not suffice for these bytes.
pub fn fetch_in<P: Span>(
    alloc: Global,
    span: &mut P,
    found: DataFound,
    room: &mut Room,
) -> Result<DataContents, Stop>
    requires inside { IsFoundInside (P.size span.old) found }
    ensures reads { Looks P.Span span.old span.new true result (λ file contents. contents ≡ data_fetched file found) }
{
    let DataFound {
        view,
        lists,
        groups,
        strict,
    } = found;
    let mut groups = groups.into_vec();
    groups.reverse();
    let mut all = Rows::empty(alloc);
    add_fetched_in(alloc, span, &view, lists.as_slice(), groups, &mut all, room)?;
    Ok(DataContents {
        groups: all,
        strict,
    })
}
