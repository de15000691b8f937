ghost use Rattle.std.specs.Prelude.{◌≡◌, ◌+◌, ◌*◌, ◌≤◌, ◌<◌, [], Some, length, map, reverse, slice_index_or, take, IfOk};
ghost use Rattle.std.specs.List.{AllByRecursion};
ghost use Rattle.mdf_stream.specs.Parts.{stream_of, stream_size, ArePartsInside};
ghost use Rattle.mdf_content.specs.Contents.{content_of};
ghost use Rattle.mdf_content.specs.Found.{IsFoundInside, IsGroupInside, data_fetched, fetched};

use crate::Room;
use crate::contents::{Contents, DataContents, add_fetched_in, content_in};
use crate::found::{DataFound, Found};
use crate::values::fetch_streams_in;
use mdf_data::{DataView, Places};
use mdf_num::{Bytes, Memory, Rows, SliceSpan};
use mdf_stream::moved_front;
use mdf_vlsd::Streams;
use std::alloc::Global;

/// The bytes of so many records of a size, one record behind the other, of a file that nobody needs any more. Where the records stand one
/// behind the other in the stream, and its parts in their order in the file, they are moved in the memory of the file; else they are
/// copied. Room is taken for them either way.
fn content_from(
    alloc: Global,
    file: Bytes,
    view: &DataView,
    size: u64,
    places: &Places,
    count: u64,
    room: &mut Room,
) -> Result<Bytes, Memory>
    requires inside { ArePartsInside (length file) view.now }
    requires room { AllByRecursion (λ place. place + size ≤ stream_size view.now) places.now }
    requires few { count ≤ length places.now }
    ensures { IfOk result (λ content. content ≡ content_of (stream_of file view.now) size (take count places.now)) }
{
    if places.step() == Some(size) && view.is_behind() {
        let _total = view.len();
        room.take(count * size)?;
        return Ok(moved_front(file, view, count * size));
    }
    let mut span = SliceSpan::new(file.as_slice());
    match content_in(alloc, &mut span, view, size, places, count, room) {
        Ok(content) => Ok(content),
        Err(_) => Err(Memory),
    }
}

/// The streams of these parts of a file.
fn streams_of(
    alloc: Global,
    file: &Bytes,
    views: &[DataView],
    room: &mut Room,
) -> Result<Streams, Memory>
    requires inside { AllByRecursion (ArePartsInside (length file.now)) views.now }
    ensures { IfOk result (λ streams. streams ≡ map (stream_of file.now) views.now) }
{
    let mut span = SliceSpan::new(file.as_slice());
    match fetch_streams_in(alloc, &mut span, views, room) {
        Ok(streams) => Ok(streams),
        Err(_) => Err(Memory),
    }
}

/// What is found of groups of a file, with the bytes of their records and of their values. They stand with the last first.
fn groups_of(
    alloc: Global,
    file: &Bytes,
    view: &DataView,
    lists: &[Places],
    groups: Vec<Found>,
    room: &mut Room,
) -> Result<Rows<Contents>, Memory>
    requires view { ArePartsInside (length file.now) view.now }
    requires inside { AllByRecursion (IsGroupInside (length file.now) view.now lists.now) groups.items }
    ensures { IfOk result (λ all. all ≡ map (fetched file.now view.now lists.now) (reverse groups.items)) }
{
    let mut span = SliceSpan::new(file.as_slice());
    let mut all = Rows::empty(alloc);
    match add_fetched_in(alloc, &mut span, view, lists, groups, &mut all, room) {
        Ok(()) => Ok(all),
        Err(_) => Err(Memory),
    }
}

/// List `k`, and none of the others; past the end no places.
fn list_of(alloc: Global, lists: Rows<Places>, k: usize) -> Places
    ensures { result ≡ slice_index_or lists k [] }
{
    let mut lists = lists.into_vec();
    if k < lists.len() {
        lists.swap_remove(k)
    } else {
        Places::empty(alloc)
    }
}

/// What is found of a group of a file that nobody needs any more, with the bytes of its records and of its values. The parts of the values
/// and the places of the records of other groups are let go before its records are copied.
fn group_from(
    alloc: Global,
    file: Bytes,
    view: &DataView,
    lists: Rows<Places>,
    found: Found,
    room: &mut Room,
) -> Result<Contents, Memory>
    requires view { ArePartsInside (length file) view.now }
    requires inside { IsGroupInside (length file) view.now lists found }
    ensures { IfOk result (λ contents. contents ≡ fetched file view.now lists found) }
{
    let Found {
        shape,
        which,
        count,
        values,
    } = found;
    let streams = streams_of(alloc, &file, values.as_slice(), room)?;
    drop(values);
    let places = list_of(alloc, lists, which as usize);
    let content = content_from(alloc, file, view, shape.record_size(), &places, count, room)?;
    Ok(Contents {
        shape,
        count,
        content,
        streams,
    })
}

/// What is found of a data group of a file that is handed over, with the bytes of its records and of its values. Those of the records of
/// its last group, of a data group without record ids the only one, stay in the memory of the file, where they stand there in their order,
/// and the rest of it is given back to the allocator. Else they are copied.
///
/// # Errors
/// Want of memory, which is answered too where the room does not suffice for these bytes.
pub fn fetch_from(
    alloc: Global,
    file: Bytes,
    found: DataFound,
    room: &mut Room,
) -> Result<DataContents, Memory>
    requires inside { IsFoundInside (length file) found }
    ensures { IfOk result (λ contents. contents ≡ data_fetched file found) }
{
    let DataFound {
        view,
        lists,
        groups,
        strict,
    } = found;
    let mut groups = groups.into_vec();
    let Some(last) = groups.pop() else {
        return Ok(DataContents {
            groups: Rows::empty(alloc),
            strict,
        });
    };
    groups.reverse();
    let mut all = groups_of(alloc, &file, &view, lists.as_slice(), groups, room)?;
    all.push(group_from(alloc, file, &view, lists, last, room)?)?;
    Ok(DataContents {
        groups: all,
        strict,
    })
}
