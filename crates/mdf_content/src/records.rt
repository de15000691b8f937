ghost use Rattle.std.specs.Prelude.{◌≡◌, ◌+◌, ◌^◌, ◌<◌, [], length, map, slice_index_or, true, IsTrue, IfOk, IfErr};
ghost use Rattle.mdf_num.specs.Halt.{HaltCause};
ghost use Rattle.mdf_block.specs.Refusal.{Gives, IsPlain};
ghost use Rattle.mdf_block.specs.Reads.{Reads};
ghost use Rattle.mdf_stream.specs.Parts.{stream_of, stream_size, ArePartsInside};
ghost use Rattle.mdf_data.specs.Places.{HaveRoom};
ghost use Rattle.mdf_content.specs.Fault.{read_refusal};
ghost use Rattle.mdf_content.specs.Kept.{kept_of};
ghost use Rattle.mdf_content.specs.Layouts.{has_id_size};
ghost use Rattle.mdf_content.specs.Records.{
  record_size,
  size_of,
  known_of,
  said_by,
  empties_of,
  places_without_ids,
  places_of,
  counted,
};

use crate::ReadFault;
use crate::lower::places_with;
use crate::wanted::{Wanted, counted_alone};
use mdf_block::{Visit, What, every_in};
use mdf_data::{DataView, Known, Places, Size, places_alone};
use mdf_group::{DataRow, GroupRow};
use mdf_num::{Halt, Memory, Rows, Span};
use std::alloc::Global;

/// How many records without bytes a group may have.
const MOST_EMPTY: u64 = 268_435_456;

/// How many data bytes and invalidation bytes a record of the group has.
pub fn record_size(group: &GroupRow) -> u64
    ensures size { result ≡ record_size group.now }
    ensures small { result < 2 ^ 33 }
{
    group.data_bytes as u64 + group.inval_bytes as u64
}

/// How long the records of the group are, without their ids.
fn size_of(group: &GroupRow) -> Size
    ensures { result ≡ size_of group.now }
{
    if group.is_variable() {
        Size::Variable
    } else {
        Size::Fixed(record_size(group))
    }
}

/// What the splitter knows of a group.
fn known_of(group: &GroupRow) -> Known
    ensures { result ≡ known_of group.now }
{
    Known {
        id: group.id,
        size: size_of(group),
    }
}

/// What a splitter knows of groups: the id of each, and how long its records are.
///
/// # Errors
/// Out of memory.
pub fn known_groups(alloc: Global, groups: &[GroupRow]) -> Result<Rows<Known>, Memory>
    ensures { IfOk result (λ known. known ≡ map known_of groups.now) }
{
    let mut known = Rows::empty(alloc);
    for group in groups {
        known.push(known_of(group))?;
    }
    Ok(known)
}

/// How many records without bytes a group has in a stream without ids, where it says so many records.
fn empties_of(said: u64, group: &GroupRow) -> u64
    ensures { result ≡ empties_of said group.now }
{
    if !group.is_variable() && record_size(group) == 0 {
        said
    } else {
        0
    }
}

/// How many records a group says to have, where that is believed.
fn said_by(believed: bool, group: &GroupRow) -> u64
    ensures { result ≡ said_by believed group.now }
{
    if believed { group.cycles } else { 0 }
}

/// The places of the records of a stream of so many bytes without ids, which belong to the one group, if there is one.
fn places_without_ids(
    alloc: Global,
    total: u64,
    believed: bool,
    groups: &[GroupRow],
) -> Result<Rows<Places>, Halt<ReadFault>>
    requires total { total < 2 ^ 62 }
    requires one { length groups.now < 2 }
    ensures found { Gives read_refusal result (places_without_ids total believed groups.now) }
    ensures room { IfOk result (HaveRoom total (map known_of groups.now)) }
    ensures plain { IfErr result (IsPlain read_refusal) }
    ensures cause { HaltCause true 0 0 result }
{
    let mut lists = Rows::empty(alloc);
    if groups.is_empty() {
        return Ok(lists);
    }
    let group = &groups[0];
    let empties = empties_of(said_by(believed, group), group);
    if empties > MOST_EMPTY {
        return Err(Halt::Fault(ReadFault::TooMany {
            what: What::Sample,
            at: group.at,
        }));
    }
    lists.push(places_alone(alloc, total, size_of(group), empties))?;
    Ok(lists)
}

/// The places of the bodies of all records of a data group in its stream, group by group. Where no record has bytes and
/// there are no ids, there are as many as `cg_cycle_count` says, if that is believed.
///
/// # Errors
/// `TooMany` with the address of the group exactly where its records have no bytes, there are no ids, and it says more
/// than 268,435,456 of them; `UnknownId` exactly where a whole id stands at a place and no group has it; `Cut` exactly
/// where fewer bytes than an id has are left, or the record of a known id is not whole; the span's own; want of memory.
pub fn records_in<P: Span>(
    alloc: Global,
    span: &mut P,
    view: &DataView,
    believed: bool,
    row: &DataRow,
) -> Result<Rows<Places>, Halt<ReadFault>>
    requires ids { IsTrue (has_id_size row.now) }
    requires inside { ArePartsInside (P.size span.old) view.now }
    ensures reads { Reads P.Span span.old span.new true read_refusal result (λ file. places_of (stream_of file view.now) (stream_size view.now) believed row.now) }
    ensures room { IfOk result (HaveRoom (stream_size view.now) (map known_of row.now.groups)) }
{
    kept_records_in(alloc, span, view, believed, Wanted::Every, row)
}

/// The same, with the places that are wanted: of a group whose records are counted alone each place is told as 0.
///
/// # Errors
/// As `records_in`.
#[tactic(auto, unfolding(crate::specs::Kept::kept_of))]
pub(crate) fn kept_records_in<P: Span>(
    alloc: Global,
    span: &mut P,
    view: &DataView,
    believed: bool,
    wanted: Wanted,
    row: &DataRow,
) -> Result<Rows<Places>, Halt<ReadFault>>
    requires ids { IsTrue (has_id_size row.now) }
    requires inside { ArePartsInside (P.size span.old) view.now }
    ensures reads { Reads P.Span span.old span.new true read_refusal result (λ file. kept_of wanted (stream_of file view.now) (stream_size view.now) believed row.now) }
    ensures room { IfOk result (HaveRoom (stream_size view.now) (map known_of row.now.groups)) }
{
    let groups = row.groups.as_slice();
    if row.id_size == 0 {
        let lists = places_without_ids(alloc, view.len(), believed, groups)?;
        return Ok(lists);
    }
    if groups.len() as u64 > u32::MAX as u64 {
        return Err(Halt::Memory);
    }
    let known = known_groups(alloc, groups)?;
    let counted = counted_alone(alloc, wanted, groups)?;
    places_with(
        alloc,
        span,
        view,
        row.id_size,
        known.as_slice(),
        counted.as_slice(),
    )
}

/// How many places list `k` has; none past the end.
pub fn count_at(lists: &[Places], k: usize) -> u64
    ensures { result ≡ length (slice_index_or lists.now k []) }
{
    lists.get(k).map_or(0, Places::len)
}

/// The groups of a data group, with the places of their records.
#[derive(Drop)]
struct Counts<'a> {
    lists: &'a [Places],
}

impl Visit for Counts<'_> {
    ghost use Rattle.mdf_content.specs.Records.{counted_group};

    type Item = GroupRow;

    type Found = ();

    type State = u32;

    type Room = ();

    type Fault = ReadFault;

    ghost refusal = { read_refusal };

    ghost read = { λ counts _. counted_group counts.lists.now };

    ghost needs = { λ _ _. Unit {0} };

    ghost admits = { λ _ _ _. Unit {0} };

    fn item_in<P: Span>(
        &self,
        _alloc: Global,
        _span: &mut P,
        k: usize,
        item: &GroupRow,
        number: u32,
        _room: &mut (),
    ) -> Result<(Option<()>, u32), Halt<ReadFault>> {
        if item.is_variable() {
            return Ok((None, number));
        }
        let found = count_at(self.lists, k);
        if found < item.cycles {
            return Err(Halt::Fault(ReadFault::Cycles {
                group: number,
                said: item.cycles,
                found,
            }));
        }
        if number == u32::MAX {
            return Err(Halt::Memory);
        }
        Ok((None, number + 1))
    }
}

/// How many groups that hold no values of variable length come before the next data group, where so many came before
/// this one and each of its groups has the records that it says (`cg_cycle_count`).
///
/// # Errors
/// `Cycles` with the first group that holds no values and says to have more records than there are; the span's own; and
/// want of memory.
#[tactic(auto, unfolding(crate::specs::Records::counted))]
pub fn counted_in<P: Span>(
    alloc: Global,
    span: &mut P,
    lists: &[Places],
    groups: &[GroupRow],
    number: u32,
) -> Result<u32, Halt<ReadFault>>
    ensures reads { Reads P.Span span.old span.new true read_refusal result (λ file. counted lists.now groups.now number) }
{
    let (_, next) = every_in(alloc, &Counts { lists }, span, groups, number, &mut ())?;
    Ok(next)
}
