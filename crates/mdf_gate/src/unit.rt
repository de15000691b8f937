ghost use Rattle.std.specs.Prelude.{◌≡◌, ◌+◌, ◌^◌, ◌≤◌, ◌<◌, ◌↔◌, ◌++◌, ◌∷◌, [], length, true, Ok, IsTrue, IfOk, IfErr, OnOk};
ghost use Rattle.mdf_format.specs.Number.{aligned};
ghost use Rattle.mdf_block.specs.Refusal.{Refuses};
ghost use Rattle.mdf_block.specs.Reads.{Looks, Reads};
ghost use Rattle.mdf_block.specs.Block.{IsInside};
ghost use Rattle.mdf_stream.specs.Parts.{AreBehind, ArePartsInside, stream_size};
ghost use Rattle.mdf_stream.specs.Link.{part_of};
ghost use Rattle.mdf_gate.specs.Units.{data_behind, is_list, is_open, list_block, opened_from, opened_parts, place_behind, unit, wanted};
ghost use Rattle.mdf_gate.specs.Fault.{gate_refusal};

use crate::GateFault;
use mdf_block::{BlockAt, BlockFault, block_in, link_in};
use mdf_format::{Form, Kind};
use mdf_num::{Halt, Memory, SliceSpan, Span, Stop, align8};
use mdf_stream::DataView;
use std::alloc::Global;

/// How many bytes a stream has fewer than. No file has as many, so that more count as out of memory.
const LONGEST: u64 = 1 << 62;

/// Whether the gate at a place is open. Past the end of the file every place is closed.
#[inline(always)]
fn is_open_in<P: Span>(span: &mut P, place: u64) -> Result<bool, Stop>
    ensures reads { Looks P.Span span.old span.new P.may_want result (λ file opened. opened ≡ is_open file place) }
    ensures within { IfOk result (λ opened. opened ≡ true → place < P.size span.old) }
{
    if place >= span.len() {
        return Ok(false);
    }
    let mut gate = [0u8; 1];
    span.fill(place, &mut gate)?;
    Ok(gate[0] == b'#')
}

/// No block of a kind at a place.
fn none_at(at: u64, want: Kind) -> Halt<GateFault>
    ensures { result ≡ Halt.Fault (GateFault.Bad at want) }
{
    Halt::Fault(GateFault::Bad { at, want })
}

/// The block of a kind that the form of a recording wants at a place.
///
/// # Errors
/// `Bad` exactly where no whole block of the kind stands there; and the span's own.
#[inline(always)]
#[tactic(auto, unfolding(crate::specs::Units::wanted))]
fn wanted_in<P: Span>(span: &mut P, at: u64, want: Kind) -> Result<BlockAt, Halt<GateFault>>
    ensures reads { Reads P.Span span.old span.new P.may_want gate_refusal result (λ file. wanted file at want) }
    ensures inside { IfOk result (IsInside (P.size span.old)) }
{
    match block_in(span, at, want) {
        Ok(block) => Ok(block),
        Err(Halt::Fault(BlockFault::Bad { .. } | BlockFault::Compressed { .. })) => {
            Err(none_at(at, want))
        }
        Err(Halt::Failed) => Err(Halt::Failed),
        Err(Halt::Memory) => Err(Halt::Memory),
    }
}

/// Whether a list block has 56 bytes and two links, of which the second names the address after it.
fn is_list_in<P: Span>(span: &mut P, list: &BlockAt) -> Result<bool, Stop>
    requires inside { IsInside (P.size span.old) list.now }
    ensures reads { Looks P.Span span.old span.new P.may_want result (λ file is. is ≡ is_list file list.now) }
    ensures links { IfOk result (λ is. is ≡ true → 1 ≤ list.now.links) }
{
    let end = list.body_at + list.body_len;
    if list.links != 2 || end - list.at != 56 {
        return Ok(false);
    }
    Ok(link_in(span, list, 1)? == end)
}

/// The list block at a place.
///
/// # Errors
/// `Bad` with the place and `Dl` exactly where no whole DLBLOCK of 56 bytes with two links stands there, or the second of
/// them does not name the address after it; and the span's own.
#[tactic(auto, unfolding(crate::specs::Units::list_block))]
fn list_in<P: Span>(span: &mut P, place: u64) -> Result<BlockAt, Halt<GateFault>>
    ensures reads { Reads P.Span span.old span.new P.may_want gate_refusal result (λ file. list_block file place) }
    ensures inside { IfOk result (IsInside (P.size span.old)) }
    ensures links { IfOk result (λ list. 1 ≤ list.links) }
{
    let list = wanted_in(span, place, Kind::Dl)?;
    if !is_list_in(span, &list)? {
        return Err(none_at(list.at, Kind::Dl));
    }
    Ok(list)
}

/// Whether a place is the next one after an end: the least multiple of 8 that is not below it.
fn is_next(place: u64, end: u64) -> bool
    ensures { IsTrue result ↔ (place ≡ aligned end) }
{
    place % 8 == 0 && end <= place && place - end < 8
}

/// The data block after a list block, whose first link names the place after the unit.
///
/// # Errors
/// `Bad` with the address after the list block and `Dt` exactly where no whole DTBLOCK stands there, else with the list
/// block and `Dl` where its first link is another; and the span's own.
fn data_behind_in<P: Span>(span: &mut P, list: &BlockAt) -> Result<BlockAt, Halt<GateFault>>
    requires inside { IsInside (P.size span.old) list.now }
    requires links { 1 ≤ list.now.links }
    ensures reads { Reads P.Span span.old span.new P.may_want gate_refusal result (λ file. data_behind file list.now) }
    ensures inside { IfOk result (IsInside (P.size span.old)) }
{
    let data = wanted_in(span, list.body_at + list.body_len, Kind::Dt)?;
    let next = link_in(span, list, 0)?;
    if !is_next(next, data.body_at + data.body_len) {
        return Err(none_at(list.at, Kind::Dl));
    }
    Ok(data)
}

/// The data block of the unit at an open place: in form 1 the block there, in form 2 the one after the list block there.
///
/// # Errors
/// `Bad` with what is missing, in this order: in form 2 the list block; the data block; and in form 2 the list block once
/// more, where its first link does not name the place after the unit. The span's own.
#[inline(always)]
#[tactic(auto, unfolding(crate::specs::Units::unit))]
fn unit_in<P: Span>(span: &mut P, form: Form, place: u64) -> Result<BlockAt, Halt<GateFault>>
    ensures reads { Reads P.Span span.old span.new P.may_want gate_refusal result (λ file. unit form file place) }
    ensures inside { IfOk result (IsInside (P.size span.old)) }
{
    match form {
        Form::Bare => wanted_in(span, place, Kind::Dt),
        Form::Listed => {
            let list = list_in(span, place)?;
            data_behind_in(span, &list)
        }
    }
}

/// Whether the gate at a place of these bytes is open.
pub(crate) fn is_open(bytes: &[u8], place: u64) -> bool
    ensures gate { result ≡ is_open bytes.now place }
    ensures within { result ≡ true → place < length bytes.now }
{
    match is_open_in(&mut SliceSpan::new(bytes), place) {
        Ok(opened) => opened,
        Err(_) => unreachable!(),
    }
}

/// The data block of the unit at an open place of these bytes.
///
/// # Errors
/// As `unit_in`.
pub(crate) fn unit_at(bytes: &[u8], form: Form, place: u64) -> Result<BlockAt, GateFault>
    ensures unit { IfOk result (λ block. unit form bytes.now place ≡ Ok block) }
    ensures inside { IfOk result (IsInside (length bytes.now)) }
    ensures later { IfOk result (λ block. place + 24 ≤ block.body_at) }
    ensures refused { IfErr result (λ fault. Refuses (gate_refusal fault) (unit form bytes.now place)) }
{
    match unit_in(&mut SliceSpan::new(bytes), form, place) {
        Ok(block) => Ok(block),
        Err(Halt::Fault(fault)) => Err(fault),
        Err(_) => unreachable!(),
    }
}

/// Whether a stream can go on to this place.
fn can_reach(end: u64) -> bool
    ensures { IsTrue result ↔ (end < 2 ^ 62) }
{
    end < LONGEST
}

/// Adds the body of the unit at a place to the stream, and answers the place after it.
fn add_unit(view: &mut DataView, place: u64, unit: &BlockAt) -> Result<u64, Memory>
    requires below { stream_size view.old ≤ place }
    requires ends { unit.now.body_at + unit.now.body_len < 2 ^ 64 }
    ensures added { OnOk result (view.new ≡ view.old ++ part_of unit.now ∷ []) }
    ensures behind { IfOk result (λ next. next ≡ place_behind unit.now) }
    ensures later { IfOk result (λ next. place < next) }
    ensures below { IfOk result (λ next. stream_size view.new ≤ next) }
    ensures after { OnOk result (place < unit.now.body_at) }
{
    let end = unit.body_at + unit.body_len;
    if unit.body_at <= place || !can_reach(end) {
        return Err(Memory);
    }
    view.add(unit.body_at, unit.body_len)?;
    Ok(align8(end))
}

/// The bodies of the units from a place on, up to the first closed place.
fn units_in<P: Span>(
    alloc: Global,
    span: &mut P,
    form: Form,
    first: u64,
) -> Result<DataView, Halt<GateFault>>
    ensures reads { Reads P.Span span.old span.new true gate_refusal result (λ file. opened_from form file (length file) first) }
    ensures inside { IfOk result (ArePartsInside (P.size span.old)) }
    ensures behind { IfOk result (AreBehind 0) }
{
    let mut view = DataView::empty(alloc);
    let mut place = first;
    while is_open_in(span, place)? {
        let unit = unit_in(span, form, place)?;
        place = add_unit(&mut view, place, &unit)?;
    }
    Ok(view)
}

/// The bodies of the opened blocks of a recording of this form whose first place is this one, as one stream.
///
/// # Errors
/// `Bad` with the first place and `Dt` exactly where it is 0 or no multiple of 8, else as `unit_in` of the first open place
/// at which no unit stands; the span's own; and out of memory.
#[tactic(auto, unfolding(crate::specs::Units::opened_parts))]
pub fn opened_in<P: Span>(
    alloc: Global,
    span: &mut P,
    form: Form,
    first: u64,
) -> Result<DataView, Halt<GateFault>>
    ensures reads { Reads P.Span span.old span.new true gate_refusal result (λ file. opened_parts form file first) }
    ensures inside { IfOk result (ArePartsInside (P.size span.old)) }
    ensures behind { IfOk result (AreBehind 0) }
{
    if first == 0 || first % 8 != 0 {
        return Err(none_at(first, Kind::Dt));
    }
    let view = units_in(alloc, span, form, first)?;
    Ok(view)
}
