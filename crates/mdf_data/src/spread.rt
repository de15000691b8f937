ghost use Rattle.std.specs.Prelude.{◌≡◌, ◌+◌, ◌-◌, ◌^◌, ◌≤◌, ◌<◌, [], List, length, replicate, slice_index_or, true, false, IfOk, IfSome, OnOk};
ghost use Rattle.mdf_block.specs.Refusal.{Gives};
ghost use Rattle.mdf_block.specs.Reads.{Reads, Says};
ghost use Rattle.mdf_data.specs.declared.known.Known.{Known};
ghost use Rattle.mdf_stream.specs.Parts.{stream_of, stream_size, ArePartsInside};
ghost use Rattle.mdf_data.specs.Record.{IsIdSize, piece_at, split_refusal, IsPieceAt};
ghost use Rattle.mdf_data.specs.Table.{find, IsTable};
ghost use Rattle.mdf_data.specs.Places.{with_place, places_alone, HaveRoom};
ghost use Rattle.mdf_data.specs.Kept.{kept_places, with_kept};

use crate::record::{group_piece_in, id_here_in};
use crate::table::{Table, table_of};
use crate::{DataView, Known, Piece, Places, Size, SplitFault};
use mdf_num::{Halt, Memory, Rows, Span};
use std::alloc::Global;

/// The record that begins at `at`, whose group a table finds, and None at the end of the stream. The search for it begins
/// at part `near` of the stream.
#[tactic(auto, unfolding(crate::specs::Record::piece_at))]
fn piece_by<P: Span>(
    span: &mut P,
    view: &DataView,
    id_size: u8,
    table: &Table,
    at: u64,
    near: &mut usize,
) -> Result<Option<Piece>, Halt<SplitFault>>
    requires id_size { IsIdSize id_size }
    requires inside { ArePartsInside (P.size span.old) view.now }
    requires within { at ≤ stream_size view.now }
    ensures reads { Says P.Span span.old span.new P.may_want split_refusal result (λ file. (known : List Known) → IsTable known (find table.now) →
        Gives split_refusal result (piece_at (stream_of file view.now) id_size known at (stream_size view.now - at))) }
    ensures piece { IfOk result (λ found. IfSome found (λ piece. (known : List Known) → IsTable known (find table.now) →
        IsPieceAt (stream_size view.now) id_size known at piece)) }
{
    let Some(id) = id_here_in(span, view, id_size, at, near)? else {
        return Ok(None);
    };
    let group = table.get(id);
    let piece = group_piece_in(span, view, id_size, at, id, group, near)?;
    Ok(Some(piece))
}

/// So many lists of no places.
fn empties(alloc: Global, count: usize) -> Result<Vec<Places>, Memory>
    ensures { IfOk result (λ lists. lists.items ≡ replicate count []) }
{
    let mut lists = Vec::new(alloc);
    for _k in 0..count {
        lists.push(Places::empty(alloc))?;
    }
    Ok(lists)
}

/// Adds a place of a group.
#[inline(always)]
fn add_place(lists: &mut Vec<Places>, which: u32, place: u64) -> Result<(), Memory>
    requires { which < length lists.old.items }
    ensures { OnOk result (lists.new.items ≡ with_place lists.old.items which place) }
{
    lists[which as usize].push(place)
}

/// Adds a place of a group, or counts it alone.
#[inline(always)]
fn add_or_count(
    alloc: Global,
    lists: &mut Vec<Places>,
    counted: bool,
    which: u32,
    place: u64,
) -> Result<(), Memory>
    requires { which < length lists.old.items }
    ensures { OnOk result (lists.new.items ≡ with_kept counted lists.old.items which place) }
{
    if counted {
        return lists[which as usize].count(alloc);
    }
    add_place(lists, which, place)
}

/// Whether the places of a group are counted alone.
fn is_counted(counted: &[bool], which: u32) -> bool
    ensures { result ≡ slice_index_or counted.now which false }
{
    let which = which as usize;
    if which < counted.len() {
        counted[which]
    } else {
        false
    }
}

/// The places of the bodies of all records of a stream with ids of so many bytes, group by group, read through a span. Those
/// of the groups that are counted alone are not kept: each is told as 0, and takes no memory; of groups behind the last of
/// `counted` all are kept. An id that stands twice belongs to the first group that has it.
///
/// # Errors
/// `UnknownId` exactly where a whole id stands at the place and no group has it. `Cut` exactly where fewer bytes than an
/// id has are left, or the record of a known id is not whole. The first of them in the order of the stream; and the
/// span's own.
pub fn places_in<P: Span>(
    alloc: Global,
    span: &mut P,
    view: &DataView,
    id_size: u8,
    known: &[Known],
    counted: &[bool],
) -> Result<Rows<Places>, Halt<SplitFault>>
    requires id_size { IsIdSize id_size }
    requires few { length known.now < 2 ^ 32 }
    requires inside { ArePartsInside (P.size span.old) view.now }
    ensures reads { Reads P.Span span.old span.new true split_refusal result
        (λ file. kept_places (stream_of file view.now) (stream_size view.now) id_size known.now counted.now) }
    ensures count { IfOk result (λ lists. length lists ≡ length known.now) }
    ensures room { IfOk result (HaveRoom (stream_size view.now) known.now) }
{
    let table = table_of(alloc, known)?;
    let mut lists = empties(alloc, known.len())?;
    let mut at = 0;
    let mut near = 0;
    'records: while let Some(piece) = piece_by(span, view, id_size, &table, at, &mut near)? {
        let alone = is_counted(counted, piece.which);
        add_or_count(
            alloc,
            &mut lists,
            alone,
            piece.which,
            piece.at + id_size as u64,
        )?;
        at = piece.at + piece.len;
    }
    Ok(Rows::from_vec(lists))
}

/// The places of the records of a group that stands alone in a stream without ids: at equal steps, which take no memory.
/// Records without bytes are as many as is said, and a group of values of variable length has none.
pub fn places_alone(alloc: Global, total: u64, size: Size, empties: u64) -> Places
    requires total { total < 2 ^ 62 }
    requires empties { empties < 2 ^ 62 }
    ensures places { result ≡ places_alone total empties size }
{
    match size {
        Size::Fixed(0) => Places::even(alloc, empties, 0),
        Size::Fixed(size) => Places::even(alloc, total / size, size),
        Size::Variable => Places::empty(alloc),
    }
}
