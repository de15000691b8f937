ghost use Rattle.std.specs.Prelude.{◌≡◌, ◌<◌, Some, true, length, OnOk};
ghost use Rattle.mdf_block.specs.Reads.{Looks};
ghost use Rattle.mdf_stream.specs.Parts.{ArePartsInside};
ghost use Rattle.mdf_layout.specs.Layout.{record_size};
ghost use Rattle.mdf_content.specs.Found.{IsGroupInside};
ghost use Rattle.mdf_content.specs.Samples.{record_at};
ghost use Rattle.mdf_paged.specs.Groups.{held_at, located, sample_in};

use crate::values::{Views, read_into};
use mdf_content::{DataFound, Found, place_at, places_or};
use mdf_data::Places;
use mdf_layout::Entries;
use mdf_num::{Halt, Span, Stop};
use std::alloc::Global;

/// Reads record `i` of a group into the scratch, whose old content goes.
fn record_in<P: Span>(
    alloc: Global,
    span: &mut P,
    parent: &DataFound,
    group: &Found,
    i: u64,
    scratch: &mut Vec<u8>,
) -> Result<(), Stop>
    requires view { ArePartsInside (P.size span.old) parent.now.view }
    requires inside { IsGroupInside (P.size span.old) parent.now.view parent.now.lists group.now }
    requires index { i < group.now.count }
    ensures reads { Looks P.Span span.old span.new true result (λ file _. scratch.new.items ≡ record_at group.now.shape (held_at file (located parent.now group.now)).content i) }
    ensures long { OnOk result (length scratch.new.items ≡ record_size group.now.shape) }
{
    let none = Places::empty(alloc);
    let places = places_or(parent.lists.as_slice(), group.which as usize, &none);
    let place = place_at(places, i);
    let mut near = 0;
    read_into(
        span,
        &parent.view,
        place,
        group.shape.record_size(),
        &mut near,
        scratch,
    )
}

/// The sample of record `i` of a group; the scratch takes the record. Where each value is a part of its stream, as in a group of
/// values, those of record `i` stand about part `i`. An offset that meets no value, which none does in the file that was found,
/// counts as want of memory.
pub(crate) fn sample_of<P: Span>(
    alloc: Global,
    span: &mut P,
    parent: &DataFound,
    group: &Found,
    i: u64,
    scratch: &mut Vec<u8>,
) -> Result<Entries, Stop>
    requires view { ArePartsInside (P.size span.old) parent.now.view }
    requires inside { IsGroupInside (P.size span.old) parent.now.view parent.now.lists group.now }
    requires index { i < group.now.count }
    ensures reads { Looks P.Span span.old span.new true result (λ file entries. sample_in file (located parent.now group.now) i ≡ Some entries) }
{
    record_in(alloc, span, parent, group, i, scratch)?;
    let values = Views {
        streams: group.values.as_slice(),
        near: i as usize,
    };
    match group
        .shape
        .decode_in(alloc, span, scratch.as_slice(), &values, i)
    {
        Ok(entries) => Ok(entries),
        Err(Halt::Failed) => Err(Stop::Failed),
        Err(_) => Err(Stop::Memory),
    }
}
