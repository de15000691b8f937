ghost use Rattle.std.specs.Prelude.{◌≡◌, ◌+◌, ◌*◌, ◌^◌, ◌<◌, ◌↔◌, length, true, IsTrue, IfOk};
ghost use Rattle.mdf_block.specs.Reads.{Reads};
ghost use Rattle.mdf_stream.specs.Parts.{stream_of, stream_size, ArePartsInside};
ghost use Rattle.mdf_stream.specs.Link.{data_parts};
ghost use Rattle.mdf_data.specs.Record.{IsIdSize};
ghost use Rattle.mdf_data.specs.Kept.{kept_places};
ghost use Rattle.mdf_data.specs.Places.{HaveRoom};
ghost use Rattle.mdf_content.specs.Fault.{read_refusal};

use crate::ReadFault;
use mdf_block::Kind;
use mdf_data::{DataView, Known, Places, places_in, view_data_in};
use mdf_num::{Halt, Rows, Span};
use std::alloc::Global;

/// Whether a stream has more than twice as many bytes as the file, and one.
fn is_too_long<P: Span>(view: &DataView, span: &P) -> bool
    ensures { IsTrue result ↔ (2 * P.size span.now + 1 < stream_size view.now) }
{
    view.len() / 2 > span.len()
}

/// What a data link leads to, with the faults of this crate. A stream of more than twice as many bytes as the file has,
/// which lists of the same blocks can make, counts as want of memory.
pub(crate) fn view_of<P: Span>(
    alloc: Global,
    span: &mut P,
    at: u64,
    want: Kind,
) -> Result<DataView, Halt<ReadFault>>
    ensures reads { Reads P.Span span.old span.new true read_refusal result (λ file. data_parts file want at) }
    ensures inside { IfOk result (ArePartsInside (P.size span.old)) }
{
    match view_data_in(alloc, span, at, want) {
        Ok(view) => {
            if is_too_long(&view, span) {
                return Err(Halt::Memory);
            }
            Ok(view)
        }
        Err(halt) => Err(halt.raised()),
    }
}

/// The places of the records of a stream with ids, of which those of some groups are only counted, with the faults of this
/// crate.
pub(crate) fn places_with<P: Span>(
    alloc: Global,
    span: &mut P,
    view: &DataView,
    id_size: u8,
    known: &[Known],
    counted: &[bool],
) -> Result<Rows<Places>, Halt<ReadFault>>
    requires id_size { IsIdSize id_size }
    requires few { length known.now < 2 ^ 32 }
    requires inside { ArePartsInside (P.size span.old) view.now }
    ensures reads { Reads P.Span span.old span.new true read_refusal result (λ file. kept_places (stream_of file view.now) (stream_size view.now) id_size known.now counted.now) }
    ensures count { IfOk result (λ lists. length lists ≡ length known.now) }
    ensures room { IfOk result (HaveRoom (stream_size view.now) known.now) }
{
    places_in(alloc, span, view, id_size, known, counted).map_err(Halt::raised)
}
