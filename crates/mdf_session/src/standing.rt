ghost use Rattle.std.specs.Prelude.{◌≡◌, ◌≤◌, ℕ, List, Some, Ok, length, map, true, IfOk, IfErr};
ghost use Rattle.mdf_format.specs.Number.{bytes_at};
ghost use Rattle.mdf_block.specs.Refusal.{Halts};
ghost use Rattle.mdf_block.specs.Reads.{Says};
ghost use Rattle.mdf_stream.specs.Parts.{AreBehind, ArePartsInside, stream_size};
ghost use Rattle.mdf_content.specs.Fault.{read_refusal};
ghost use Rattle.mdf_data.specs.Places.{HaveRoom};
ghost use Rattle.mdf_content.specs.Records.{known_of};
ghost use Rattle.mdf_session.specs.Counted.{records_content};
ghost use Rattle.mdf_session.specs.Session.{HasFirst, IsCountedOf, first_kept, kept, kept_of};
ghost use Rattle.mdf_session.specs.Standing.{StandIn, kept_from, with_content};

use crate::counted::{all_streams_in, counts_of, totals_in};
use crate::opened::opened_stream_in;
use mdf_content::{Kind, ReadFault, count_at, layouts_in, record_size, records_in};
use mdf_data::Places;
use mdf_format::Form;
use mdf_group::DataRow;
use mdf_num::{Halt, Rows, Span};
use mdf_stream::DataView;
use mdf_vlsd::Streams;
use std::alloc::Global;

/// What the data group of a recording holds, while its records still stand in the file: the first `size` bytes of a stream.
#[derive(Drop)]
pub(crate) struct Standing {
    pub(crate) view: DataView,
    pub(crate) size: u64,
    pub(crate) counts: Rows<u64>,
    pub(crate) totals: Rows<u64>,
    pub(crate) streams: Streams,
}

/// How many bytes the records of a data group with a stream of so many bytes have.
fn content_size(row: &DataRow, total: u64, lists: &[Places]) -> u64
    ensures within { result ≤ total }
    ensures content { (stream : List ℕ) → length stream ≡ total → records_content stream row.now lists.now ≡ bytes_at result stream 0 }
{
    let groups = row.groups.as_slice();
    if row.id_size != 0 {
        return total;
    }
    if groups.is_empty() {
        return 0;
    }
    let size = record_size(&groups[0]) as u128 * count_at(lists, 0) as u128;
    if size < total as u128 {
        size as u64
    } else {
        total
    }
}

/// What is counted of the records at these places, with the streams. The records themselves stay in the file.
#[tactic(auto, unfolding(crate::specs::Session::kept_of))]
fn counted_in<P: Span>(
    alloc: Global,
    span: &mut P,
    view: DataView,
    row: &DataRow,
    lists: Rows<Places>,
) -> Result<Standing, Halt<ReadFault>>
    requires inside { ArePartsInside (P.size span.old) view }
    requires behind { AreBehind 0 view }
    requires room { HaveRoom (stream_size view) (map known_of row.now.groups) lists }
    ensures reads { Says P.Span span.old span.new true read_refusal result (λ file. IfOk result (λ found. kept_of file row.now view lists ≡ Ok (kept_from file found))) }
    ensures refused { (f : List ℕ) → P.bytes span.old ≡ Some f → IfErr result (λ halt. Halts read_refusal halt (kept_of f row.now view lists)) }
    ensures stands { IfOk result (StandIn (P.size span.old)) }
    ensures counted { IfOk result (λ found. (content : List ℕ) → IsCountedOf row.now (with_content content found)) }
{
    let groups = row.groups.as_slice();
    let streams = all_streams_in(alloc, span, &view, groups, lists.as_slice())?;
    let counts = counts_of(alloc, groups, lists.as_slice())?;
    let totals = totals_in(alloc, span, &view, groups, lists.as_slice())?;
    let size = content_size(row, view.len(), lists.as_slice());
    Ok(Standing {
        view,
        size,
        counts,
        totals,
        streams,
    })
}

/// What a data group of a recording of this form holds, with its records still in the file.
///
/// # Errors
/// The first fault in this order: `Layout` of its id size; `Layout` of the first channel that breaks a rule; that of its
/// opened blocks, as `opened_in` of mdf_gate; that of its records, as `records_in`; and of each channel of variable length in order the
/// fault of its link to data, and `Offset` of the first record whose offset meets no value. The span's own; and want of
/// memory.
#[tactic(auto, unfolding(crate::specs::Session::kept))]
fn standing_in<P: Span>(
    alloc: Global,
    span: &mut P,
    form: Form,
    row: &DataRow,
) -> Result<Standing, Halt<ReadFault>>
    ensures reads { Says P.Span span.old span.new true read_refusal result (λ file. IfOk result (λ found. kept form file row.now ≡ Ok (kept_from file found))) }
    ensures refused { (f : List ℕ) → P.bytes span.old ≡ Some f → IfErr result (λ halt. Halts read_refusal halt (kept form f row.now)) }
    ensures stands { IfOk result (StandIn (P.size span.old)) }
    ensures counted { IfOk result (λ found. (content : List ℕ) → IsCountedOf row.now (with_content content found)) }
{
    layouts_in(alloc, span, row)?;
    let view = opened_stream_in(alloc, span, form, row.content)?;
    let lists = records_in(alloc, span, &view, false, row)?;
    let standing = counted_in(alloc, span, view, row, lists)?;
    Ok(standing)
}

/// What the first data group of a recording of this form holds, with its records still in the file.
///
/// # Errors
/// `Block` with 0 and `Dg` exactly where there is none; else as `standing_in`.
pub(crate) fn first_standing_in<P: Span>(
    alloc: Global,
    span: &mut P,
    form: Form,
    rows: &[DataRow],
) -> Result<Standing, Halt<ReadFault>>
    ensures reads { Says P.Span span.old span.new true read_refusal result (λ file. IfOk result (λ found. first_kept form file rows.now ≡ Ok (kept_from file found))) }
    ensures refused { (f : List ℕ) → P.bytes span.old ≡ Some f → IfErr result (λ halt. Halts read_refusal halt (first_kept form f rows.now)) }
    ensures stands { IfOk result (StandIn (P.size span.old)) }
    ensures counted { IfOk result (λ found. (content : List ℕ) → HasFirst rows.now (with_content content found)) }
{
    if rows.is_empty() {
        return Err(Halt::Fault(ReadFault::Block {
            at: 0,
            want: Kind::Dg,
        }));
    }
    let standing = standing_in(alloc, span, form, &rows[0])?;
    Ok(standing)
}
