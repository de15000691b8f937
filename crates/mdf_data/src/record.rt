ghost use Rattle.std.specs.Prelude.{◌≡◌, ◌+◌, ◌-◌, ◌^◌, ◌≤◌, ◌<◌, Some, length, IfOk, IfSome};
ghost use Rattle.mdf_format.specs.Number.{le_number, bytes_at};
ghost use Rattle.mdf_block.specs.Reads.{Looks, Reads};
ghost use Rattle.mdf_data.specs.declared.known.Size.{Size};
ghost use Rattle.mdf_stream.specs.Parts.{stream_of, stream_size, ArePartsInside};
ghost use Rattle.mdf_data.specs.Record.{IsIdSize, least_size, group_of, body_size, id_at, group_piece, split_refusal};

use crate::known::Group;
use crate::{DataView, Known, Piece, Size, SplitFault};
use mdf_num::{Halt, Span, Stop};

/// The first of these groups that has this id.
pub(crate) fn group_of(known: &[Known], id: u64) -> Option<Group>
    requires { length known.now < 2 ^ 32 }
    ensures { result ≡ group_of known.now id 0 }
{
    let mut k = 0;
    while k < known.len() {
        let first = known[k];
        if first.id == id {
            return Some(Group {
                which: k as u32,
                size: first.size,
            });
        }
        k += 1;
    }
    None
}

/// The id in the bytes of the stream from `at` on. The search for them begins at part `near` of the stream.
#[inline(always)]
fn id_in<P: Span>(
    span: &mut P,
    view: &DataView,
    id_size: u8,
    at: u64,
    near: &mut usize,
) -> Result<u64, Stop>
    requires id_size { IsIdSize id_size }
    requires inside { ArePartsInside (P.size span.old) view.now }
    requires within { at + id_size ≤ stream_size view.now }
    ensures reads { Looks P.Span span.old span.new P.may_want result (λ file id. id ≡ le_number (bytes_at id_size (stream_of file view.now) at)) }
{
    view.number_near(span, at, id_size, near)
}

/// How long the body of a record of a group is, where it is whole. The body begins at `at`, and `rest` bytes are there. The
/// search for them begins at part `near` of the stream.
#[inline(always)]
fn body_size_in<P: Span>(
    span: &mut P,
    view: &DataView,
    at: u64,
    rest: u64,
    size: Size,
    near: &mut usize,
) -> Result<Option<u64>, Stop>
    requires inside { ArePartsInside (P.size span.old) view.now }
    requires within { at + rest ≤ stream_size view.now }
    ensures reads { Looks P.Span span.old span.new P.may_want result (λ file found. found ≡ body_size (stream_of file view.now) at rest size) }
    ensures most { IfOk result (λ found. IfSome found (λ len. len ≤ rest)) }
    ensures least { IfOk result (λ found. IfSome found (λ len. least_size size ≤ len)) }
{
    match size {
        Size::Fixed(size) => {
            if rest < size {
                return Ok(None);
            }
            Ok(Some(size))
        }
        Size::Variable => {
            if rest < 4 {
                return Ok(None);
            }
            let len = view.u32_near(span, at, near)? as u64;
            if rest - 4 < len {
                return Ok(None);
            }
            Ok(Some(4 + len))
        }
    }
}

/// The id of the record that begins at `at`, and None at the end of the stream. The search for it begins at part `near` of
/// the stream.
#[tactic(auto, unfolding(crate::specs::Record::id_at))]
#[inline(always)]
pub(crate) fn id_here_in<P: Span>(
    span: &mut P,
    view: &DataView,
    id_size: u8,
    at: u64,
    near: &mut usize,
) -> Result<Option<u64>, Halt<SplitFault>>
    requires id_size { IsIdSize id_size }
    requires inside { ArePartsInside (P.size span.old) view.now }
    requires within { at ≤ stream_size view.now }
    ensures reads { Reads P.Span span.old span.new P.may_want split_refusal result (λ file. id_at (stream_of file view.now) id_size at (stream_size view.now - at)) }
    ensures there { IfOk result (λ found. IfSome found (λ id. at + id_size ≤ stream_size view.now)) }
{
    let rest = view.len() - at;
    if rest == 0 {
        return Ok(None);
    }
    if rest < id_size as u64 {
        return Err(Halt::Fault(SplitFault::Cut { at }));
    }
    let id = id_in(span, view, id_size, at, near)?;
    Ok(Some(id))
}

/// The record that begins at `at` with this id, which belongs to this group. The search for it begins at part `near` of the
/// stream.
#[tactic(auto, unfolding(crate::specs::Record::group_piece))]
#[inline(always)]
pub(crate) fn group_piece_in<P: Span>(
    span: &mut P,
    view: &DataView,
    id_size: u8,
    at: u64,
    id: u64,
    group: Option<Group>,
    near: &mut usize,
) -> Result<Piece, Halt<SplitFault>>
    requires inside { ArePartsInside (P.size span.old) view.now }
    requires within { at + id_size ≤ stream_size view.now }
    ensures reads { Reads P.Span span.old span.new P.may_want split_refusal result (λ file. group_piece (stream_of file view.now) id_size at (stream_size view.now - at) id group) }
    ensures place { IfOk result (λ piece. piece.at ≡ at) }
    ensures within { IfOk result (λ piece. at + piece.len ≤ stream_size view.now) }
    ensures fits { IfOk result (λ piece. at + piece.len < 2 ^ 62) }
    ensures group { IfOk result (λ piece. (size : Size) × ((group ≡ Some (record { which = piece.which; size = size })) × (id_size + least_size size ≤ piece.len))) }
{
    let Some(group) = group else {
        return Err(Halt::Fault(SplitFault::UnknownId { id, at }));
    };
    let rest = view.len() - at - id_size as u64;
    let start = at + id_size as u64;
    let Some(size) = body_size_in(span, view, start, rest, group.size, near)? else {
        return Err(Halt::Fault(SplitFault::Cut { at }));
    };
    Ok(Piece {
        which: group.which,
        at,
        len: id_size as u64 + size,
    })
}
