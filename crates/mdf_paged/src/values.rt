ghost use Rattle.std.specs.Prelude.{◌≡◌, ◌+◌, ◌≤◌, ℕ, List, Some, None, true, length, map, if◌then◌else◌, IfOk, IfSome, OnOk};
ghost use Rattle.std.specs.List.{AllByRecursion};
ghost use Rattle.mdf_format.specs.Number.{bytes_at};
ghost use Rattle.mdf_num.specs.Halt.{StopCause};
ghost use Rattle.mdf_block.specs.Reads.{Looks};
ghost use Rattle.mdf_stream.specs.Parts.{stream_of, stream_size, ArePartsInside};
ghost use Rattle.mdf_vlsd.specs.Value.{size_there, value_at};
ghost use Rattle.mdf_content.specs.Values.{has_value};

use mdf_data::DataView;
use mdf_layout::Values;
use mdf_num::{Bytes, Span, Stop};
use std::alloc::Global;

/// Reads a range of a stream into the scratch, which becomes as long as the range; its old content goes. The search for the bytes
/// begins at part `near`.
pub(crate) fn read_into<P: Span>(
    span: &mut P,
    view: &DataView,
    at: u64,
    len: u64,
    near: &mut usize,
    scratch: &mut Vec<u8>,
) -> Result<(), Stop>
    requires inside { ArePartsInside (P.size span.old) view.now }
    requires within { at + len ≤ stream_size view.now }
    ensures reads { Looks P.Span span.old span.new true result (λ file _. scratch.new.items ≡ bytes_at len (stream_of file view.now) at) }
    ensures long { OnOk result (length scratch.new.items ≡ len) }
{
    scratch.resize(len as usize, 0)?;
    view.read_near(span, at, scratch.as_mut_slice(), near)?;
    Ok(())
}

/// The bytes of a range of a stream. The search for them begins at part `near`.
fn bytes_in<P: Span>(
    alloc: Global,
    span: &mut P,
    view: &DataView,
    at: u64,
    len: u64,
    near: &mut usize,
) -> Result<Bytes, Stop>
    requires inside { ArePartsInside (P.size span.old) view.now }
    requires within { at + len ≤ stream_size view.now }
    ensures reads { Looks P.Span span.old span.new true result (λ file bytes. bytes ≡ bytes_at len (stream_of file view.now) at) }
{
    let mut bytes = Vec::with_capacity(alloc, len as usize)?;
    read_into(span, view, at, len, near, &mut bytes)?;
    Ok(Bytes::from_vec(bytes))
}

/// How many bytes the value at an offset of a stream has. None exactly where no whole value stands there. The search for it
/// begins at part `near`.
fn value_size_in<P: Span>(
    span: &mut P,
    values: &DataView,
    offset: u64,
    near: &mut usize,
) -> Result<Option<u32>, Stop>
    requires inside { ArePartsInside (P.size span.old) values.now }
    ensures reads { Looks P.Span span.old span.new true result (λ file size. size ≡ (if has_value (stream_of file values.now) offset then Some (size_there (stream_of file values.now) offset) else None)) }
    ensures within { IfOk result (λ size. IfSome size (λ n. offset + 4 + n ≤ stream_size values.now)) }
{
    let total = values.len();
    let Some(place) = offset.checked_add(4) else {
        return Ok(None);
    };
    if place > total {
        return Ok(None);
    }
    let size = values.u32_near(span, offset, near)?;
    if place + size as u64 > total {
        return Ok(None);
    }
    Ok(Some(size))
}

/// The value at an offset of a stream. None exactly where no whole value stands there. The search for it begins at part `near`.
#[tactic(auto, using(crate::proofs::Placed::value_none, crate::proofs::Placed::value_some))]
fn value_in<P: Span>(
    alloc: Global,
    span: &mut P,
    values: &DataView,
    offset: u64,
    near: usize,
) -> Result<Option<Bytes>, Stop>
    requires inside { ArePartsInside (P.size span.old) values.now }
    ensures value { (f : List ℕ) → P.bytes span.old ≡ Some f → IfOk result (λ value. value ≡ value_at (stream_of f values.now) offset) }
    ensures same { P.bytes span.new ≡ P.bytes span.old }
    ensures size { P.size span.new ≡ P.size span.old }
    ensures cause { StopCause true (P.faults span.old) (P.faults span.new) result }
{
    let mut near = near;
    let Some(size) = value_size_in(span, values, offset, &mut near)? else {
        return Ok(None);
    };
    let _total = values.len();
    let bytes = bytes_in(alloc, span, values, offset + 4, size as u64, &mut near)?;
    Ok(Some(bytes))
}

/// The values of a group's channels of variable length, each in its stream. The search for a value begins at part `near` of its
/// stream: any number will do.
#[derive(Drop)]
pub(crate) struct Views<'a> {
    pub(crate) streams: &'a [DataView],
    pub(crate) near: usize,
}

impl Values for Views<'_> {
    ghost finders = { λ views f. map value_at (map (stream_of f) views.streams.now) };

    ghost needs = { λ views size. AllByRecursion (ArePartsInside size) views.streams.now };

    fn find<P: Span>(
        &self,
        alloc: Global,
        span: &mut P,
        stream: usize,
        offset: u64,
    ) -> Result<Option<Bytes>, Stop> {
        if stream >= self.streams.len() {
            return Ok(None);
        }
        value_in(alloc, span, &self.streams[stream], offset, self.near)
    }
}
