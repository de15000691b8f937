ghost use Rattle.std.specs.Prelude.{◌≡◌, ◌+◌, ◌^◌, ◌<◌, ◌≤◌, ◌/◌, ℕ, List, Some, true, length, map, All, IfOk, IfErr, if◌then◌else◌};
ghost use Rattle.std.specs.Option.{option_map};
ghost use Rattle.mdf_format.specs.Field.{field_number};
ghost use Rattle.mdf_format.specs.Number.{bytes_at};
ghost use Rattle.mdf_format.specs.Row.{IsNumberPlaced};
ghost use Rattle.mdf_num.specs.Halt.{HaltCause, StopCause};
ghost use Rattle.mdf_vlsd.specs.Value.{value_at};
ghost use Rattle.mdf_layout.specs.Rule.{spot_in, is_variable, IsPlacedAs, IsInvalIn};
ghost use Rattle.mdf_layout.specs.Values.{Finder, value_in, is_valid, entry_of, sample_by, sample_of, finder_at, IsRowPlaced};
ghost use Rattle.mdf_layout.specs.Fault.{DecodeCause, LackCause, MissingCause, missing_at};
ghost use Rattle.mdf_layout.specs.declared.field.FieldKind.TheVariants.{Variable};

use crate::rule::{is_variable, number_field, row_at};
use crate::{Entries, Entry, FieldKind, FieldRow, Value};
use mdf_bits::{get, is_invalid, signed};
use mdf_num::{Bytes, Halt, Memory, Rows, SliceSpan, Span, Stop};
use mdf_vlsd::ValueStream;
use std::alloc::Global;
use thiserror::Error;

/// Why a record has no sample.
#[derive(Clone, Copy, Debug, Error)]
pub enum DecodeFault {
    /// The offset in the field of this channel meets no value in its stream; each earlier channel has its value.
    #[error("offset {offset} of channel {channel} meets no value")]
    Offset { channel: u32, offset: u64 },
    #[error("want of memory")]
    Memory,
}

impl From<Memory> for DecodeFault {
    ghost use Rattle.std.specs.Prelude.{◌≡◌};
    ghost use Rattle.mdf_layout.specs.declared.reading.DecodeFault.TheVariants as faults;

    ghost from_gives = { λ _ fault. fault ≡ faults.Memory };

    fn from(_: Memory) -> Self {
        DecodeFault::Memory
    }
}

/// The offset in the field of this channel meets no value in its stream; each earlier channel has its value.
#[derive(Clone, Copy, Debug)]
pub struct Missing {
    pub channel: u32,
    pub offset: u64,
}

/// Finds values of variable length by their offsets in the streams of a group's channels. A contract sees it by what finds
/// the values of each stream, over the bytes of the file.
pub trait Values {
    /// What finds the values of each stream, in order.
    ghost finders: { Self → List ℕ → List Finder };

    /// What a file of so many bytes must have for it.
    ghost needs: { Self → ℕ → Type 0 };

    /// The value at an offset of a stream, counted from 0. None exactly where there is no such stream or no value.
    ///
    /// # Errors
    /// The span's own; and want of memory.
    fn find<P: Span>(
        &self,
        alloc: Global,
        span: &mut P,
        stream: usize,
        offset: u64,
    ) -> Result<Option<Bytes>, Stop>
        requires needs { needs self.now (P.size span.old) }
        ensures found { (f : List ℕ) → P.bytes span.old ≡ Some f → IfOk result (λ value. value ≡ finder_at (finders self.now f) stream offset) }
        ensures same { P.bytes span.new ≡ P.bytes span.old }
        ensures size { P.size span.new ≡ P.size span.old }
        ensures cause { StopCause true (P.faults span.old) (P.faults span.new) result };
}

/// Streams in memory.
#[derive(Drop)]
struct InMemory<'a> {
    streams: &'a [ValueStream],
}

impl Values for InMemory<'_> {
    ghost use Rattle.std.specs.Prelude.{map};
    ghost use Rattle.mdf_vlsd.specs.Value.{value_at};

    ghost finders = { λ values _. map value_at values.streams.now };

    ghost needs = { λ _ _. Unit {0} };

    fn find<P: Span>(
        &self,
        alloc: Global,
        _span: &mut P,
        stream: usize,
        offset: u64,
    ) -> Result<Option<Bytes>, Stop> {
        let Some(value) = find(self.streams, stream, offset) else {
            return Ok(None);
        };
        Ok(Some(Bytes::from_slice(alloc, value)?))
    }
}

/// The number in the field of a channel.
fn number_in(row: FieldRow, content: &[u8]) -> u64
    requires placed { IsNumberPlaced (length content.now) (spot_in row) }
    ensures number { result ≡ field_number (spot_in row) content.now }
    ensures fits { result < 2 ^ (spot_in row).bits }
{
    get(content, number_field(row))
}

/// Bytes of the field of a channel.
fn bytes_in(alloc: Global, row: FieldRow, content: &[u8]) -> Result<Bytes, Memory>
    requires inside { row.byte + row.bits / 8 ≤ length content.now }
    ensures { IfOk result (λ bytes. bytes ≡ bytes_at (row.bits / 8) content.now row.byte) }
{
    let start = row.byte as usize;
    Bytes::from_slice(alloc, &content[start..start + (row.bits / 8) as usize])
}

/// The value at an offset of a stream, counted from 0. None exactly where there is no such stream or no value.
fn find(streams: &[ValueStream], stream: usize, offset: u64) -> Option<&[u8]>
    ensures { option_map (λ value. value.now) result ≡ finder_at (map value_at streams.now) stream offset }
{
    if stream >= streams.len() {
        return None;
    }
    streams[stream].value_at(offset)
}

/// The value at the offset in the field of a channel of variable length. The fault is the offset that meets none.
fn value_at_in<V: Values, P: Span>(
    alloc: Global,
    span: &mut P,
    row: FieldRow,
    content: &[u8],
    values: &V,
    stream: usize,
) -> Result<Bytes, Halt<u64>>
    requires kind { row.kind ≡ Variable }
    requires placed { IsNumberPlaced (length content.now) (spot_in row) }
    requires needs { V.needs values.now (P.size span.old) }
    ensures value { (f : List ℕ) → P.bytes span.old ≡ Some f
        → IfOk result (λ value. finder_at (V.finders values.now f) stream (field_number (spot_in row) content.now) ≡ Some value) }
    ensures lack { (f : List ℕ) → P.bytes span.old ≡ Some f → IfErr result (LackCause row content.now (finder_at (V.finders values.now f) stream)) }
    ensures same { P.bytes span.new ≡ P.bytes span.old }
    ensures size { P.size span.new ≡ P.size span.old }
    ensures cause { HaltCause true (P.faults span.old) (P.faults span.new) result }
{
    let offset = number_in(row, content);
    match values.find(alloc, span, stream, offset)? {
        Some(bytes) => Ok(bytes),
        None => Err(Halt::Fault(offset)),
    }
}

/// The value of a channel.
fn value_of<V: Values, P: Span>(
    alloc: Global,
    span: &mut P,
    row: FieldRow,
    content: &[u8],
    values: &V,
    stream: usize,
    index: u64,
) -> Result<Value, Halt<u64>>
    requires placed { IsPlacedAs row.kind (length content.now) (spot_in row) }
    requires needs { V.needs values.now (P.size span.old) }
    ensures value { (f : List ℕ) → P.bytes span.old ≡ Some f
        → IfOk result (λ value. value_in row.kind (spot_in row) content.now (finder_at (V.finders values.now f) stream) index ≡ Some value) }
    ensures lack { (f : List ℕ) → P.bytes span.old ≡ Some f → IfErr result (LackCause row content.now (finder_at (V.finders values.now f) stream)) }
    ensures same { P.bytes span.new ≡ P.bytes span.old }
    ensures size { P.size span.new ≡ P.size span.old }
    ensures cause { HaltCause true (P.faults span.old) (P.faults span.new) result }
{
    match row.kind {
        FieldKind::Unsigned => Ok(Value::Unsigned(number_in(row, content))),
        FieldKind::Signed => Ok(Value::Signed(signed(number_in(row, content), row.bits as u8))),
        FieldKind::Fixed => Ok(Value::Bytes(bytes_in(alloc, row, content)?)),
        FieldKind::Variable => {
            let bytes = value_at_in(alloc, span, row, content, values, stream)?;
            Ok(Value::Bytes(bytes))
        }
        FieldKind::Virtual => Ok(Value::Index(index)),
    }
}

/// Whether the value of a channel is valid.
fn is_valid(row: FieldRow, inval: &[u8]) -> bool
    requires { IsInvalIn (length inval.now) row.inval }
    ensures { result ≡ is_valid row inval.now }
{
    if row.all_invalid {
        return false;
    }
    match row.inval {
        Some(position) => !is_invalid(inval, position),
        None => true,
    }
}

/// The entry of a channel.
fn entry_of<V: Values, P: Span>(
    alloc: Global,
    span: &mut P,
    row: FieldRow,
    content: &[u8],
    inval: &[u8],
    values: &V,
    stream: usize,
    index: u64,
) -> Result<Entry, Halt<u64>>
    requires placed { IsRowPlaced (length content.now) (length inval.now) row }
    requires needs { V.needs values.now (P.size span.old) }
    ensures entry { (f : List ℕ) → P.bytes span.old ≡ Some f
        → IfOk result (λ entry. entry_of row content.now inval.now (finder_at (V.finders values.now f) stream) index ≡ Some entry) }
    ensures lack { (f : List ℕ) → P.bytes span.old ≡ Some f → IfErr result (LackCause row content.now (finder_at (V.finders values.now f) stream)) }
    ensures same { P.bytes span.new ≡ P.bytes span.old }
    ensures size { P.size span.new ≡ P.size span.old }
    ensures cause { HaltCause true (P.faults span.old) (P.faults span.new) result }
{
    let value = value_of(alloc, span, row, content, values, stream, index)?;
    Ok(Entry {
        value,
        valid: is_valid(row, inval),
    })
}

/// How many streams belong to the channels up to this one, where so many belong to those before.
pub(crate) fn streams_with(row: FieldRow, before: usize) -> usize
    requires { before < 2 ^ 32 }
    ensures { result ≡ before + (if is_variable row then 1 else 0) }
{
    if is_variable(row) { before + 1 } else { before }
}

/// The lack of a value as that of a sample.
fn missing_at(lack: Halt<u64>, channel: u32) -> Halt<Missing>
    ensures { result ≡ missing_at channel lack }
{
    match lack {
        Halt::Fault(offset) => Halt::Fault(Missing { channel, offset }),
        Halt::Failed => Halt::Failed,
        Halt::Memory => Halt::Memory,
    }
}

/// The sample of a record: the entry of each channel, from its data bytes and its invalidation bytes, what finds the values
/// of the channels of variable length in order, and the index of the record. A channel without a stream has no value.
///
/// # Errors
/// The least channel whose offset meets no value in its stream; the span's own; and want of memory.
pub fn decode_in<V: Values, P: Span>(
    alloc: Global,
    span: &mut P,
    rows: &[FieldRow],
    content: &[u8],
    inval: &[u8],
    values: &V,
    index: u64,
) -> Result<Entries, Halt<Missing>>
    requires placed { All (IsRowPlaced (length content.now) (length inval.now)) rows.now }
    requires few { length rows.now < 2 ^ 32 }
    requires needs { V.needs values.now (P.size span.old) }
    ensures sample { (f : List ℕ) → P.bytes span.old ≡ Some f
        → IfOk result (λ entries. sample_by rows.now content.now inval.now (V.finders values.now f) index ≡ Some entries) }
    ensures fault { (f : List ℕ) → P.bytes span.old ≡ Some f → IfErr result (MissingCause rows.now content.now inval.now (V.finders values.now f) index) }
    ensures same { P.bytes span.new ≡ P.bytes span.old }
    ensures size { P.size span.new ≡ P.size span.old }
    ensures cause { HaltCause true (P.faults span.old) (P.faults span.new) result }
{
    let Ok(mut entries) = Vec::with_capacity(alloc, rows.len()) else {
        return Err(Halt::Memory);
    };
    let mut stream = 0;
    for channel in 0..rows.len() {
        let row = row_at(rows, channel);
        let entry = match entry_of(alloc, span, row, content, inval, values, stream, index) {
            Ok(entry) => entry,
            Err(lack) => return Err(missing_at(lack, channel as u32)),
        };
        let Ok(()) = entries.push(entry) else {
            return Err(Halt::Memory);
        };
        stream = streams_with(row, stream);
    }
    Ok(Rows::from_vec(entries))
}

/// The sample of a record, as `decode_in`, with streams in memory.
///
/// # Errors
/// `Offset` exactly where the offset of a channel meets no value in its stream, with the least such channel; `Memory`.
pub fn decode(
    alloc: Global,
    rows: &[FieldRow],
    content: &[u8],
    inval: &[u8],
    streams: &[ValueStream],
    index: u64,
) -> Result<Entries, DecodeFault>
    requires placed { All (IsRowPlaced (length content.now) (length inval.now)) rows.now }
    requires few { length rows.now < 2 ^ 32 }
    ensures sample { IfOk result (λ entries. sample_of rows.now content.now inval.now streams.now index ≡ Some entries) }
    ensures fault { IfErr result (DecodeCause rows.now content.now inval.now (map value_at streams.now) index) }
{
    let values = InMemory { streams };
    let mut span = SliceSpan::new(content);
    match decode_in(alloc, &mut span, rows, content, inval, &values, index) {
        Ok(entries) => Ok(entries),
        Err(Halt::Fault(Missing { channel, offset })) => Err(DecodeFault::Offset {
            channel,
            offset,
        }),
        Err(Halt::Failed) => unreachable!(),
        Err(Halt::Memory) => Err(DecodeFault::Memory),
    }
}
