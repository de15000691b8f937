ghost use Rattle.std.specs.Prelude.{◌≡◌, ℕ, ◌^◌, ◌<◌, ◌≤◌, ◌↔◌, List, length, map, true, take, drop, false, All, IsTrue, IfOk, IfErr, Some};
ghost use Rattle.mdf_format.specs.Field.{HasBit, bit_of};
ghost use Rattle.mdf_vlsd.specs.Value.{value_at};
ghost use Rattle.mdf_layout.specs.Rule.{spot_in};
ghost use Rattle.mdf_layout.specs.Values.{Finder, sample_by, sample_of};
ghost use Rattle.mdf_layout.specs.Written.{AreApart, AreEntriesOf, OffsetsFit, AreFound, HoldValues, HoldMarks, IsFree, IsFreePosition, AreFilled};
ghost use Rattle.mdf_layout.specs.Behind.{variables};
ghost use Rattle.mdf_layout.specs.Layout.{IsRuled, record_size};
ghost use Rattle.mdf_layout.specs.Fault.{ShapeCause, DecodeCause, MissingCause};
ghost use Rattle.mdf_num.specs.Halt.{HaltCause};

use crate::reading::streams_with;
use crate::rule::{bits_of, least_bad, row_at};
use crate::runs::first_meeting;
use crate::writing::{clear, encode_into};
use crate::{
    DecodeFault, Entries, FieldRow, Missing, Sample, Values, are_apart, decode, decode_in,
    entries_fit,
};
use mdf_num::{Halt, Memory, Rows, Span};
use mdf_vlsd::Streams;
use std::alloc::Global;
use std::marker::Model;
use thiserror::Error;

/// The layout of the records of a channel group: its channels, and how many data bytes (`cg_data_bytes`) and invalidation
/// bytes (`cg_inval_bytes`) a record has. No channel breaks a rule of `first_bad`, and there are fewer than 2^31.
#[derive(Debug, Drop)]
pub struct Shape {
    rows: Rows<FieldRow>,
    data_bytes: u32,
    inval_bytes: u32,
    variable_count: u32,
    filled: bool,
}

impl Model for Shape {
    ghost use Rattle.std.specs.Prelude.{◌≡◌, ◌*◌, true, length};
    ghost use Rattle.mdf_layout.specs.Layout.{Layout, IsRuled};
    ghost use Rattle.mdf_layout.specs.Behind.{variables};
    ghost use Rattle.mdf_layout.specs.Written.{AreFilled};

    ghost Value = { Layout };

    ghost view = { λ shape. record { rows = shape.rows; data_bytes = shape.data_bytes; inval_bytes = shape.inval_bytes } };

    ghost invariant = { λ shape. IsRuled (record { rows = shape.rows; data_bytes = shape.data_bytes; inval_bytes = shape.inval_bytes })
        × (shape.variable_count ≡ length (variables shape.rows))
        × (shape.filled ≡ true → AreFilled shape.rows (8 * shape.data_bytes)) };
}

/// Why rows are no layout.
#[derive(Clone, Copy, Debug, Error)]
pub enum ShapeFault {
    /// This channel breaks a rule; no earlier one does.
    #[error("channel {channel} has no place in the record")]
    Bad { channel: u32 },
    #[error("want of memory")]
    Memory,
}

impl From<Memory> for ShapeFault {
    ghost use Rattle.std.specs.Prelude.{◌≡◌};
    ghost use Rattle.mdf_layout.specs.declared.shape.ShapeFault.TheVariants as faults;

    ghost from_gives = { λ _ fault. fault ≡ faults.Memory };

    fn from(_: Memory) -> Self {
        ShapeFault::Memory
    }
}

/// A layout has fewer channels than this, so that the length of its samples is a number of 64 bits.
const MOST_CHANNELS: u64 = 1 << 31;

/// How many channels are of variable length.
fn count_variables(rows: &[FieldRow]) -> usize
    requires few { length rows.now < 2 ^ 31 }
    ensures count { result ≡ length (variables rows.now) }
    ensures few { result ≤ length rows.now }
{
    let mut count = 0;
    for channel in 0..rows.len() {
        count = streams_with(row_at(rows, channel), count);
    }
    count
}

/// Where the filled bits of a record end with a field: it goes on from them, or stands elsewhere.
fn filled_with(row: FieldRow, end: u64) -> u64
    ensures more { end ≤ result }
    ensures filled { (p : ℕ) → end ≤ p → p < result → HasBit (spot_in row) p }
{
    if !row.big && 8 * row.byte as u64 + row.bit as u64 == end {
        return end + bits_of(row);
    }
    end
}

/// How many bits of a record, from the first on, are those of fields that stand one behind the other, in the order of the
/// channels.
fn filled_bits(rows: &[FieldRow]) -> u64
    ensures { AreFilled rows.now result }
{
    let mut end = 0;
    for channel in 0..rows.len() {
        end = filled_with(row_at(rows, channel), end);
    }
    end
}

/// The layout of these channels in records of so many data bytes and invalidation bytes.
///
/// # Errors
/// `Bad` exactly where a channel breaks a rule of `first_bad`, with the least such channel; `Memory`, which 2^31 channels
/// and more always want.
pub fn shape_of(
    alloc: Global,
    rows: &Rows<FieldRow>,
    data_bytes: u32,
    inval_bytes: u32,
) -> Result<Shape, ShapeFault>
    ensures ok { IfOk result (λ shape. shape ≡ record { rows = rows.now; data_bytes = data_bytes; inval_bytes = inval_bytes }) }
    ensures ruled { IfOk result IsRuled }
    ensures fault { IfErr result (ShapeCause data_bytes inval_bytes rows.now) }
{
    if rows.len() >= MOST_CHANNELS {
        return Err(ShapeFault::Memory);
    }
    let variable_count = count_variables(rows.as_slice()) as u32;
    let apart = if variable_count == 0 {
        0
    } else {
        first_meeting(alloc, rows.as_slice())?
    };
    if let Some(channel) = least_bad(rows.as_slice(), apart, data_bytes, inval_bytes) {
        return Err(ShapeFault::Bad { channel });
    }
    let rows = Rows::from_vec(copy_rows(alloc, rows.as_slice())?);
    let filled = filled_bits(rows.as_slice()) >= 8 * data_bytes as u64;
    Ok(Shape {
        rows,
        data_bytes,
        inval_bytes,
        variable_count,
        filled,
    })
}

/// Equal rows.
fn copy_rows(alloc: Global, rows: &[FieldRow]) -> Result<Vec<FieldRow>, Memory>
    ensures { IfOk result (λ copies. copies.items ≡ rows.now) }
{
    Ok(Vec::from_slice(alloc, rows)?)
}

impl Shape {
    /// The channels, in order.
    pub fn fields(&self) -> &Rows<FieldRow>
        ensures rows { result.now ≡ self.now.rows }
        ensures ruled { IsRuled self.now }
    {
        &self.rows
    }

    /// How many data bytes a record has.
    pub fn data_bytes(&self) -> u32
        ensures { result ≡ self.now.data_bytes }
    {
        self.data_bytes
    }

    /// How many invalidation bytes a record has.
    pub fn inval_bytes(&self) -> u32
        ensures { result ≡ self.now.inval_bytes }
    {
        self.inval_bytes
    }

    /// How many channels are of variable length.
    pub fn variable_count(&self) -> u32
        ensures { result ≡ length (variables self.now.rows) }
    {
        self.variable_count
    }

    /// How many bytes a record has, without its id.
    pub fn record_size(&self) -> u64
        ensures size { result ≡ record_size self.now }
        ensures small { result < 2 ^ 33 }
    {
        self.data_bytes as u64 + self.inval_bytes as u64
    }

    /// Whether no bit of a record belongs to two channels: their fields share none, and their invalidation bits have
    /// different positions.
    pub fn disjoint(&self) -> bool
        ensures { IsTrue result ↔ AreApart self.now.rows }
    {
        are_apart(self.rows.as_slice())
    }

    /// Whether the sample has one entry for each channel, of its kind and range, and invalid only where the channel has an
    /// invalidation bit. The group's number is not looked at.
    pub fn fits(&self, sample: &Sample) -> bool
        ensures { IsTrue result ↔ AreEntriesOf self.now.rows sample.now.values }
    {
        entries_fit(self.rows.as_slice(), sample.values.as_slice())
    }

    /// Makes the bits of no channel 0. Where the fields fill the data bytes there are none.
    fn clear(&self, content: &mut [u8])
        requires size { length content.old ≡ self.now.data_bytes }
        ensures zero { (p : ℕ) → IsFree self.now.rows p → bit_of content.new p ≡ 0 }
        ensures size { length content.new ≡ length content.old }
    {
        if self.filled {
            return;
        }
        clear(content);
    }

    /// Writes a record of these values, without its id, with the offset of each value of variable length in the field of
    /// its channel. Bits of no channel are 0. `decode` gives the values back where each offset meets its value and each
    /// index is that of the record. It takes no memory.
    pub fn encode(&self, values: &Entries, offsets: &[u64], out: &mut [u8])
        requires apart { AreApart self.now.rows }
        requires valid { All (λ row. row.all_invalid ≡ false) self.now.rows }
        requires fits { AreEntriesOf self.now.rows values.now }
        requires offsets { OffsetsFit self.now.rows offsets.now }
        requires size { length out.old ≡ record_size self.now }
        ensures sample { (finders : List Finder) (index : ℕ) → AreFound self.now.rows values.now offsets.now finders index
            → sample_by self.now.rows (take self.now.data_bytes out.new) (drop self.now.data_bytes out.new) finders index ≡ Some values.now }
        ensures values { HoldValues self.now.rows values.now offsets.now (length self.now.rows) (take self.now.data_bytes out.new) }
        ensures marks { HoldMarks self.now.rows values.now (length self.now.rows) (drop self.now.data_bytes out.new) }
        ensures unused { (p : ℕ) → IsFree self.now.rows p → bit_of (take self.now.data_bytes out.new) p ≡ 0 }
        ensures unused_positions { (p : ℕ) → IsFreePosition self.now.rows p → bit_of (drop self.now.data_bytes out.new) p ≡ 0 }
        ensures size { length out.new ≡ record_size self.now }
    {
        let (content, inval) = out.split_at_mut(self.data_bytes as usize);
        self.clear(content);
        encode_into(
            self.rows.as_slice(),
            values.as_slice(),
            offsets,
            content,
            inval,
        );
    }

    /// The sample of a record, from its bytes without its id, the streams of the channels of variable length in order, and
    /// the index of the record. A channel without a stream has no value.
    ///
    /// # Errors
    /// `Offset` exactly where the offset of a channel meets no value in its stream, with the least such channel; `Memory`.
    pub fn decode(
        &self,
        alloc: Global,
        bytes: &[u8],
        streams: &Streams,
        index: u64,
    ) -> Result<Entries, DecodeFault>
        requires size { length bytes.now ≡ record_size self.now }
        ensures sample { IfOk result (λ entries. sample_of self.now.rows (take self.now.data_bytes bytes.now) (drop self.now.data_bytes bytes.now)
            streams.now index ≡ Some entries) }
        ensures fault { IfErr result (DecodeCause self.now.rows (take self.now.data_bytes bytes.now) (drop self.now.data_bytes bytes.now)
            (map value_at streams.now) index) }
    {
        let (content, inval) = bytes.split_at(self.data_bytes as usize);
        decode(
            alloc,
            self.rows.as_slice(),
            content,
            inval,
            streams.as_slice(),
            index,
        )
    }
    /// The sample of a record, as `decode`, with what finds the values of its channels of variable length in a file of which
    /// only some pages are in memory.
    ///
    /// # Errors
    /// The least channel whose offset meets no value in its stream; the span's own; and want of memory.
    pub fn decode_in<V: Values, P: Span>(
        &self,
        alloc: Global,
        span: &mut P,
        bytes: &[u8],
        values: &V,
        index: u64,
    ) -> Result<Entries, Halt<Missing>>
        requires size { length bytes.now ≡ record_size self.now }
        requires needs { V.needs values.now (P.size span.old) }
        ensures sample { (f : List ℕ) → P.bytes span.old ≡ Some f → IfOk result (λ entries. sample_by self.now.rows
            (take self.now.data_bytes bytes.now) (drop self.now.data_bytes bytes.now) (V.finders values.now f) index ≡ Some entries) }
        ensures fault { (f : List ℕ) → P.bytes span.old ≡ Some f → IfErr result (MissingCause self.now.rows
            (take self.now.data_bytes bytes.now) (drop self.now.data_bytes bytes.now) (V.finders values.now f) index) }
        ensures same { P.bytes span.new ≡ P.bytes span.old }
        ensures size { P.size span.new ≡ P.size span.old }
        ensures cause { HaltCause true (P.faults span.old) (P.faults span.new) result }
    {
        let (content, inval) = bytes.split_at(self.data_bytes as usize);
        decode_in(
            alloc,
            span,
            self.rows.as_slice(),
            content,
            inval,
            values,
            index,
        )
    }
}
