// Fields and records of a layout.
ghost use Rattle.std.specs.Prelude.{◌≡◌, ◌+◌, ◌*◌, ◌<◌, length, slice_index_or, [], Some, slice_get};
ghost use Rattle.mdf_bits.specs.Field as bits;
ghost use Rattle.mdf_content.specs.Samples.{record_at};
ghost use Rattle.mdf_format.specs.Row.{IsNumberPlaced};
ghost use Rattle.mdf_layout.specs.Layout.{record_size};
ghost use Rattle.mdf_layout.specs.Rule.{spot_in};
ghost use Rattle.mdf_layout.specs.declared.field.FieldKind.TheVariants as kinds;

use mdf_bits::Field;
use mdf_layout::{FieldRow, Shape};
use mdf_vlsd::ValueStream;

/// Channel `k` of these.
pub(crate) fn row_at(rows: &[FieldRow], k: usize) -> FieldRow
    requires { k < length rows.now }
    ensures { slice_get rows.now k ≡ Some result }
{
    rows[k]
}

/// The field of the offsets of a channel of variable length.
pub(crate) fn offset_field(row: FieldRow, data_bytes: usize) -> Field
    requires kind { row.kind ≡ kinds.Variable }
    requires placed { IsNumberPlaced data_bytes (spot_in row) }
    ensures { bits.spot_of result ≡ spot_in row }
{
    Field {
        byte: row.byte,
        bit: row.bit,
        bits: row.bits as u8,
        big: row.big,
    }
}

/// How long a stream is, counted from 0; 0 past the last one.
pub(crate) fn stream_length(streams: &[ValueStream], stream: usize) -> u64
    ensures { result ≡ length (slice_index_or streams.now stream []) }
{
    if stream < streams.len() {
        streams[stream].len()
    } else {
        0
    }
}

/// The bytes of record `i`.
pub(crate) fn record_in<'a>(shape: &Shape, content: &'a [u8], count: u64, i: u64) -> &'a [u8]
    requires long { length content.now ≡ count * record_size shape.now }
    requires index { i < count }
    ensures bytes { result.now ≡ record_at shape.now content.now i }
    ensures long { length result.now ≡ record_size shape.now }
{
    let size = shape.record_size() as usize;
    let _long = content.len();
    let start = i as usize * size;
    &content[start..start + size]
}
