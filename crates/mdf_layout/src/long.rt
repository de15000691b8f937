// The records of values of variable length.
ghost use Rattle.std.specs.Prelude.{◌≡◌, ◌+◌, ◌^◌, ◌<◌, ◌≤◌, [], ◌∷◌, ◌++◌, length, take};
ghost use Rattle.mdf_vlsd.specs.Value.{value_bytes};
ghost use Rattle.mdf_layout.specs.Values.{bytes_in};
ghost use Rattle.mdf_layout.specs.Written.{AreEntriesOf, IsEntryOf};
ghost use Rattle.mdf_layout.specs.Record.{long_value, long_values, long_size, value_record_size};
ghost use Rattle.mdf_layout.specs.Behind.{variables, value_records};

use crate::reading::streams_with;
use crate::rule::{is_variable, row_at};
use crate::writing::put_bytes;
use crate::{Entries, Entry, FieldRow, Shape, Value};

/// Writes bytes behind the first `at`, and answers where they end.
fn append(out: &mut [u8], at: usize, bytes: &[u8]) -> usize
    requires { at + length bytes.now ≤ length out.old }
    ensures end { result ≡ at + length bytes.now }
    ensures front { take result out.new ≡ take at out.old ++ bytes.now }
    ensures size { length out.new ≡ length out.old }
{
    put_bytes(out, at, bytes);
    at + bytes.len()
}

/// The bytes of a value; none of a number.
pub(crate) fn bytes_of(value: &Value) -> &[u8]
    ensures { result.now ≡ bytes_in value.now }
{
    match value {
        Value::Bytes(bytes) => bytes.as_slice(),
        _ => &[],
    }
}

/// Writes the record of a value of variable length behind the first `at` bytes, and answers where it ends: its id, its
/// length in 4 bytes, and its bytes.
fn put_long_value(id: u8, value: &[u8], out: &mut [u8], at: usize) -> usize
    requires short { length value.now < 2 ^ 32 }
    requires room { at + 5 + length value.now ≤ length out.old }
    ensures end { result ≡ at + 5 + length value.now }
    ensures front { take result out.new ≡ take at out.old ++ id ∷ value_bytes value.now }
    ensures size { length out.new ≡ length out.old }
{
    let at = append(out, at, &[id]);
    let size = (value.len() as u32).to_le_bytes();
    let at = append(out, at, &size);
    append(out, at, value)
}

/// Writes the record of a channel's value, where it is of variable length.
fn put_channel(row: FieldRow, entry: &Entry, id: u8, out: &mut [u8], at: usize) -> usize
    requires fits { IsEntryOf row entry.now }
    requires room { at + value_record_size row entry.now ≤ length out.old }
    ensures end { result ≡ at + value_record_size row entry.now }
    ensures front { take result out.new ≡ take at out.old ++ value_records id (long_value row entry.now) }
    ensures size { length out.new ≡ length out.old }
{
    if is_variable(row) {
        put_long_value(id, bytes_of(&entry.value), out, at)
    } else {
        at
    }
}

/// Writes the records of the values of variable length, with ids from this one on, and answers where they end.
fn put_long_values(rows: &[FieldRow], entries: &[Entry], id: u8, out: &mut [u8]) -> usize
    requires fits { AreEntriesOf rows.now entries.now }
    requires ids { id + length (variables rows.now) ≤ 255 }
    requires room { long_size rows.now entries.now ≤ length out.old }
    ensures end { result ≡ long_size rows.now entries.now }
    ensures front { take result out.new ≡ value_records id (long_values rows.now entries.now) }
    ensures size { length out.new ≡ length out.old }
{
    let mut at = 0;
    let mut next = id as usize;
    for channel in 0..rows.len() {
        let row = row_at(rows, channel);
        at = put_channel(row, &entries[channel], next as u8, out, at);
        next = streams_with(row, next);
    }
    at
}

/// The same for the values of a sample of a group with this layout. Where no channel is of variable length, none is looked
/// at.
pub(crate) fn put_long_in_group(shape: &Shape, values: &Entries, id: u8, out: &mut [u8]) -> usize
    requires fits { AreEntriesOf shape.now.rows values.now }
    requires ids { id + length (variables shape.now.rows) ≤ 255 }
    requires room { long_size shape.now.rows values.now ≤ length out.old }
    ensures end { result ≡ long_size shape.now.rows values.now }
    ensures front { take result out.new ≡ value_records id (long_values shape.now.rows values.now) }
    ensures size { length out.new ≡ length out.old }
{
    if shape.variable_count() == 0 {
        return 0;
    }
    put_long_values(shape.fields().as_slice(), values.as_slice(), id, out)
}
