ghost use Rattle.std.specs.Prelude.{◌≡◌, ◌+◌, ◌*◌, ◌^◌, ◌≤◌, ◌<◌, ◌++◌, [], true, length, take, drop, if◌then◌else◌};
ghost use Rattle.mdf_content.specs.Samples.{record_at};
ghost use Rattle.mdf_format.specs.Number.{bytes_at};
ghost use Rattle.mdf_layout.specs.Layout.{record_size};
ghost use Rattle.mdf_layout.specs.Rule.{IsPlacedAs, spot_in};
ghost use Rattle.tool_cut.specs.Kept.{is_kept, kept_bytes, kept_count};
ghost use Rattle.tool_cut.specs.Word.{IsWord};

use crate::master::{Range, is_word};
use mdf_layout::{FieldRow, Shape};
use mdf_num::Bytes;

/// The bytes of record `i`, of records of so many bytes.
fn record_in(content: &[u8], size: usize, i: u64) -> &[u8]
    requires { i * size + size ≤ length content.now }
    ensures bytes { result.now ≡ bytes_at size content.now (i * size) }
    ensures long { length result.now ≡ size }
{
    let _long = content.len();
    let start = i as usize * size;
    &content[start..start + size]
}

/// Copies record `i` to place `kept`, which is before it. It stands outside of the loop over the records, whose numbers then stay
/// in registers.
#[inline(never)]
fn copy_record(content: &mut [u8], size: usize, i: u64, kept: u64)
    requires inside { i * size + size ≤ length content.old }
    requires before { kept < i }
    ensures front { take ((kept + 1) * size) content.new ≡ take (kept * size) content.old ++ bytes_at size content.old (i * size) }
    ensures rest { drop ((i + 1) * size) content.new ≡ drop ((i + 1) * size) content.old }
    ensures len { length content.new ≡ length content.old }
{
    let _long = content.len();
    let start = i as usize * size;
    content.copy_within(start..start + size, kept as usize * size);
}

/// Moves record `i` to place `kept`, which is its own or before it.
fn move_record(content: &mut [u8], size: usize, i: u64, kept: u64)
    requires inside { i * size + size ≤ length content.old }
    requires before { kept ≤ i }
    ensures front { take ((kept + 1) * size) content.new ≡ take (kept * size) content.old ++ bytes_at size content.old (i * size) }
    ensures rest { drop ((i + 1) * size) content.new ≡ drop ((i + 1) * size) content.old }
    ensures len { length content.new ≡ length content.old }
{
    if kept < i {
        copy_record(content, size, i, kept);
    }
}

/// Moves record `i` to place `kept`, where the number of a field lies in the range, and answers how many are kept then.
/// `WORD` says that it is eight whole bytes.
fn keep_record<const WORD: bool>(
    shape: &Shape,
    content: &mut [u8],
    size: usize,
    field: FieldRow,
    range: Range,
    i: u64,
    kept: u64,
) -> u64
    requires size { size ≡ record_size shape.now }
    requires placed { IsPlacedAs field.kind shape.now.data_bytes (spot_in field) }
    requires word { WORD ≡ true → IsWord field }
    requires inside { i * size + size ≤ length content.old }
    requires before { kept ≤ i }
    requires more { i + 1 < 2 ^ 64 }
    ensures count { result ≡ kept + (if is_kept range.from range.to shape.now field content.old i then 1 else 0) }
    ensures front { take (result * record_size shape.now) content.new ≡ take (kept * record_size shape.now) content.old
        ++ (if is_kept range.from range.to shape.now field content.old i then record_at shape.now content.old i else []) }
    ensures rest { drop ((i + 1) * record_size shape.now) content.new ≡ drop ((i + 1) * record_size shape.now) content.old }
    ensures len { length content.new ≡ length content.old }
{
    let bytes = record_in(content, size, i);
    if range.has::<WORD>(field, &bytes[..shape.data_bytes() as usize]) {
        move_record(content, size, i, kept);
        return kept + 1;
    }
    kept
}

/// Moves to the front, of so many records, those in which the number of a field lies in the range, and answers how many they are.
/// `WORD` says that it is eight whole bytes. It is not put into its caller, so that the numbers of its loop stay in registers.
#[inline(never)]
fn keep_records<const WORD: bool>(
    shape: &Shape,
    content: &mut [u8],
    count: u64,
    field: FieldRow,
    range: Range,
) -> u64
    requires long { length content.old ≡ count * record_size shape.now }
    requires placed { IsPlacedAs field.kind shape.now.data_bytes (spot_in field) }
    requires word { WORD ≡ true → IsWord field }
    ensures count { result ≡ kept_count (is_kept range.from range.to shape.now field content.old) count }
    ensures front { take (result * record_size shape.now) content.new
        ≡ kept_bytes (is_kept range.from range.to shape.now field content.old) (record_at shape.now content.old) count }
    ensures len { length content.new ≡ length content.old }
{
    let size = shape.record_size() as usize;
    let mut kept = 0;
    for i in 0..count {
        kept = keep_record::<WORD>(shape, content, size, field, range, i, kept);
    }
    kept
}

/// The same, with a loop of its own for numbers that are eight whole bytes.
fn keep_all(shape: &Shape, content: &mut [u8], count: u64, field: FieldRow, range: Range) -> u64
    requires long { length content.old ≡ count * record_size shape.now }
    requires placed { IsPlacedAs field.kind shape.now.data_bytes (spot_in field) }
    ensures count { result ≡ kept_count (is_kept range.from range.to shape.now field content.old) count }
    ensures front { take (result * record_size shape.now) content.new
        ≡ kept_bytes (is_kept range.from range.to shape.now field content.old) (record_at shape.now content.old) count }
    ensures len { length content.new ≡ length content.old }
{
    if is_word(field) {
        return keep_records::<true>(shape, content, count, field, range);
    }
    keep_records::<false>(shape, content, count, field, range)
}

/// Records that are kept.
#[derive(Drop)]
pub(crate) struct Kept {
    pub count: u64,
    /// Their bytes, one record behind the other.
    pub content: Bytes,
}

/// Of so many records those in which the number of a field lies in the range, in the memory of all. It takes no memory.
pub(crate) fn kept_in(
    shape: &Shape,
    content: Bytes,
    count: u64,
    field: FieldRow,
    range: Range,
) -> Kept
    requires long { length content ≡ count * record_size shape.now }
    requires placed { IsPlacedAs field.kind shape.now.data_bytes (spot_in field) }
    ensures count { result.count ≡ kept_count (is_kept range.from range.to shape.now field content) count }
    ensures content { result.content ≡ kept_bytes (is_kept range.from range.to shape.now field content) (record_at shape.now content) count }
{
    let mut bytes = content.into_vec();
    let _long = bytes.len();
    let kept = keep_all(shape, bytes.as_mut_slice(), count, field, range);
    bytes.truncate(kept as usize * shape.record_size() as usize);
    Kept {
        count: kept,
        content: Bytes::from_vec(bytes),
    }
}
