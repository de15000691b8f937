// Layouts and records of all kinds of channels.
ghost use Rattle.std.specs.Prelude.{◌<◌, ◌^◌, length, All, IfOk};
ghost use Rattle.mdf_layout.specs.Values.{IsRowPlaced};

use mdf_layout::{Entry, FieldKind, FieldRow, are_apart, decode, first_bad};
use mdf_num::{Bytes, Memory, Rows};
use mdf_vlsd::ValueStream;
use std::alloc::Global;
use std::test::Fail;
use test_rig::{Told, all_are_told};

/// A channel: its kind, whether it is big-endian, its first byte, its first bit in that byte, the number of its bits, and
/// the position of its invalidation bit.
type Channel = (FieldKind, bool, u32, u8, u32, Option<u32>);

fn row_of(channel: &Channel) -> FieldRow {
    let (kind, big, byte, bit, bits, inval) = *channel;
    FieldRow {
        kind,
        big,
        byte,
        bit,
        bits,
        inval,
        all_invalid: false,
    }
}

/// The fields of the channels, at most nine.
fn rows_of(alloc: Global, channels: &[Channel]) -> Result<Rows<FieldRow>, Memory>
    ensures few { IfOk result (λ rows. length rows < 2 ^ 32) }
{
    let mut rows = Rows::empty(alloc);
    for channel in channels {
        if rows.len() < 9 {
            rows.push(row_of(channel))?;
        }
    }
    Ok(rows)
}

const U: FieldKind = FieldKind::Unsigned;

const S: FieldKind = FieldKind::Signed;

const F: FieldKind = FieldKind::Fixed;

const V: FieldKind = FieldKind::Variable;

const X: FieldKind = FieldKind::Virtual;

/// Channels, and the numbers of data bytes and of invalidation bytes.
struct Layout(&'static [Channel], u32, u32);

impl Told for Layout {
    fn told(&self, alloc: Global) -> Result<String, Fail> {
        let rows = rows_of(alloc, self.0)?;
        let bad = first_bad(rows.as_slice(), self.1, self.2);
        let told = (bad, are_apart(rows.as_slice()));
        Ok(format!(in alloc; "{told:?}")?)
    }
}

// Of each layout the least channel that breaks a rule, and whether the channels lie apart.
const LAYOUTS: &[(Layout, &str)] = &[
    (Layout(&[(U, false, 0, 3, 7, None)], 2, 0), "(None, true)"),
    (
        Layout(&[(U, false, 0, 3, 7, None)], 1, 0),
        "(Some(0), true)",
    ),
    (Layout(&[(S, true, 0, 7, 64, None)], 9, 0), "(None, true)"),
    (
        Layout(&[(S, true, 0, 7, 64, None)], 8, 0),
        "(Some(0), true)",
    ),
    (
        Layout(&[(U, false, 0, 8, 1, None)], 9, 0),
        "(Some(0), true)",
    ),
    (
        Layout(&[(U, false, 0, 0, 0, None)], 9, 0),
        "(Some(0), true)",
    ),
    (
        Layout(&[(U, false, 0, 0, 65, None)], 9, 0),
        "(Some(0), true)",
    ),
    (
        Layout(&[(F, false, 0, 0, 12, None)], 2, 0),
        "(Some(0), true)",
    ),
    (
        Layout(&[(F, false, 0, 1, 8, None)], 2, 0),
        "(Some(0), true)",
    ),
    (Layout(&[(F, false, 2, 0, 0, None)], 2, 0), "(None, true)"),
    (Layout(&[(X, false, 9, 9, 99, None)], 0, 0), "(None, true)"),
    (
        Layout(&[(U, false, 0, 0, 1, Some(8))], 1, 1),
        "(Some(0), true)",
    ),
    (
        Layout(
            &[(U, false, 0, 0, 1, Some(7)), (U, false, 0, 1, 1, Some(7))],
            1,
            1,
        ),
        "(None, false)",
    ),
    (
        Layout(&[(U, false, 0, 0, 8, None), (U, true, 0, 7, 1, None)], 1, 0),
        "(None, false)",
    ),
    (
        Layout(
            &[(V, false, 0, 0, 64, None), (U, false, 7, 0, 8, None)],
            8,
            0,
        ),
        "(Some(0), false)",
    ),
    (
        Layout(
            &[(U, false, 7, 0, 8, None), (V, false, 0, 0, 64, None)],
            8,
            0,
        ),
        "(Some(1), false)",
    ),
    (
        Layout(
            &[(F, false, 0, 0, 24, None), (F, false, 2, 0, 8, None)],
            3,
            0,
        ),
        "(None, false)",
    ),
    (
        Layout(
            &[(F, false, 0, 0, 24, None), (F, false, 3, 0, 8, None)],
            4,
            0,
        ),
        "(None, true)",
    ),
    (
        Layout(
            &[(U, false, 0, 0, 64, None), (U, false, 8, 0, 64, None)],
            15,
            0,
        ),
        "(Some(1), true)",
    ),
    (
        Layout(&[(U, false, u32::MAX, 0, 64, None)], u32::MAX, 0),
        "(Some(0), true)",
    ),
];

#[test]
fn layouts_and_their_least_bad_channel(rt: HostRuntime) -> Result<(), Fail> {
    all_are_told(&rt, LAYOUTS)
}

/// Channels, the data bytes and the invalidation bytes of a record, and the stream of the first channel of variable length.
struct Record(
    &'static [Channel],
    &'static [u8],
    &'static [u8],
    &'static [u8],
);

// The values empty, `ab` and `c`, at the offsets 0, 4 and 10.
const STREAM: &[u8] = b"\0\0\0\0\x02\0\0\0ab\x01\0\0\0c";

// Of each record its sample, where it has the index 7.
const RECORDS: &[(Record, &str)] = &[
    (
        Record(
            &[(U, false, 0, 3, 7, None), (U, true, 0, 3, 7, None)],
            b"\xB4\x5A",
            b"",
            b"",
        ),
        "Unsigned(86) Unsigned(11)",
    ),
    (
        Record(&[(S, false, 0, 0, 5, None)], b"\x10", b"", b""),
        "Signed(-16)",
    ),
    (
        Record(
            &[(U, false, 0, 0, 8, Some(9)), (U, false, 0, 0, 8, Some(8))],
            b"\x07",
            b"\x00\x02",
            b"",
        ),
        "Unsigned(7)? Unsigned(7)",
    ),
    (
        Record(
            &[(U, false, 0, 0, 3, None), (U, false, 0, 3, 7, None)],
            b"\xB5\x02",
            b"",
            b"",
        ),
        "Unsigned(5) Unsigned(86)",
    ),
    (
        Record(&[(V, false, 0, 0, 8, None)], b"\x00", b"", STREAM),
        "Bytes(Bytes { items: [] })",
    ),
    (
        Record(&[(V, false, 0, 0, 8, None)], b"\x04", b"", STREAM),
        "Bytes(Bytes { items: [97, 98] })",
    ),
    (
        Record(&[(V, false, 0, 0, 8, None)], b"\x0A", b"", STREAM),
        "Bytes(Bytes { items: [99] })",
    ),
    (
        Record(&[(V, false, 0, 0, 8, None)], b"\x05", b"", STREAM),
        "offset 5 of channel 0 meets no value",
    ),
    (
        Record(
            &[(V, false, 0, 0, 8, None), (V, false, 1, 0, 8, None)],
            b"\x00\x00",
            b"",
            STREAM,
        ),
        "offset 0 of channel 1 meets no value",
    ),
    (
        Record(
            &[(F, false, 1, 0, 16, None), (X, false, 0, 0, 0, None)],
            b"\x01\x02\x03",
            b"",
            b"",
        ),
        "Bytes(Bytes { items: [2, 3] }) Index(7)",
    ),
];

/// The values of a sample, those that are invalid with a `?`.
fn text_of(alloc: Global, entries: &[Entry]) -> Result<String, Fail> {
    let mut text = String::new(alloc);
    for entry in entries {
        let space = if text.is_empty() { "" } else { " " };
        let mark = if entry.valid { "" } else { "?" };
        write!(text, "{space}{:?}{mark}", entry.value)?;
    }
    Ok(text)
}

/// The sample of a record of channels that keep the rules, or why there is none.
fn sample_told(
    alloc: Global,
    rows: &[FieldRow],
    content: &[u8],
    inval: &[u8],
    stream: ValueStream,
) -> Result<String, Fail>
    requires placed { All (IsRowPlaced (length content.now) (length inval.now)) rows.now }
    requires few { length rows.now < 2 ^ 32 }
{
    match decode(alloc, rows, content, inval, &[stream], 7) {
        Ok(entries) => text_of(alloc, entries.as_slice()),
        Err(fault) => Ok(format!(in alloc; "{fault}")?),
    }
}

/// The sample of a record of fewer than 99 bytes, or why there is none.
fn told_of(alloc: Global, record: &Record, rows: &[FieldRow]) -> Result<String, Fail>
    requires few { length rows.now < 2 ^ 32 }
{
    let Record(_, content, inval, stream) = *record;
    let is_short = content.len() <= 99 && inval.len() <= 99;
    if !is_short || first_bad(rows, content.len() as u32, inval.len() as u32).is_some() {
        return Ok(format!(in alloc; "none")?);
    }
    let stream = ValueStream::from_bytes(Bytes::from_slice(alloc, stream)?);
    sample_told(alloc, rows, content, inval, stream)
}

impl Told for Record {
    fn told(&self, alloc: Global) -> Result<String, Fail> {
        let rows = rows_of(alloc, self.0)?;
        told_of(alloc, self, rows.as_slice())
    }
}

#[test]
fn records_and_their_samples(rt: HostRuntime) -> Result<(), Fail> {
    all_are_told(&rt, RECORDS)
}
