use crate::span::span_over;
use mdf_head::{ident, read_head, read_head_in};
use mdf_num::{Span, Stop};
use std::alloc::Global;
use std::test::Fail;
use test_rig::{
    Piece, Stopped, Told, all_are_told, both_shown, file_of, shown, stops_are_told, three_shown,
};

// The body of a header, and that of an entry of the history.
const HEADER: [u8; 32] = [
    1, 2, 3, 4, 5, 6, 7, 8, 60, 0, 0xC4, 0xFF, 1, 16, 3, 0, 9, 0, 0, 0, 0, 0, 0, 0, 0, 0, 0, 0, 0,
    0, 0, 128,
];

const ENTRY: [u8; 16] = [42, 0, 0, 0, 0, 0, 0, 0, 0xFF, 0x7F, 0x00, 0x80, 2, 0, 0, 0];

// A header with a comment, and two entries of the history, the first with a comment.
const HD: Piece = (64, b"##HD", &[352, 168, 0, 0, 0, 280], &HEADER);

const FIRST: Piece = (168, b"##FH", &[224, 320], &ENTRY);

const LAST: Piece = (224, b"##FH", &[0, 0], &ENTRY);

const MD: Piece = (280, b"##MD", &[], b"<HDcomment/>\0\0\0\0");

const TX: Piece = (320, b"##TX", &[], b"changed\0");

const WHOLE: &[Piece] = &[HD, FIRST, LAST, MD, TX];

// The blocks of a file, the bytes that texts may have, and what is told: the answer, and the bytes that are left.
const TOLD: &[(Headed, &str)] = &[
    (
        Headed(WHOLE, 100),
        "Ok((Head { start: 578437695752307201, zone: 60, daylight: -60, time_flags: 1, time_class: 16, flags: 3, angle: 9, distance: 9223372036854775808, comment: Xml(Bytes { items: [60, 72, 68, 99, 111, 109, 109, 101, 110, 116, 47, 62] }), first_dg: 352 }, Rows { items: [History { at: 168, time: 42, zone: 32767, daylight: -32768, flags: 2, comment: Plain(Bytes { items: [99, 104, 97, 110, 103, 101, 100] }) }, History { at: 224, time: 42, zone: 32767, daylight: -32768, flags: 2, comment: Nothing }] })) 81",
    ),
    (
        Headed(&[(64, b"##HD", &[352, 0, 0, 0, 0, 0], &HEADER)], 0),
        "Ok((Head { start: 578437695752307201, zone: 60, daylight: -60, time_flags: 1, time_class: 16, flags: 3, angle: 9, distance: 9223372036854775808, comment: Nothing, first_dg: 352 }, Rows { items: [] })) 0",
    ),
    (Headed(&[], 100), "Err(Bad { at: 64, want: Hd }) 100"),
    (
        Headed(
            &[
                (64, b"##HD", &[352, 168, 0, 0, 0, 224], &HEADER),
                FIRST,
                LAST,
                TX,
            ],
            100,
        ),
        "Err(Bad { at: 224, want: Tx }) 100",
    ),
    (Headed(WHOLE, 11), "Err(TooMany { what: Text, at: 280 }) 11"),
    (
        Headed(&[HD, (168, b"##FH", &[224, 64], &ENTRY), LAST, MD], 100),
        "Err(Bad { at: 64, want: Tx }) 100",
    ),
    (Headed(WHOLE, 18), "Err(TooMany { what: Text, at: 320 }) 18"),
    (
        Headed(&[HD, FIRST, (224, b"##FH", &[280, 0], &ENTRY), MD, TX], 100),
        "Err(Bad { at: 280, want: Fh }) 100",
    ),
    (
        Headed(&[HD, FIRST, (224, b"##FH", &[224, 0], &ENTRY), MD, TX], 100),
        "Err(TooMany { what: Fh, at: 224 }) 100",
    ),
];

/// The blocks of a file, and the bytes that texts may have.
struct Headed(&'static [Piece], u64);

impl Told for Headed {
    fn told(&self, alloc: Global) -> Result<String, Fail> {
        let file = file_of(alloc, 352, self.0)?;
        let mut left = self.1;
        let answer = read_head(alloc, file.as_slice(), &mut left);
        both_shown(alloc, &answer, &left)
    }
}

#[test]
fn headers_are_told(rt: HostRuntime) -> Result<(), Fail> {
    all_are_told(&rt, TOLD)
}

/// The reader of the head and its history.
struct HeadReader;

// What is answered, what may still come, and how many faults the span then counts.
impl Stopped for HeadReader {
    fn told(&self, alloc: Global, calls: u64, stop: Stop) -> Result<String, Fail> {
        let file = file_of(alloc, 352, WHOLE)?;
        let mut span = span_over(file.as_slice(), calls, stop);
        let mut left = 100;
        let answer = read_head_in(alloc, &mut span, &mut left);
        three_shown(alloc, &answer, &left, &span.faults())
    }
}

#[test]
fn a_span_that_stops_stops_the_reader(rt: HostRuntime) -> Result<(), Fail> {
    stops_are_told(
        &rt,
        &HeadReader,
        20,
        "Err(Failed) 100 1",
        "Err(Memory) 100 0",
    )
}

// The first 64 bytes of a file.
fn first(name: &[u8; 8], ver: u16) -> [u8; 64] {
    let mut bytes = [0; 64];
    bytes[..8].copy_from_slice(name);
    bytes[28..30].copy_from_slice(&ver.to_le_bytes());
    bytes[60] = 33;
    bytes[62] = 1;
    bytes
}

// The name and the version of an identification, how many of its bytes there are, and what is told.
const IDENTIFIED: &[(Named, &str)] = &[
    (
        Named(b"MDF     ", 410, 64),
        "Ok(Ident { finalized: true, ver: 410, std_flags: 33, custom_flags: 1 })",
    ),
    (
        Named(b"UnFinMF ", 419, 64),
        "Ok(Ident { finalized: false, ver: 419, std_flags: 33, custom_flags: 1 })",
    ),
    (
        Named(b"MDF     ", 400, 64),
        "Ok(Ident { finalized: true, ver: 400, std_flags: 33, custom_flags: 1 })",
    ),
    (Named(b"MDF     ", 399, 64), "Err(Version { ver: 399 })"),
    (Named(b"UnFinMF ", 420, 64), "Err(Version { ver: 420 })"),
    (Named(b"MDF     ", 0, 64), "Err(Version { ver: 0 })"),
    (Named(b"MDF     ", 65535, 64), "Err(Version { ver: 65535 })"),
    (Named(b"MDF4    ", 410, 64), "Err(NotMdf)"),
    (Named(b"UnFinMF\0", 410, 64), "Err(NotMdf)"),
    (Named(b"MDF     ", 410, 63), "Err(NotMdf)"),
    (Named(b"MDF     ", 410, 0), "Err(NotMdf)"),
];

/// The name and the version in a file, and how many of its first 64 bytes there are.
struct Named(&'static [u8; 8], u16, usize);

impl Told for Named {
    fn told(&self, alloc: Global) -> Result<String, Fail> {
        let bytes = first(self.0, self.1);
        shown(alloc, &ident(&bytes[..bytes.len().min(self.2)]))
    }
}

#[test]
fn identifications_are_told(rt: HostRuntime) -> Result<(), Fail> {
    all_are_told(&rt, IDENTIFIED)
}
