use crate::span::span_over;
use mdf_block::{Draft, Kind, block_at, kind_at, note_at, note_in};
use mdf_num::{Bytes, Memory, Span, Stop};
use std::alloc::Global;
use std::test::Fail;
use test_rig::{
    Piece, Stopped, Told, all_are_told, both_shown, file_of, is_told, put, put_number, shown,
    stops_are_told, three_shown,
};

// A file that ends behind a block at 64: its name, the size and the number of links that it says, and how many bytes
// follow its header. All of these are 0 but one, whose place and value stand here.
type Said = (&'static [u8; 4], u64, u64, usize, (usize, u8));

// What is said, where a block is looked for, and what is told.
const BLOCKS: &[(Looked, &str)] = &[
    (
        Looked((b"##TX", 32, 0, 8, (0, 65)), 64, Kind::Tx),
        "Ok(BlockAt { at: 64, kind: Tx, links: 0, body_at: 88, body_len: 8 })",
    ),
    (
        Looked((b"##TX", 32, 0, 7, (0, 65)), 64, Kind::Tx),
        "Err(Bad { at: 64, want: Tx })",
    ),
    (
        Looked((b"##TX", 32, 0, 8, (0, 65)), 64, Kind::Md),
        "Err(Bad { at: 64, want: Md })",
    ),
    (
        Looked((b"##TX", 32, 0, 8, (0, 65)), 96, Kind::Tx),
        "Err(Bad { at: 96, want: Tx })",
    ),
    (
        Looked((b"##FH", 39, 2, 40, (0, 0)), 64, Kind::Fh),
        "Err(Bad { at: 64, want: Fh })",
    ),
    (
        Looked((b"##FH", 55, 2, 40, (0, 0)), 64, Kind::Fh),
        "Err(Bad { at: 64, want: Fh })",
    ),
    (
        Looked((b"##FH", 56, 2, 40, (0, 0)), 64, Kind::Fh),
        "Ok(BlockAt { at: 64, kind: Fh, links: 2, body_at: 104, body_len: 16 })",
    ),
    (
        Looked((b"##FH", 56, 1, 40, (0, 0)), 64, Kind::Fh),
        "Err(Bad { at: 64, want: Fh })",
    ),
    (
        Looked((b"##HD", 112, 7, 88, (0, 0)), 64, Kind::Hd),
        "Ok(BlockAt { at: 64, kind: Hd, links: 7, body_at: 144, body_len: 32 })",
    ),
    (
        Looked((b"##HD", 104, 5, 88, (0, 0)), 64, Kind::Hd),
        "Err(Bad { at: 64, want: Hd })",
    ),
    (
        Looked((b"##CC", 96, 4, 72, (38, 2)), 64, Kind::Cc),
        "Ok(BlockAt { at: 64, kind: Cc, links: 4, body_at: 120, body_len: 40 })",
    ),
    (
        Looked((b"##CC", 95, 4, 72, (38, 2)), 64, Kind::Cc),
        "Err(Bad { at: 64, want: Cc })",
    ),
    (
        Looked((b"##CC", 96, 4, 72, (39, 255)), 64, Kind::Cc),
        "Err(Bad { at: 64, want: Cc })",
    ),
];

// What is said where data is wanted, and sums that must not wrap.
const DATA: &[(Looked, &str)] = &[
    (
        Looked((b"##DZ", 1, u64::MAX, 0, (0, 0)), 64, Kind::Dt),
        "Err(Compressed { at: 64 })",
    ),
    (
        Looked((b"##HL", 1, u64::MAX, 0, (0, 0)), 64, Kind::Sd),
        "Err(Compressed { at: 64 })",
    ),
    (
        Looked((b"##DZ", 1, u64::MAX, 0, (0, 0)), 64, Kind::Dl),
        "Err(Compressed { at: 64 })",
    ),
    (
        Looked((b"##HL", 1, u64::MAX, 0, (0, 0)), 64, Kind::Tx),
        "Err(Bad { at: 64, want: Tx })",
    ),
    (
        Looked((b"##DT", 24, u64::MAX, 40, (0, 0)), 64, Kind::Dt),
        "Err(Bad { at: 64, want: Dt })",
    ),
    (
        Looked((b"##DT", 24, 1 << 61, 40, (0, 0)), 64, Kind::Dt),
        "Err(Bad { at: 64, want: Dt })",
    ),
    (
        Looked((b"##DT", 24, (1 << 61) - 3, 40, (0, 0)), 64, Kind::Dt),
        "Err(Bad { at: 64, want: Dt })",
    ),
    (
        Looked((b"##DT", u64::MAX, 0, 40, (0, 0)), 64, Kind::Dt),
        "Err(Bad { at: 64, want: Dt })",
    ),
    (
        Looked((b"##DT", u64::MAX - 63, 0, 40, (0, 0)), 64, Kind::Dt),
        "Err(Bad { at: 64, want: Dt })",
    ),
    (
        Looked((b"##DT", 23, 0, 40, (0, 0)), 64, Kind::Dt),
        "Err(Bad { at: 64, want: Dt })",
    ),
    (
        Looked((b"##DT", 24, 0, 0, (0, 0)), 88, Kind::Dt),
        "Err(Bad { at: 88, want: Dt })",
    ),
    (
        Looked((b"##DT", 24, 0, 0, (0, 0)), u64::MAX - 7, Kind::Dt),
        "Err(Bad { at: 18446744073709551608, want: Dt })",
    ),
    (
        Looked((b"##DT", 24, 0, 0, (0, 0)), u64::MAX, Kind::Dt),
        "Err(Bad { at: 18446744073709551615, want: Dt })",
    ),
];

/// What is said of a block, where it is looked for, and the kind that is wanted.
struct Looked(Said, u64, Kind);

// A file that says so: 64 bytes of nothing, the header of a block, and what follows it.
fn said(alloc: Global, block: &Said) -> Result<Vec<u8>, Fail> {
    let (name, size, links, count, (place, value)) = *block;
    if count > 1000 || place > 1000 {
        return Err(Fail::new(Memory));
    }
    let mut file = vec![in alloc; 0u8; 88 + count]?;
    put(file.as_mut_slice(), 64, name);
    put_number(file.as_mut_slice(), 72, size);
    put_number(file.as_mut_slice(), 80, links);
    put(file.as_mut_slice(), 88 + place, &[value]);
    Ok(file)
}

impl Told for Looked {
    fn told(&self, alloc: Global) -> Result<String, Fail> {
        let file = said(alloc, &self.0)?;
        shown(alloc, &block_at(file.as_slice(), self.1, self.2))
    }
}

#[test]
fn blocks_are_told(rt: HostRuntime) -> Result<(), Fail> {
    all_are_told(&rt, BLOCKS)
}

#[test]
fn data_is_told(rt: HostRuntime) -> Result<(), Fail> {
    all_are_told(&rt, DATA)
}

#[test]
fn a_block_stands_on_a_multiple_of_8(rt: HostRuntime) -> Result<(), Fail> {
    let mut bytes = [0u8; 28];
    put(&mut bytes, 4, b"##DT");
    bytes[12] = 24;
    assert!(rt; kind_at(&bytes, 4) == Some(Kind::Dt));
    is_told(
        shown(rt.alloc(), &block_at(&bytes, 4, Kind::Dt)),
        "Err(Bad { at: 4, want: Dt })",
    )
}

#[test]
fn every_kind_has_its_name(rt: HostRuntime) -> Result<(), Fail> {
    let names = b"##HD##FH##DG##CG##CN##CC##SI##TX##MD##DT##DL##SD##AT##";
    for (at, kind) in [
        (0u64, Some(Kind::Hd)),
        (28, Some(Kind::Tx)),
        (48, Some(Kind::At)),
        (1, None),
        (52, None),
        (1 << 63, None),
    ] {
        assert_eq!(rt; kind_at(names, at), kind);
    }
    Ok(())
}

// A text with a zero byte in it, and one that is longer than what is read in one go.
const TX: Piece = (64, b"##TX", &[], b"ab\0cd\0\0\0");

const MD: Piece = (64, b"##MD", &[], &[65; 66]);

// A block, the address of a text, the bytes that texts may have, and what is told: the answer, and the bytes left.
const NOTES: &[(Noted, &str)] = &[
    (Noted(TX, 64, 2), "Ok(Plain(Bytes { items: [97, 98] })) 0"),
    (Noted(TX, 64, 1), "Err(TooMany { at: 64 }) 1"),
    (Noted(TX, 72, 1000), "Err(Bad { at: 72 }) 1000"),
    (Noted(TX, 0, 1000), "Ok(Nothing) 1000"),
    (
        Noted(MD, 64, 1000),
        "Ok(Xml(Bytes { items: [65, 65, 65, 65, 65, 65, 65, 65, 65, 65, 65, 65, 65, 65, 65, 65, 65, 65, 65, 65, 65, 65, 65, 65, 65, 65, 65, 65, 65, 65, 65, 65, 65, 65, 65, 65, 65, 65, 65, 65, 65, 65, 65, 65, 65, 65, 65, 65, 65, 65, 65, 65, 65, 65, 65, 65, 65, 65, 65, 65, 65, 65, 65, 65, 65, 65] })) 934",
    ),
];

/// A file of one block, the address of a text, and the bytes that texts may have.
struct Noted(Piece, u64, u64);

impl Told for Noted {
    fn told(&self, alloc: Global) -> Result<String, Fail> {
        let file = file_of(alloc, 160, &[self.0])?;
        let mut left = self.2;
        let answer = note_at(alloc, file.as_slice(), self.1, &mut left);
        both_shown(alloc, &answer, &left)
    }
}

#[test]
fn texts_are_told(rt: HostRuntime) -> Result<(), Fail> {
    all_are_told(&rt, NOTES)
}

/// The reader of a text.
struct TextReader;

impl Stopped for TextReader {
    fn told(&self, alloc: Global, calls: u64, stop: Stop) -> Result<String, Fail> {
        let file = file_of(alloc, 96, &[TX])?;
        let mut span = span_over(file.as_slice(), calls, stop);
        let mut left = 10;
        let answer = note_in(alloc, &mut span, 64, &mut left);
        three_shown(alloc, &answer, &left, &span.faults())
    }
}

#[test]
fn a_span_that_stops_stops_the_reader(rt: HostRuntime) -> Result<(), Fail> {
    stops_are_told(&rt, &TextReader, 6, "Err(Failed) 10 1", "Err(Memory) 10 0")?;
    is_told(
        TextReader.told(rt.alloc(), 6, Stop::Failed),
        "Ok(Plain(Bytes { items: [97, 98] })) 8 0",
    )
}

// What a draft of these two blocks is.
const DRAFTED: &[Piece] = &[
    (64, b"##TX", &[], b"hello"),
    (96, b"##FH", &[152, 64], &[7; 16]),
];

// A text, and an entry of the history that names the end of the draft and the text.
fn drafted(alloc: Global) -> Result<Bytes, Fail> {
    let text = Bytes::from_slice(alloc, b"hello")?;
    let entry = Bytes::from_slice(alloc, &[7; 16])?;
    let mut draft = Draft::new(alloc);
    let first = draft.place(Kind::Tx, 0, text)?;
    let second = draft.place(Kind::Fh, 2, entry)?;
    draft.link(second, 1, first);
    draft.link_end(second, 0);
    Ok(draft.bytes(&[0; 64])?)
}

#[test]
fn a_draft_reads_back(rt: HostRuntime) -> Result<(), Fail> {
    let want = file_of(rt.alloc(), 152, DRAFTED)?;
    let bytes = drafted(rt.alloc())?;
    assert!(rt; bytes.as_slice() == want.as_slice());
    Ok(())
}
