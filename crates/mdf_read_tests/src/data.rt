ghost use Rattle.std.specs.Prelude.{◌≡◌, ◌≤◌, length, IfOk};
ghost use Rattle.mdf_stream.specs.Parts.{stream_size, ArePartsInside};

use crate::span::span_over;
use mdf_block::Kind;
use mdf_data::{
    DataView, Known, Places, Size, Splitter, places_alone, places_in, view_data, view_data_in,
};
use mdf_num::{Memory, Rows, SliceSpan, Span, Stop};
use std::alloc::Global;
use std::test::Fail;
use test_rig::{
    Piece, Stopped, Told, all_are_told, both_shown, file_of, is_told, put_number, set_link, shown,
    stops_are_told, three_shown,
};

const EIGHT: Known = Known {
    id: 1,
    size: Size::Fixed(8),
};

const TWO: Known = Known {
    id: 2,
    size: Size::Fixed(2),
};

const VALUES: Known = Known {
    id: 3,
    size: Size::Variable,
};

// The blocks of a file, a link to data of a kind, and what is told of its view, or the fault.
const VIEWS: &[(Viewed, &str)] = &[
    (
        Viewed(&[], 0, Kind::Dt),
        "Ok(DataView { items: [], end: 0 })",
    ),
    (
        Viewed(&[(64, b"##DT", &[], b"abcd")], 64, Kind::Dt),
        "Ok(DataView { items: [Stretch { part: Part { at: 88, len: 4 }, end: 4 }], end: 4 })",
    ),
    (
        Viewed(&[(64, b"##DT", &[], b"abcd")], 64, Kind::Sd),
        "Err(Bad { at: 64, want: Sd })",
    ),
    (
        Viewed(
            &[
                (64, b"##DL", &[0, 112, 152], b""),
                (112, b"##DT", &[], b"\x01aaaaaaaa\x01bbb"),
                (152, b"##DT", &[], b"bbbbb"),
            ],
            64,
            Kind::Dt,
        ),
        "Ok(DataView { items: [Stretch { part: Part { at: 136, len: 13 }, end: 13 }, Stretch { part: Part { at: 176, len: 5 }, end: 18 }], end: 18 })",
    ),
    (
        Viewed(
            &[
                (64, b"##DL", &[200, 112], b""),
                (112, b"##SD", &[], b"first"),
                (160, b"##SD", &[], b"third"),
                (200, b"##DL", &[0, 248, 160], b""),
                (248, b"##SD", &[], b""),
            ],
            64,
            Kind::Sd,
        ),
        "Ok(DataView { items: [Stretch { part: Part { at: 136, len: 5 }, end: 5 }, Stretch { part: Part { at: 272, len: 0 }, end: 5 }, Stretch { part: Part { at: 184, len: 5 }, end: 10 }], end: 10 })",
    ),
    (
        Viewed(&[(64, b"##DL", &[0, 0], b"")], 64, Kind::Dt),
        "Err(Bad { at: 0, want: Dt })",
    ),
    (
        Viewed(
            &[(64, b"##DL", &[112, 112], b""), (112, b"##DT", &[], b"")],
            64,
            Kind::Dt,
        ),
        "Err(Bad { at: 112, want: Dl })",
    ),
    (
        Viewed(&[(64, b"##DZ", &[], b"")], 64, Kind::Dt),
        "Err(Compressed { at: 64 })",
    ),
    (
        Viewed(
            &[(64, b"##DL", &[0, 112], b""), (112, b"##HL", &[0], b"")],
            64,
            Kind::Dt,
        ),
        "Err(Compressed { at: 112 })",
    ),
];

// DLBLOCKs that name one another without end: as many are read as may be.
const LOOPS: &[(Viewed, &str)] = &[
    (
        Viewed(&[(64, b"##DL", &[64], b"")], 64, Kind::Dt),
        "Err(TooMany { at: 64 })",
    ),
    (
        Viewed(
            &[(64, b"##DL", &[104], b""), (104, b"##DL", &[64], b"")],
            64,
            Kind::Dt,
        ),
        "Err(TooMany { at: 64 })",
    ),
];

/// The blocks of a file, and a link to data of a kind.
struct Viewed(&'static [Piece], u64, Kind);

impl Told for Viewed {
    fn told(&self, alloc: Global) -> Result<String, Fail> {
        let file = file_of(alloc, 352, self.0)?;
        let answer = view_data(alloc, file.as_slice(), self.1, self.2);
        shown(alloc, &answer)
    }
}

#[test]
fn links_to_data_are_told(rt: HostRuntime) -> Result<(), Fail> {
    all_are_told(&rt, VIEWS)
}

#[test]
fn loops_of_lists_are_too_many(rt: HostRuntime) -> Result<(), Fail> {
    all_are_told(&rt, LOOPS)
}

// How many bytes an id has, the groups, the body of a block of data, and the places of the records, or the fault.
const RECORDS: &[(Split, &str)] = &[
    (Split(1, &[], b""), "Ok(Rows { items: [] })"),
    (
        Split(1, &[EIGHT, TWO], b"\x01aaaaaaaa\x02bb\x01cccccccc"),
        "Ok(Rows { items: [Places { even: 0, step: 0, listed: Listed { short: [1, 13], long: Rows { items: [] } } }, Places { even: 0, step: 0, listed: Listed { short: [10], long: Rows { items: [] } } }] })",
    ),
    (
        Split(1, &[EIGHT, TWO], b"\x02aa\x07"),
        "Err(Fault(UnknownId { id: 7, at: 3 }))",
    ),
    (
        Split(1, &[EIGHT], b"\x01aaaaaaaa\x01bbb"),
        "Err(Fault(Cut { at: 9 }))",
    ),
    (Split(2, &[EIGHT], b"\x01"), "Err(Fault(Cut { at: 0 }))"),
    (
        Split(1, &[VALUES], b"\x03\x02\0\0\0xy\x03\0\0\0\0"),
        "Ok(Rows { items: [Places { even: 0, step: 0, listed: Listed { short: [1, 8], long: Rows { items: [] } } }] })",
    ),
    (
        Split(1, &[VALUES], b"\x03\xff\xff\xff\xffx"),
        "Err(Fault(Cut { at: 0 }))",
    ),
    (
        Split(
            2,
            &[Known {
                id: 0x0201,
                size: Size::Fixed(1),
            }],
            b"\x01\x02a\x01\x02b",
        ),
        "Ok(Rows { items: [Places { even: 0, step: 0, listed: Listed { short: [2, 5], long: Rows { items: [] } } }] })",
    ),
    (
        Split(
            4,
            &[Known {
                id: 0x0102_0304,
                size: Size::Fixed(u64::MAX),
            }],
            b"\x04\x03\x02\x01a",
        ),
        "Err(Fault(Cut { at: 0 }))",
    ),
    (
        Split(
            8,
            &[Known {
                id: u64::MAX,
                size: Size::Fixed(0),
            }],
            b"\xff\xff\xff\xff\xff\xff\xff\xff",
        ),
        "Ok(Rows { items: [Places { even: 0, step: 0, listed: Listed { short: [8], long: Rows { items: [] } } }] })",
    ),
    (
        Split(1, &[TWO, TWO], b"\x02ab"),
        "Ok(Rows { items: [Places { even: 0, step: 0, listed: Listed { short: [1], long: Rows { items: [] } } }, Places { even: 0, step: 0, listed: Listed { short: [], long: Rows { items: [] } } }] })",
    ),
];

/// How many bytes an id has, the groups, and the body of a block of data.
struct Split(u8, &'static [Known], &'static [u8]);

// The places of its records, where those of these groups are counted alone.
fn counted_told(alloc: Global, split: &Split, counted: &[bool]) -> Result<String, Fail> {
    let Split(id_size, known, body) = *split;
    if body.len() > 1000 || known.len() > 1000 || !matches!(id_size, 1 | 2 | 4 | 8) {
        return Err(Fail::new(Memory));
    }
    let mut view = DataView::empty(alloc);
    view.add(0, body.len() as u64)?;
    let mut span = SliceSpan::new(body);
    let answer = places_in(alloc, &mut span, &view, id_size, known, counted);
    shown(alloc, &answer)
}

impl Told for Split {
    fn told(&self, alloc: Global) -> Result<String, Fail> {
        counted_told(alloc, self, &[])
    }
}

#[test]
fn records_are_told(rt: HostRuntime) -> Result<(), Fail> {
    all_are_told(&rt, RECORDS)
}

// Which groups are counted alone, and what is told of the places of three records, of which the second is of the first group.
const COUNTED: &[(Counted, &str)] = &[
    (
        Counted(&[true, false], THREE),
        "Ok(Rows { items: [Places { even: 1, step: 0, listed: Listed { short: [], long: Rows { items: [] } } }, Places { even: 0, step: 0, listed: Listed { short: [1, 13], long: Rows { items: [] } } }] })",
    ),
    (
        Counted(&[false, true], THREE),
        "Ok(Rows { items: [Places { even: 0, step: 0, listed: Listed { short: [4], long: Rows { items: [] } } }, Places { even: 2, step: 0, listed: Listed { short: [], long: Rows { items: [] } } }] })",
    ),
    (
        Counted(&[true], THREE),
        "Ok(Rows { items: [Places { even: 1, step: 0, listed: Listed { short: [], long: Rows { items: [] } } }, Places { even: 0, step: 0, listed: Listed { short: [1, 13], long: Rows { items: [] } } }] })",
    ),
];

const THREE: Split = Split(1, &[EIGHT, TWO], b"\x02aa\x01bbbbbbbb\x02cc");

/// Which groups are counted alone, and the records.
struct Counted(&'static [bool], Split);

impl Told for Counted {
    fn told(&self, alloc: Global) -> Result<String, Fail> {
        counted_told(alloc, &self.1, self.0)
    }
}

#[test]
fn records_are_counted_alone(rt: HostRuntime) -> Result<(), Fail> {
    all_are_told(&rt, COUNTED)
}

// A DLBLOCK that names one block.
const ONE_PART: &[Piece] = &[(64, b"##DL", &[0, 104], b""), (104, b"##DT", &[], b"abcd")];

/// The reader of its view.
struct ViewReader;

impl Stopped for ViewReader {
    fn told(&self, alloc: Global, calls: u64, stop: Stop) -> Result<String, Fail> {
        let file = file_of(alloc, 160, ONE_PART)?;
        let mut span = span_over(file.as_slice(), calls, stop);
        let answer = view_data_in(alloc, &mut span, 64, Kind::Dt);
        shown(alloc, &answer)
    }
}

#[test]
fn a_span_that_stops_stops_the_reader(rt: HostRuntime) -> Result<(), Fail> {
    stops_are_told(&rt, &ViewReader, 8, "Err(Failed)", "Err(Memory)")?;
    is_told(
        ViewReader.told(rt.alloc(), 100, Stop::Failed),
        "Ok(DataView { items: [Stretch { part: Part { at: 128, len: 4 }, end: 4 }], end: 4 })",
    )
}

// A place in a DLBLOCK, and a number there that no file can keep: how many links it has, or how many bytes.
const NUMBERS: &[(Changed, &str)] = &[
    (Changed(80, u64::MAX), "Err(Bad { at: 64, want: Dl })"),
    (Changed(80, 1 << 63), "Err(Bad { at: 64, want: Dl })"),
    (Changed(80, (1 << 61) + 1), "Err(Bad { at: 64, want: Dl })"),
    (Changed(80, 1 << 61), "Err(Bad { at: 64, want: Dl })"),
    (Changed(80, (1 << 61) - 1), "Err(Bad { at: 64, want: Dl })"),
    (Changed(72, u64::MAX), "Err(Bad { at: 64, want: Dl })"),
    (Changed(72, 0), "Err(Bad { at: 64, want: Dl })"),
];

/// The file of one part, but this number at this place.
struct Changed(usize, u64);

impl Told for Changed {
    fn told(&self, alloc: Global) -> Result<String, Fail> {
        let mut file = file_of(alloc, 160, ONE_PART)?;
        put_number(file.as_mut_slice(), self.0, self.1);
        let answer = view_data(alloc, file.as_slice(), 64, Kind::Dt);
        shown(alloc, &answer)
    }
}

#[test]
fn a_list_with_a_huge_number_is_bad(rt: HostRuntime) -> Result<(), Fail> {
    all_are_told(&rt, NUMBERS)
}

// Three parts of 13, 0 and 5 bytes.
const PARTS: &[Piece] = &[
    (64, b"##DL", &[0, 120, 160, 184], b""),
    (120, b"##DT", &[], b"\x01aaaaaaaa\x01bcd"),
    (160, b"##DT", &[], b""),
    (184, b"##DT", &[], b"efghi"),
];

// A place of their stream, how many bytes are read there, and these.
const READS: &[(Bytewise, &str)] = &[
    (
        Bytewise(0, 18),
        "[1, 97, 97, 97, 97, 97, 97, 97, 97, 1, 98, 99, 100, 101, 102, 103, 104, 105]",
    ),
    (Bytewise(9, 9), "[1, 98, 99, 100, 101, 102, 103, 104, 105]"),
    (Bytewise(10, 3), "[98, 99, 100]"),
    (Bytewise(12, 2), "[100, 101]"),
    (Bytewise(13, 1), "[101]"),
    (Bytewise(17, 1), "[105]"),
    (Bytewise(13, 0), "[]"),
    (Bytewise(18, 0), "[]"),
    (Bytewise(17, 2), "not there"),
];

fn bytes_told(
    alloc: Global,
    bytes: &[u8],
    view: &DataView,
    at: u64,
    len: usize,
) -> Result<String, Fail>
    requires inside { ArePartsInside (length bytes.now) view.now }
{
    if at > 100 || len > 100 || at + len as u64 > view.len() {
        return Ok(format!(in alloc; "not there")?);
    }
    let mut buf = vec![in alloc; 0u8; len]?;
    view.read(bytes, at, buf.as_mut_slice());
    shown(alloc, &buf)
}

/// A place of their stream, and how many bytes are read there.
struct Bytewise(u64, usize);

impl Told for Bytewise {
    fn told(&self, alloc: Global) -> Result<String, Fail> {
        let file = file_of(alloc, 216, PARTS)?;
        match view_data(alloc, file.as_slice(), 64, Kind::Dt) {
            Ok(view) => bytes_told(alloc, file.as_slice(), &view, self.0, self.1),
            Err(_) => Err(Fail::new(Memory)),
        }
    }
}

#[test]
fn bytes_are_read_across_parts(rt: HostRuntime) -> Result<(), Fail> {
    all_are_told(&rt, READS)
}

/// Two parts that are added, the second before the first in the file, and the number in the 4 bytes from a place on.
struct Added(u64);

impl Told for Added {
    fn told(&self, alloc: Global) -> Result<String, Fail> {
        if self.0 > 1 {
            return Err(Fail::new(Memory));
        }
        let mut view = DataView::empty(alloc);
        view.add(4, 3)?;
        view.add(0, 2)?;
        let bytes = [4, 5, 9, 9, 1, 2, 3, 9];
        let number = view.u32_near(&mut SliceSpan::new(&bytes), self.0, &mut 0);
        both_shown(alloc, &number, &view)
    }
}

const ADDED: &[(Added, &str)] = &[
    (
        Added(0),
        "Ok(67305985) DataView { items: [Stretch { part: Part { at: 4, len: 3 }, end: 3 }, Stretch { part: Part { at: 0, len: 2 }, end: 5 }], end: 5 }",
    ),
    (
        Added(1),
        "Ok(84148994) DataView { items: [Stretch { part: Part { at: 4, len: 3 }, end: 3 }, Stretch { part: Part { at: 0, len: 2 }, end: 5 }], end: 5 }",
    ),
];

#[test]
fn parts_that_are_added_are_read(rt: HostRuntime) -> Result<(), Fail> {
    all_are_told(&rt, ADDED)
}

// A block of one byte at 64, and at 96 a DLBLOCK that names it so many times.
fn crowded_file(alloc: Global, count: usize) -> Result<Vec<u8>, Fail> {
    if count > 1 << 20 {
        return Err(Fail::new(Memory));
    }
    let mut file = file_of(
        alloc,
        128 + 8 * count,
        &[(64, b"##DT", &[], b"x"), (96, b"##DL", &[], b"")],
    )?;
    put_number(file.as_mut_slice(), 104, 32 + 8 * count as u64);
    put_number(file.as_mut_slice(), 112, 1 + count as u64);
    for k in 0..count {
        set_link(file.as_mut_slice(), 96, 1 + k, 64);
    }
    Ok(file)
}

/// So many parts.
struct Crowd(usize);

impl Told for Crowd {
    fn told(&self, alloc: Global) -> Result<String, Fail> {
        let file = crowded_file(alloc, self.0)?;
        let size = match view_data(alloc, file.as_slice(), 96, Kind::Dt) {
            Ok(view) => Ok(view.len()),
            Err(fault) => Err(fault),
        };
        shown(alloc, &size)
    }
}

const CROWDS: &[(Crowd, &str)] = &[
    (Crowd(1_048_575), "Ok(1048575)"),
    (Crowd(1_048_576), "Err(TooMany { at: 64 })"),
];

#[test]
fn a_million_parts_of_one_byte_are_a_stream(rt: HostRuntime) -> Result<(), Fail> {
    all_are_told(&rt, CROWDS)
}

// How many bytes an id has, the groups, the bodies of two blocks of data, and what is told of the splitter's first three
// answers.
const SPLITS: &[(Answered, &str)] = &[
    (Answered(1, &[], b"", b""), "Ok(None) Ok(None) Ok(None)"),
    (
        Answered(1, &[EIGHT], b"\x01aaaaaaaa\x01bcd", b"efghi"),
        "Ok(Some(Piece { which: 0, at: 0, len: 9 })) Ok(Some(Piece { which: 0, at: 9, len: 9 })) Ok(None)",
    ),
    (
        Answered(
            2,
            &[Known {
                id: 0x0201,
                size: Size::Fixed(7),
            }],
            b"\x01\x02aaaaaaa\x01\x02bc",
            b"defgh",
        ),
        "Ok(Some(Piece { which: 0, at: 0, len: 9 })) Ok(Some(Piece { which: 0, at: 9, len: 9 })) Ok(None)",
    ),
    (
        Answered(
            4,
            &[Known {
                id: 0x0102_0304,
                size: Size::Fixed(5),
            }],
            b"\x04\x03\x02\x01aaaaa\x04\x03\x02\x01",
            b"bcdef",
        ),
        "Ok(Some(Piece { which: 0, at: 0, len: 9 })) Ok(Some(Piece { which: 0, at: 9, len: 9 })) Ok(None)",
    ),
    (
        Answered(
            8,
            &[Known {
                id: u64::MAX,
                size: Size::Fixed(1),
            }],
            b"\xff\xff\xff\xff\xff\xff\xff\xffa\xff\xff\xff\xff",
            b"\xff\xff\xff\xffb",
        ),
        "Ok(Some(Piece { which: 0, at: 0, len: 9 })) Ok(Some(Piece { which: 0, at: 9, len: 9 })) Ok(None)",
    ),
    (
        Answered(
            1,
            &[
                TWO,
                Known {
                    id: 2,
                    size: Size::Fixed(8),
                },
            ],
            b"\x02ab\x02c",
            b"d",
        ),
        "Ok(Some(Piece { which: 0, at: 0, len: 3 })) Ok(Some(Piece { which: 0, at: 3, len: 3 })) Ok(None)",
    ),
    (
        Answered(1, &[EIGHT, VALUES], b"\x03\x02\0\0\0xy\x03\x01", b"\0\0\0z"),
        "Ok(Some(Piece { which: 1, at: 0, len: 7 })) Ok(Some(Piece { which: 1, at: 7, len: 6 })) Ok(None)",
    ),
    (
        Answered(1, &[VALUES], b"\x03\0\0\0\x01x", b""),
        "Err(Cut { at: 0 }) Err(Cut { at: 0 }) Err(Cut { at: 0 })",
    ),
    (
        Answered(1, &[VALUES], b"\x03\0\0", b"\0"),
        "Err(Cut { at: 0 }) Err(Cut { at: 0 }) Err(Cut { at: 0 })",
    ),
    (
        Answered(1, &[EIGHT, TWO], b"\x02aa", b"\x07"),
        "Ok(Some(Piece { which: 1, at: 0, len: 3 })) Err(UnknownId { id: 7, at: 3 }) Err(UnknownId { id: 7, at: 3 })",
    ),
    (
        Answered(1, &[EIGHT], b"\x01aaaaaaaa\x01bc", b"defgh"),
        "Ok(Some(Piece { which: 0, at: 0, len: 9 })) Err(Cut { at: 9 }) Err(Cut { at: 9 })",
    ),
    (
        Answered(8, &[], b"\x01\0\0\0", b"\0\0\0"),
        "Err(Cut { at: 0 }) Err(Cut { at: 0 }) Err(Cut { at: 0 })",
    ),
    (
        Answered(4, &[], b"\x01\0", b"\0\0"),
        "Err(UnknownId { id: 1, at: 0 }) Err(UnknownId { id: 1, at: 0 }) Err(UnknownId { id: 1, at: 0 })",
    ),
    (
        Answered(
            1,
            &[Known {
                id: 1,
                size: Size::Fixed(0),
            }],
            b"\x01",
            b"\x01",
        ),
        "Ok(Some(Piece { which: 0, at: 0, len: 1 })) Ok(Some(Piece { which: 0, at: 1, len: 1 })) Ok(None)",
    ),
    (
        Answered(
            1,
            &[Known {
                id: 1,
                size: Size::Fixed(u64::MAX),
            }],
            b"\x01",
            b"a",
        ),
        "Err(Cut { at: 0 }) Err(Cut { at: 0 }) Err(Cut { at: 0 })",
    ),
];

fn splitter_of(alloc: Global, id_size: u8, known: &[Known]) -> Result<Splitter, Fail>
    ensures { IfOk result (λ splitter. splitter.place ≡ 0) }
{
    if known.len() > 1000 || !matches!(id_size, 1 | 2 | 4 | 8) {
        return Err(Fail::new(Memory));
    }
    Ok(Splitter::new(id_size, Rows::from_vec(known.to_vec(alloc)?)))
}

fn answers_told(
    alloc: Global,
    bytes: &[u8],
    view: &DataView,
    splitter: &mut Splitter,
) -> Result<String, Fail>
    requires inside { ArePartsInside (length bytes.now) view.now }
    requires within { splitter.old.place ≤ stream_size view.now }
{
    let first = splitter.next(bytes, view);
    let second = splitter.next(bytes, view);
    let third = splitter.next(bytes, view);
    three_shown(alloc, &first, &second, &third)
}

/// How many bytes an id has, the groups, and the bodies of two blocks of data.
struct Answered(u8, &'static [Known], &'static [u8], &'static [u8]);

// The file of these two blocks.
fn two_blocks(alloc: Global, first: &'static [u8], second: &'static [u8]) -> Result<Vec<u8>, Fail> {
    file_of(
        alloc,
        256,
        &[
            (64, b"##DL", &[0, 112, 176], b""),
            (112, b"##DT", &[], first),
            (176, b"##DT", &[], second),
        ],
    )
}

// The first three answers about the file of two blocks.
fn split_told(alloc: Global, file: &[u8], id_size: u8, known: &[Known]) -> Result<String, Fail> {
    let mut splitter = splitter_of(alloc, id_size, known)?;
    match view_data(alloc, file, 64, Kind::Dt) {
        Ok(view) => answers_told(alloc, file, &view, &mut splitter),
        Err(_) => Err(Fail::new(Memory)),
    }
}

impl Told for Answered {
    fn told(&self, alloc: Global) -> Result<String, Fail> {
        let file = two_blocks(alloc, self.2, self.3)?;
        split_told(alloc, file.as_slice(), self.0, self.1)
    }
}

#[test]
fn the_splitter_is_told(rt: HostRuntime) -> Result<(), Fail> {
    all_are_told(&rt, SPLITS)
}

/// The reader of the places of two records of 3 and 9 bytes, of which the ids alone are read.
struct PlaceReader;

impl Stopped for PlaceReader {
    fn told(&self, alloc: Global, calls: u64, stop: Stop) -> Result<String, Fail> {
        let mut span = span_over(b"\x02aa\x01bbbbbbbb", calls, stop);
        let len = span.len();
        if len > 1000 {
            return Err(Fail::new(Memory));
        }
        let mut view = DataView::empty(alloc);
        view.add(0, len)?;
        let answer = places_in(alloc, &mut span, &view, 1, &[EIGHT, TWO], &[]);
        shown(alloc, &answer)
    }
}

#[test]
fn a_span_that_stops_stops_the_places(rt: HostRuntime) -> Result<(), Fail> {
    stops_are_told(&rt, &PlaceReader, 2, "Err(Failed)", "Err(Memory)")?;
    is_told(
        PlaceReader.told(rt.alloc(), 2, Stop::Failed),
        "Ok(Rows { items: [Places { even: 0, step: 0, listed: Listed { short: [4], long: Rows { items: [] } } }, Places { even: 0, step: 0, listed: Listed { short: [1], long: Rows { items: [] } } }] })",
    )
}

// How many bytes a stream without ids has, the size of its records, how many empty ones it has, and what is told of
// their places with one more, 77, at the end: these, their number, the first two and the one past the end.
const ALONE: &[(Alone, &str)] = &[
    (
        Alone(20, Size::Fixed(9), 0),
        "Places { even: 2, step: 9, listed: Listed { short: [77], long: Rows { items: [] } } } (3, Some(0), Some(9), None)",
    ),
    (
        Alone(8, Size::Fixed(9), 0),
        "Places { even: 0, step: 9, listed: Listed { short: [77], long: Rows { items: [] } } } (1, Some(77), None, None)",
    ),
    (
        Alone(9, Size::Fixed(9), 5),
        "Places { even: 1, step: 9, listed: Listed { short: [77], long: Rows { items: [] } } } (2, Some(0), Some(77), None)",
    ),
    (
        Alone(5, Size::Fixed(0), 7),
        "Places { even: 7, step: 0, listed: Listed { short: [77], long: Rows { items: [] } } } (8, Some(0), Some(0), None)",
    ),
    (
        Alone(5, Size::Variable, 7),
        "Places { even: 0, step: 0, listed: Listed { short: [77], long: Rows { items: [] } } } (1, Some(77), None, None)",
    ),
];

/// How many bytes a stream without ids has, the size of its records, and how many empty ones it has.
struct Alone(u64, Size, u64);

// The places, with one more at the end.
fn alone_and_one(alloc: Global, row: &Alone) -> Result<Places, Fail> {
    if row.0 > 1000 || row.2 > 1000 {
        return Err(Fail::new(Memory));
    }
    let mut places = places_alone(alloc, row.0, row.1, row.2);
    places.push(77)?;
    Ok(places)
}

fn places_told(alloc: Global, places: &Places) -> Result<String, Fail> {
    let count = places.len();
    let found = (count, places.get(0), places.get(1), places.get(count));
    both_shown(alloc, places, &found)
}

impl Told for Alone {
    fn told(&self, alloc: Global) -> Result<String, Fail> {
        let places = alone_and_one(alloc, self)?;
        places_told(alloc, &places)
    }
}

#[test]
fn places_without_ids_are_told(rt: HostRuntime) -> Result<(), Fail> {
    all_are_told(&rt, ALONE)
}

// Places around the last one that takes 4 bytes; one that is smaller follows one that is not.
const FAR: &[u64] = &[4_294_967_295, 4_294_967_296, 5];

fn far(alloc: Global) -> Result<Places, Fail> {
    let mut places = Places::empty(alloc);
    for place in FAR {
        places.push(*place)?;
    }
    Ok(places)
}

// The step of places.
fn step_of(places: Places) -> Option<u64> {
    places.step()
}

// How many they are, each and the one past the end, and the steps of these and of places without ids.
fn far_line(alloc: Global, places: &Places) -> Result<String, Fail> {
    let found = (places.get(0), places.get(1), places.get(2), places.get(3));
    let steps = (
        places.step(),
        step_of(Places::empty(alloc)),
        step_of(places_alone(alloc, 20, Size::Fixed(9), 0)),
    );
    three_shown(alloc, &places.len(), &found, &steps)
}

fn far_told(alloc: Global) -> Result<String, Fail> {
    let places = far(alloc)?;
    far_line(alloc, &places)
}

#[test]
fn places_past_four_bytes_are_kept(rt: HostRuntime) -> Result<(), Fail> {
    is_told(
        far_told(rt.alloc()),
        "3 (Some(4294967295), Some(4294967296), Some(5), None) (None, Some(0), Some(9))",
    )
}
