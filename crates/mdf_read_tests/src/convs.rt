use crate::span::span_over;
use mdf_conv::{Budget, read_conv, read_conv_in, read_source, read_source_in};
use mdf_num::{Span, Stop};
use std::alloc::Global;
use std::test::Fail;
use test_rig::{
    Piece, Stopped, Told, all_are_told, both_shown, file_of, is_told, put, put_number,
    stops_are_told, three_shown,
};

// The body of a conversion without numbers, and one with two.
const PLAIN: [u8; 24] = [
    7, 3, 0x02, 0x81, 0, 0, 0, 0, 1, 0, 0, 0, 0, 0, 0, 0x80, 9, 0, 0, 0, 0, 0, 0, 0,
];

const LINEAR: [u8; 40] = [
    1, 255, 0, 0, 0, 0, 2, 0, 0, 0, 0, 0, 0, 0, 0, 0, 0, 0, 0, 0, 0, 0, 0, 0, 5, 0, 0, 0, 0, 0, 0,
    0, 0, 0, 0, 0, 0, 0, 0xF0, 0x3F,
];

// The body of a conversion of texts without numbers.
const KIND_5: [u8; 24] = [
    5, 0, 0, 0, 0, 0, 0, 0, 0, 0, 0, 0, 0, 0, 0, 0, 0, 0, 0, 0, 0, 0, 0, 0,
];

// How many bytes a file has, and its blocks.
type Blocks = (usize, &'static [Piece]);

// What may be read of a file: so many bytes of texts, and so many conversions.
const TEXT: u64 = 67_108_864;

const CONVERSIONS: u64 = 1_048_576;

// A conversion with a unit, an inverse and three references: a text, nothing and a conversion of two numbers.
const OUTER: Blocks = (
    328,
    &[
        (64, b"##CC", &[0, 264, 0, 168, 296, 0, 168], &PLAIN),
        (168, b"##CC", &[264, 0, 0, 0], &LINEAR),
        (264, b"##TX", &[], b"km/h\0\0\0\0"),
        (296, b"##MD", &[], b"<p/>"),
    ],
);

// Five conversions, each but the last referring to the next one.
const NESTED: Blocks = (
    504,
    &[
        (64, b"##CC", &[0, 0, 0, 0, 152], &KIND_5),
        (152, b"##CC", &[0, 0, 0, 0, 240], &KIND_5),
        (240, b"##CC", &[0, 0, 0, 0, 328], &KIND_5),
        (328, b"##CC", &[0, 0, 0, 0, 416], &KIND_5),
        (416, b"##CC", &[0, 0, 0, 0, 0], &KIND_5),
    ],
);

// The same, where the last one refers to itself.
const ITSELF: Blocks = (
    504,
    &[
        (64, b"##CC", &[0, 0, 0, 0, 152], &KIND_5),
        (152, b"##CC", &[0, 0, 0, 0, 240], &KIND_5),
        (240, b"##CC", &[0, 0, 0, 0, 328], &KIND_5),
        (328, b"##CC", &[0, 0, 0, 0, 416], &KIND_5),
        (416, b"##CC", &[0, 0, 0, 0, 416], &KIND_5),
    ],
);

// A conversion with a name, and a reference to a text.
const TEXTS: Blocks = (
    224,
    &[
        (64, b"##CC", &[152, 0, 0, 0, 184], &[0; 24]),
        (152, b"##TX", &[], b"speed\0\0\0"),
        (184, b"##MD", &[], b"<p>fast</p>\0\0\0\0\0"),
    ],
);

// A conversion whose unit is itself.
const NO_UNIT: Blocks = (152, &[(64, b"##CC", &[0, 64, 0, 0, 0], &[0; 24])]);

// A conversion that refers to no block.
const NO_TEXT: Blocks = (152, &[(64, b"##CC", &[0, 0, 0, 0, 72], &[0; 24])]);

// A conversion that refers to one that is cut short.
const CUT: Blocks = (
    240,
    &[
        (64, b"##CC", &[0, 0, 0, 0, 152], &[0; 24]),
        (152, b"##CC", &[0, 0, 0, 0, 0], &[0; 25]),
    ],
);

// A source with a name and a path.
const SOURCE: Blocks = (
    152,
    &[
        (64, b"##SI", &[120, 120, 0], &[2, 3, 1, 0, 0, 0, 0, 0]),
        (120, b"##TX", &[], b"engine\0\0"),
    ],
);

// The same, whose comment is itself.
const NO_COMMENT: Blocks = (
    152,
    &[
        (64, b"##SI", &[120, 120, 64], &[2, 3, 1, 0, 0, 0, 0, 0]),
        (120, b"##TX", &[], b"engine\0\0"),
    ],
);

/// One of these files.
enum File {
    Outer,
    Nested,
    Itself,
    Texts,
    NoUnit,
    NoText,
    Cut,
    Source,
    NoComment,
}

fn blocks_of(file: &File) -> Blocks {
    match file {
        File::Outer => OUTER,
        File::Nested => NESTED,
        File::Itself => ITSELF,
        File::Texts => TEXTS,
        File::NoUnit => NO_UNIT,
        File::NoText => NO_TEXT,
        File::Cut => CUT,
        File::Source => SOURCE,
        File::NoComment => NO_COMMENT,
    }
}

/// The bytes of a file.
fn bytes_of(alloc: Global, file: &File) -> Result<Vec<u8>, Fail> {
    let (size, pieces) = blocks_of(file);
    file_of(alloc, size, pieces)
}

// A file, the address of a conversion, how many bytes of texts and how many conversions may come, and what is answered
// with what may still come.
const CONVS: &[(Converted, &str)] = &[
    (
        Converted(File::Outer, 64, TEXT, CONVERSIONS),
        "Ok(Conversion { kind: 7, precision: 3, flags: 33026, low: 9223372036854775809, high: 9, numbers: Rows { items: [] }, refs: Rows { items: [Words(Xml(Bytes { items: [60, 112, 47, 62] })), Nothing, Conv(Boxed { inner: Conversion { kind: 1, precision: 255, flags: 0, low: 0, high: 0, numbers: Rows { items: [5, 4607182418800017408] }, refs: Rows { items: [] }, name: Plain(Bytes { items: [107, 109, 47, 104] }), unit: Nothing, comment: Nothing } })] }, name: Nothing, unit: Plain(Bytes { items: [107, 109, 47, 104] }), comment: Nothing }) Budget { text: 67108852, conversions: 1048574, conversion_bytes: 134217528, dropped: 1 }",
    ),
    (
        Converted(File::Nested, 152, TEXT, CONVERSIONS),
        "Ok(Conversion { kind: 5, precision: 0, flags: 0, low: 0, high: 0, numbers: Rows { items: [] }, refs: Rows { items: [Conv(Boxed { inner: Conversion { kind: 5, precision: 0, flags: 0, low: 0, high: 0, numbers: Rows { items: [] }, refs: Rows { items: [Conv(Boxed { inner: Conversion { kind: 5, precision: 0, flags: 0, low: 0, high: 0, numbers: Rows { items: [] }, refs: Rows { items: [Conv(Boxed { inner: Conversion { kind: 5, precision: 0, flags: 0, low: 0, high: 0, numbers: Rows { items: [] }, refs: Rows { items: [Nothing] }, name: Nothing, unit: Nothing, comment: Nothing } })] }, name: Nothing, unit: Nothing, comment: Nothing } })] }, name: Nothing, unit: Nothing, comment: Nothing } })] }, name: Nothing, unit: Nothing, comment: Nothing }) Budget { text: 67108864, conversions: 1048572, conversion_bytes: 134217376, dropped: 0 }",
    ),
    (
        Converted(File::Nested, 64, TEXT, CONVERSIONS),
        "Err(Deep { at: 416 }) Budget { text: 67108864, conversions: 1048576, conversion_bytes: 134217728, dropped: 0 }",
    ),
    (
        Converted(File::Nested, 64, TEXT, 4),
        "Err(Deep { at: 416 }) Budget { text: 67108864, conversions: 4, conversion_bytes: 134217728, dropped: 0 }",
    ),
    (
        Converted(File::Nested, 64, TEXT, 3),
        "Err(TooMany { what: Cc, at: 328 }) Budget { text: 67108864, conversions: 3, conversion_bytes: 134217728, dropped: 0 }",
    ),
    (
        Converted(File::Itself, 416, TEXT, 9),
        "Err(Deep { at: 416 }) Budget { text: 67108864, conversions: 9, conversion_bytes: 134217728, dropped: 0 }",
    ),
    (
        Converted(File::Texts, 64, 16, 1),
        "Ok(Conversion { kind: 0, precision: 0, flags: 0, low: 0, high: 0, numbers: Rows { items: [] }, refs: Rows { items: [Words(Xml(Bytes { items: [60, 112, 62, 102, 97, 115, 116, 60, 47, 112, 62] }))] }, name: Plain(Bytes { items: [115, 112, 101, 101, 100] }), unit: Nothing, comment: Nothing }) Budget { text: 0, conversions: 0, conversion_bytes: 134217640, dropped: 0 }",
    ),
    (
        Converted(File::Texts, 64, 15, 1),
        "Err(TooMany { what: Text, at: 184 }) Budget { text: 15, conversions: 1, conversion_bytes: 134217728, dropped: 0 }",
    ),
    (
        Converted(File::Texts, 64, 4, 1),
        "Err(TooMany { what: Text, at: 152 }) Budget { text: 4, conversions: 1, conversion_bytes: 134217728, dropped: 0 }",
    ),
    (
        Converted(File::NoUnit, 64, TEXT, CONVERSIONS),
        "Err(Bad { at: 64, want: Tx }) Budget { text: 67108864, conversions: 1048576, conversion_bytes: 134217728, dropped: 0 }",
    ),
    (
        Converted(File::NoText, 64, TEXT, CONVERSIONS),
        "Err(Bad { at: 72, want: Tx }) Budget { text: 67108864, conversions: 1048576, conversion_bytes: 134217728, dropped: 0 }",
    ),
    (
        Converted(File::Cut, 64, TEXT, CONVERSIONS),
        "Err(Bad { at: 152, want: Cc }) Budget { text: 67108864, conversions: 1048576, conversion_bytes: 134217728, dropped: 0 }",
    ),
    (
        Converted(File::Cut, 152, TEXT, CONVERSIONS),
        "Err(Bad { at: 152, want: Cc }) Budget { text: 67108864, conversions: 1048576, conversion_bytes: 134217728, dropped: 0 }",
    ),
    (
        Converted(File::Texts, 152, TEXT, CONVERSIONS),
        "Err(Bad { at: 152, want: Cc }) Budget { text: 67108864, conversions: 1048576, conversion_bytes: 134217728, dropped: 0 }",
    ),
];

/// What may be read: so many bytes of texts, and so many conversions.
fn budget_of(text: u64, conversions: u64) -> Budget {
    Budget {
        text,
        conversions,
        ..Budget::of_file()
    }
}

/// A file, the address of a conversion, and how many bytes of texts and how many conversions may come.
struct Converted(File, u64, u64, u64);

impl Told for Converted {
    fn told(&self, alloc: Global) -> Result<String, Fail> {
        let bytes = bytes_of(alloc, &self.0)?;
        let mut budget = budget_of(self.2, self.3);
        let answer = read_conv(alloc, bytes.as_slice(), self.1, &mut budget);
        both_shown(alloc, &answer, &budget)
    }
}

#[test]
fn conversions_are_told(rt: HostRuntime) -> Result<(), Fail> {
    all_are_told(&rt, CONVS)
}

/// How many bytes of conversions may come. The blocks of the conversion and of the one that it refers to have 104 and 96
/// bytes.
struct Roomed(u64);

impl Told for Roomed {
    fn told(&self, alloc: Global) -> Result<String, Fail> {
        let bytes = bytes_of(alloc, &File::Outer)?;
        let mut budget = Budget {
            conversion_bytes: self.0,
            ..Budget::of_file()
        };
        let fault = read_conv(alloc, bytes.as_slice(), 64, &mut budget).err();
        both_shown(alloc, &fault, &budget.conversion_bytes)
    }
}

const ROOMED: &[(Roomed, &str)] = &[
    (Roomed(0), "Some(Memory) 0"),
    (Roomed(103), "Some(Memory) 103"),
    (Roomed(199), "Some(Memory) 199"),
    (Roomed(200), "None 0"),
];

#[test]
fn conversions_of_more_bytes_than_may_come_want_memory(rt: HostRuntime) -> Result<(), Fail> {
    all_are_told(&rt, ROOMED)
}

// The same of a source.
const SOURCES: &[(Sourced, &str)] = &[
    (
        Sourced(File::Source, 64, TEXT, CONVERSIONS),
        "Ok(SourceInfo { kind: 2, bus: 3, flags: 1, name: Plain(Bytes { items: [101, 110, 103, 105, 110, 101] }), path: Plain(Bytes { items: [101, 110, 103, 105, 110, 101] }), comment: Nothing }) Budget { text: 67108852, conversions: 1048576, conversion_bytes: 134217728, dropped: 0 }",
    ),
    (
        Sourced(File::Source, 64, 11, 0),
        "Err(TooMany { what: Text, at: 120 }) Budget { text: 11, conversions: 0, conversion_bytes: 134217728, dropped: 0 }",
    ),
    (
        Sourced(File::Source, 64, 5, 0),
        "Err(TooMany { what: Text, at: 120 }) Budget { text: 5, conversions: 0, conversion_bytes: 134217728, dropped: 0 }",
    ),
    (
        Sourced(File::NoComment, 64, 12, 0),
        "Err(Bad { at: 64, want: Tx }) Budget { text: 12, conversions: 0, conversion_bytes: 134217728, dropped: 0 }",
    ),
    (
        Sourced(File::Source, 120, TEXT, CONVERSIONS),
        "Err(Bad { at: 120, want: Si }) Budget { text: 67108864, conversions: 1048576, conversion_bytes: 134217728, dropped: 0 }",
    ),
];

/// A file, the address of a source, and how many bytes of texts and how many conversions may come.
struct Sourced(File, u64, u64, u64);

impl Told for Sourced {
    fn told(&self, alloc: Global) -> Result<String, Fail> {
        let bytes = bytes_of(alloc, &self.0)?;
        let mut budget = budget_of(self.2, self.3);
        let answer = read_source(alloc, bytes.as_slice(), self.1, &mut budget);
        both_shown(alloc, &answer, &budget)
    }
}

#[test]
fn sources_are_told(rt: HostRuntime) -> Result<(), Fail> {
    all_are_told(&rt, SOURCES)
}

// A conversion of 88 bytes, of which the header says that it has so many links.
fn claiming(links: u64) -> [u8; 152] {
    let mut bytes = [0; 152];
    bytes[64..68].copy_from_slice(b"##CC");
    bytes[72] = 88;
    bytes[80..88].copy_from_slice(&links.to_le_bytes());
    bytes
}

/// How many links the conversion claims, and the address of a source.
struct Hostile(u64, u64);

impl Told for Hostile {
    fn told(&self, alloc: Global) -> Result<String, Fail> {
        let bytes = claiming(self.0);
        let conv = read_conv(alloc, &bytes, 64, &mut Budget::of_file()).err();
        let source = read_source(alloc, &bytes, self.1, &mut Budget::of_file()).err();
        both_shown(alloc, &conv, &source)
    }
}

// Why there is no conversion, and no source.
const HOSTILE: &[(Hostile, &str)] = &[
    (Hostile(5, 0), "None Some(Bad { at: 0, want: Si })"),
    (
        Hostile(u64::MAX, u64::MAX),
        "Some(Bad { at: 64, want: Cc }) Some(Bad { at: 18446744073709551615, want: Si })",
    ),
    (
        Hostile(1 << 61, u64::MAX - 7),
        "Some(Bad { at: 64, want: Cc }) Some(Bad { at: 18446744073709551608, want: Si })",
    ),
    (
        Hostile((1 << 61) - 1, 1 << 63),
        "Some(Bad { at: 64, want: Cc }) Some(Bad { at: 9223372036854775808, want: Si })",
    ),
    (
        Hostile(6, 152),
        "Some(Bad { at: 64, want: Cc }) Some(Bad { at: 152, want: Si })",
    ),
    (
        Hostile(3, 64),
        "Some(Bad { at: 64, want: Cc }) Some(Bad { at: 64, want: Si })",
    ),
];

#[test]
fn hostile_numbers_are_refused(rt: HostRuntime) -> Result<(), Fail> {
    all_are_told(&rt, HOSTILE)
}

// A conversion at 64 with so many links, all of them 0.
fn unlinked(alloc: Global, links: u32) -> Result<Vec<u8>, Fail> {
    let links = links as usize;
    let mut file = vec![in alloc; 0u8; 112 + 8 * links]?;
    put(file.as_mut_slice(), 64, b"##CC");
    put_number(file.as_mut_slice(), 72, 48 + 8 * links as u64);
    put_number(file.as_mut_slice(), 80, links as u64);
    Ok(file)
}

// How many references there are, the last one, and how many conversions may still come.
fn unlinked_told(alloc: Global, links: u32) -> Result<String, Fail> {
    let bytes = unlinked(alloc, links)?;
    let mut budget = Budget::of_file();
    let answer = read_conv(alloc, bytes.as_slice(), 64, &mut budget);
    let refs = match &answer {
        Ok(conv) => conv.refs.as_slice(),
        Err(_) => &[],
    };
    three_shown(alloc, &refs.len(), &refs.last(), &budget.conversions)
}

#[test]
fn a_million_empty_references_are_read(rt: HostRuntime) -> Result<(), Fail> {
    is_told(
        unlinked_told(rt.alloc(), 1_000_004),
        "1000000 Some(Nothing) 1048575",
    )
}

/// The reader of a conversion.
struct ConvReader;

// Why nothing is answered, whether all may still come, and how many faults the span counts.
impl Stopped for ConvReader {
    fn told(&self, alloc: Global, calls: u64, stop: Stop) -> Result<String, Fail> {
        let bytes = bytes_of(alloc, &File::Outer)?;
        let mut budget = Budget::of_file();
        let mut span = span_over(bytes.as_slice(), calls, stop);
        let fault = read_conv_in(alloc, &mut span, 64, &mut budget).err();
        let left = (budget == Budget::of_file(), span.faults());
        both_shown(alloc, &fault, &left)
    }
}

/// The reader of a source.
struct SourceReader;

impl Stopped for SourceReader {
    fn told(&self, alloc: Global, calls: u64, stop: Stop) -> Result<String, Fail> {
        let bytes = bytes_of(alloc, &File::Source)?;
        let mut budget = Budget::of_file();
        let mut span = span_over(bytes.as_slice(), calls, stop);
        let fault = read_source_in(alloc, &mut span, 64, &mut budget).err();
        let left = (budget == Budget::of_file(), span.faults());
        both_shown(alloc, &fault, &left)
    }
}

const FAILED: &str = "Some(Failed) (true, 1)";

const MEMORY: &str = "Some(Memory) (true, 0)";

#[test]
fn a_span_that_stops_stops_the_readers(rt: HostRuntime) -> Result<(), Fail> {
    stops_are_told(&rt, &ConvReader, 30, FAILED, MEMORY)?;
    stops_are_told(&rt, &SourceReader, 16, FAILED, MEMORY)
}
