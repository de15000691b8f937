use crate::span::span_over;
use mdf_conv::Budget;
use mdf_group::{read_groups, read_groups_in};
use mdf_num::{Span, Stop};
use std::alloc::Global;
use std::test::Fail;
use test_rig::{
    Piece, Stopped, Told, all_are_told, both_shown, file_of, put_number, put_numbers, shown,
    stops_are_told,
};

// How many bytes a file has, and its blocks.
type Blocks = (usize, &'static [Piece]);

// The bodies of a channel group, of a group of values, and of two channels.
const GROUP: [u8; 32] = [
    9, 0, 0, 0, 0, 0, 0, 0, 8, 0, 0, 0, 0, 0, 0, 1, 0, 0, 46, 0, 0, 0, 0, 0, 52, 51, 50, 49, 6, 0,
    0, 0,
];

const VALUES: [u8; 32] = [
    10, 0, 0, 0, 0, 0, 0, 0, 0, 0, 0, 0, 0, 0, 0, 0, 3, 0, 0, 0, 0, 0, 0, 0, 0, 0, 0, 0, 0, 0, 0, 0,
];

const CHANNEL: [u8; 72] = [
    2, 1, 4, 3, 4, 3, 2, 1, 20, 19, 18, 17, 2, 1, 0, 128, 36, 35, 34, 33, 7, 0, 0, 0, 1, 0, 0, 0,
    0, 0, 0, 0, 2, 0, 0, 0, 0, 0, 0, 0, 3, 0, 0, 0, 0, 0, 0, 0, 4, 0, 0, 0, 0, 0, 0, 0, 5, 0, 0, 0,
    0, 0, 0, 0, 0, 0, 0, 0, 0, 0, 0, 128,
];

const LAST: [u8; 72] = [
    1, 0, 14, 0, 0, 0, 0, 0, 0, 0, 0, 0, 0, 0, 0, 0, 0, 0, 0, 0, 0, 0, 0, 0, 0, 0, 0, 0, 0, 0, 0,
    0, 0, 0, 0, 0, 0, 0, 0, 0, 0, 0, 0, 0, 0, 0, 0, 0, 0, 0, 0, 0, 0, 0, 0, 0, 0, 0, 0, 0, 0, 0, 0,
    0, 0, 0, 0, 0, 0, 0, 0, 0,
];

// A data group with two channel groups, the first with two channels of one source. The first channel has a conversion
// that refers to a text and to a conversion, a composition and a tenth link; the second has its values in the second
// group.
const TWO_GROUPS: Blocks = (
    936,
    &[
        (64, b"##DG", &[0, 128, 0, 0], &[2, 0, 0, 0, 0, 0, 0, 0]),
        (128, b"##CG", &[232, 336, 0, 0, 904, 0], &GROUP),
        (232, b"##CG", &[0, 0, 0, 0, 0, 0], &VALUES),
        (
            336,
            b"##CN",
            &[512, 128, 0, 672, 728, 0, 0, 0, 0, 904],
            &CHANNEL,
        ),
        (512, b"##CN", &[0, 0, 0, 672, 0, 232, 0, 0], &LAST),
        (672, b"##SI", &[0, 0, 0], &[2, 3, 1, 0, 0, 0, 0, 0]),
        (728, b"##CC", &[0, 0, 0, 0, 904, 824], &[0; 24]),
        (824, b"##CC", &[0, 0, 0, 0], &[0; 24]),
        (904, b"##TX", &[], b"km/h"),
    ],
);

// A data group, a channel group and a channel, a conversion and a text, which goes on nowhere.
const STRAIGHT: Blocks = (
    512,
    &[
        (64, b"##DG", &[0, 128, 7, 0], &[0; 8]),
        (128, b"##CG", &[0, 232, 0, 0, 0, 0], &[0; 32]),
        (232, b"##CN", &[0, 0, 0, 0, 0, 0, 0, 0], &[0; 72]),
        (392, b"##CC", &[0, 0, 0, 0, 0], &[0; 24]),
        (480, b"##TX", &[], b"km/h/s/s"),
    ],
);

/// One of the two files.
enum File {
    TwoGroups,
    Straight,
}

impl File {
    fn bytes(&self, alloc: Global) -> Result<Vec<u8>, Fail> {
        let (size, pieces) = match self {
            File::TwoGroups => TWO_GROUPS,
            File::Straight => STRAIGHT,
        };
        file_of(alloc, size, pieces)
    }
}

// Where its numbers of 8 bytes stand: links, the flags of the group, and the front of the channel's body, whose first byte is
// the kind and whose third is the data type.
const NEXT_DATA: usize = 88;

const NEXT_GROUP: usize = 152;

const FIRST_CHANNEL: usize = 160;

const GROUP_FLAGS: usize = 216;

const NEXT_CHANNEL: usize = 256;

const SOURCE: usize = 280;

const CONVERSION: usize = 288;

const VALUES_AT: usize = 296;

const UNIT: usize = 304;

const FRONT: usize = 320;

const REFERENCE: usize = 448;

// The link to the conversion of the second channel of the two groups.
const SECOND_CONVERSION: usize = 568;

// What may be read of a file: so many bytes of texts, and so many conversions.
const TEXT: u64 = 67_108_864;

const CONVERSIONS: u64 = 1_048_576;

// A file, the numbers of 8 bytes that are set in it, how many bytes of texts and how many conversions may come, and what is
// answered with what may still come.
const TOLD: &[(Grouped, &str)] = &[
    (
        Grouped(File::TwoGroups, &[], TEXT, CONVERSIONS),
        "Ok(Rows { items: [DataRow { at: 64, id_size: 2, comment: Nothing, content: 0, groups: Rows { items: [GroupRow { at: 128, id: 9, cycles: 72057594037927944, flags: 0, separator: 46, data_bytes: 825373492, inval_bytes: 6, name: Nothing, source: None, comment: Nothing, channels: Rows { items: [ChannelRow { at: 336, kind: 2, sync: 1, data_type: 4, bit: 3, byte: 16909060, bits: 286397204, flags: 2147483906, inval: 555885348, precision: 7, ranges: [1, 2, 3, 4, 5, 9223372036854775808], name: Nothing, source: Some(SourceInfo { kind: 2, bus: 3, flags: 1, name: Nothing, path: Nothing, comment: Nothing }), conv: Some(Conversion { kind: 0, precision: 0, flags: 0, low: 0, high: 0, numbers: Rows { items: [] }, refs: Rows { items: [Words(Plain(Bytes { items: [107, 109, 47, 104] })), Conv(Boxed { inner: Conversion { kind: 0, precision: 0, flags: 0, low: 0, high: 0, numbers: Rows { items: [] }, refs: Rows { items: [] }, name: Nothing, unit: Nothing, comment: Nothing } })] }, name: Nothing, unit: Nothing, comment: Nothing }), unit: Nothing, comment: Nothing, values: 0, extra: 1 }, ChannelRow { at: 512, kind: 1, sync: 0, data_type: 14, bit: 0, byte: 0, bits: 0, flags: 0, inval: 0, precision: 0, ranges: [0, 0, 0, 0, 0, 0], name: Nothing, source: Some(SourceInfo { kind: 2, bus: 3, flags: 1, name: Nothing, path: Nothing, comment: Nothing }), conv: None, unit: Nothing, comment: Nothing, values: 232, extra: 0 }] } }, GroupRow { at: 232, id: 10, cycles: 0, flags: 3, separator: 0, data_bytes: 0, inval_bytes: 0, name: Nothing, source: None, comment: Nothing, channels: Rows { items: [] } }] } }] }) Budget { text: 67108860, conversions: 1048574, conversion_bytes: 134217552, dropped: 3 }",
    ),
    (
        Grouped(File::Straight, &[], TEXT, CONVERSIONS),
        "Ok(Rows { items: [DataRow { at: 64, id_size: 0, comment: Nothing, content: 7, groups: Rows { items: [GroupRow { at: 128, id: 0, cycles: 0, flags: 0, separator: 0, data_bytes: 0, inval_bytes: 0, name: Nothing, source: None, comment: Nothing, channels: Rows { items: [ChannelRow { at: 232, kind: 0, sync: 0, data_type: 0, bit: 0, byte: 0, bits: 0, flags: 0, inval: 0, precision: 0, ranges: [0, 0, 0, 0, 0, 0], name: Nothing, source: None, conv: None, unit: Nothing, comment: Nothing, values: 0, extra: 0 }] } }] } }] }) Budget { text: 67108864, conversions: 1048576, conversion_bytes: 134217728, dropped: 0 }",
    ),
    (
        Grouped(File::Straight, &[(UNIT, 392)], TEXT, CONVERSIONS),
        "Err(Bad { at: 392, want: Tx }) Budget { text: 67108864, conversions: 1048576, conversion_bytes: 134217728, dropped: 0 }",
    ),
    (
        Grouped(File::Straight, &[(NEXT_DATA, 128)], TEXT, CONVERSIONS),
        "Err(Bad { at: 128, want: Dg }) Budget { text: 67108864, conversions: 1048576, conversion_bytes: 134217728, dropped: 0 }",
    ),
    (
        Grouped(File::Straight, &[(NEXT_GROUP, 232)], TEXT, CONVERSIONS),
        "Err(Bad { at: 232, want: Cg }) Budget { text: 67108864, conversions: 1048576, conversion_bytes: 134217728, dropped: 0 }",
    ),
    (
        Grouped(File::Straight, &[(FIRST_CHANNEL, 128)], TEXT, CONVERSIONS),
        "Err(Bad { at: 128, want: Cn }) Budget { text: 67108864, conversions: 1048576, conversion_bytes: 134217728, dropped: 0 }",
    ),
    (
        Grouped(File::Straight, &[(SOURCE, 392)], TEXT, CONVERSIONS),
        "Err(Bad { at: 392, want: Si }) Budget { text: 67108864, conversions: 1048576, conversion_bytes: 134217728, dropped: 0 }",
    ),
    (
        Grouped(File::Straight, &[(CONVERSION, 480)], TEXT, CONVERSIONS),
        "Err(Bad { at: 480, want: Cc }) Budget { text: 67108864, conversions: 1048576, conversion_bytes: 134217728, dropped: 0 }",
    ),
    (
        Grouped(
            File::Straight,
            &[(CONVERSION, 392), (REFERENCE, 392)],
            TEXT,
            4,
        ),
        "Err(Deep { at: 392 }) Budget { text: 67108864, conversions: 4, conversion_bytes: 134217728, dropped: 0 }",
    ),
    (
        Grouped(File::Straight, &[(CONVERSION, 392)], TEXT, 0),
        "Err(TooMany { what: Cc, at: 392 }) Budget { text: 67108864, conversions: 0, conversion_bytes: 134217728, dropped: 0 }",
    ),
    (
        Grouped(File::Straight, &[(UNIT, 480)], 7, CONVERSIONS),
        "Err(TooMany { what: Text, at: 480 }) Budget { text: 7, conversions: 1048576, conversion_bytes: 134217728, dropped: 0 }",
    ),
    (
        Grouped(File::Straight, &[(FRONT, 4 | 15 << 16)], TEXT, CONVERSIONS),
        "Err(ChannelKind { at: 232, kind: 4 }) Budget { text: 67108864, conversions: 1048576, conversion_bytes: 134217728, dropped: 0 }",
    ),
    (
        Grouped(File::Straight, &[(FRONT, 5 | 15 << 16)], TEXT, CONVERSIONS),
        "Err(ChannelKind { at: 232, kind: 5 }) Budget { text: 67108864, conversions: 1048576, conversion_bytes: 134217728, dropped: 0 }",
    ),
    (
        Grouped(File::Straight, &[(FRONT, 7 | 15 << 16)], TEXT, CONVERSIONS),
        "Err(ChannelKind { at: 232, kind: 7 }) Budget { text: 67108864, conversions: 1048576, conversion_bytes: 134217728, dropped: 0 }",
    ),
    (
        Grouped(
            File::Straight,
            &[(FRONT, 6 | 15 << 16), (UNIT, 392)],
            TEXT,
            CONVERSIONS,
        ),
        "Err(ChannelType { at: 232, value: 15 }) Budget { text: 67108864, conversions: 1048576, conversion_bytes: 134217728, dropped: 0 }",
    ),
    (
        Grouped(
            File::Straight,
            &[(NEXT_CHANNEL, 232), (UNIT, 480)],
            807,
            CONVERSIONS,
        ),
        "Err(TooMany { what: Text, at: 480 }) Budget { text: 807, conversions: 1048576, conversion_bytes: 134217728, dropped: 0 }",
    ),
    (
        Grouped(
            File::Straight,
            &[(FRONT, 1), (VALUES_AT, 128), (GROUP_FLAGS, 1)],
            TEXT,
            CONVERSIONS,
        ),
        "Ok(Rows { items: [DataRow { at: 64, id_size: 0, comment: Nothing, content: 7, groups: Rows { items: [GroupRow { at: 128, id: 0, cycles: 0, flags: 1, separator: 0, data_bytes: 0, inval_bytes: 0, name: Nothing, source: None, comment: Nothing, channels: Rows { items: [ChannelRow { at: 232, kind: 1, sync: 0, data_type: 0, bit: 0, byte: 0, bits: 0, flags: 0, inval: 0, precision: 0, ranges: [0, 0, 0, 0, 0, 0], name: Nothing, source: None, conv: None, unit: Nothing, comment: Nothing, values: 128, extra: 0 }] } }] } }] }) Budget { text: 67108864, conversions: 1048576, conversion_bytes: 134217728, dropped: 1 }",
    ),
];

// The same of loops: of data groups, of channel groups and of channels.
const LOOPS: &[(Grouped, &str)] = &[
    (
        Grouped(File::Straight, &[(NEXT_DATA, 64)], TEXT, CONVERSIONS),
        "Err(TooMany { what: Dg, at: 64 }) Budget { text: 67108864, conversions: 1048576, conversion_bytes: 134217728, dropped: 0 }",
    ),
    (
        Grouped(File::Straight, &[(NEXT_GROUP, 128)], TEXT, CONVERSIONS),
        "Err(TooMany { what: Cg, at: 128 }) Budget { text: 67108864, conversions: 1048576, conversion_bytes: 134217728, dropped: 0 }",
    ),
    (
        Grouped(File::Straight, &[(NEXT_CHANNEL, 232)], TEXT, CONVERSIONS),
        "Err(TooMany { what: Cn, at: 232 }) Budget { text: 67108864, conversions: 1048576, conversion_bytes: 134217728, dropped: 0 }",
    ),
];

/// A file, the numbers of 8 bytes that are set in it, and how many bytes of texts and how many conversions may come.
struct Grouped(File, &'static [(usize, u64)], u64, u64);

// The file with its numbers set.
fn bytes_of(alloc: Global, row: &Grouped) -> Result<Vec<u8>, Fail> {
    let mut bytes = row.0.bytes(alloc)?;
    put_numbers(bytes.as_mut_slice(), row.1);
    Ok(bytes)
}

impl Told for Grouped {
    fn told(&self, alloc: Global) -> Result<String, Fail> {
        let bytes = bytes_of(alloc, self)?;
        let mut budget = Budget {
            text: self.2,
            conversions: self.3,
            ..Budget::of_file()
        };
        let answer = read_groups(alloc, bytes.as_slice(), 64, &mut budget);
        both_shown(alloc, &answer, &budget)
    }
}

#[test]
fn files_are_told(rt: HostRuntime) -> Result<(), Fail> {
    all_are_told(&rt, TOLD)
}

#[test]
fn loops_are_too_many(rt: HostRuntime) -> Result<(), Fail> {
    all_are_told(&rt, LOOPS)
}

/// The file of two groups where both channels name the conversion at 728, which has 96 bytes and refers to one of 80 bytes;
/// and how many bytes of conversions may come.
struct Counted(u64);

impl Told for Counted {
    fn told(&self, alloc: Global) -> Result<String, Fail> {
        let mut bytes = File::TwoGroups.bytes(alloc)?;
        put_number(bytes.as_mut_slice(), SECOND_CONVERSION, 728);
        let mut budget = Budget {
            conversion_bytes: self.0,
            ..Budget::of_file()
        };
        let fault = read_groups(alloc, bytes.as_slice(), 64, &mut budget).err();
        shown(alloc, &fault)
    }
}

const COUNTED: &[(Counted, &str)] = &[(Counted(351), "Some(Memory)"), (Counted(352), "None")];

#[test]
fn a_conversion_counts_for_each_channel(rt: HostRuntime) -> Result<(), Fail> {
    all_are_told(&rt, COUNTED)
}

/// The reader of the groups.
struct GroupReader;

// Why nothing is answered, whether all may still come, and how many faults the span counts.
impl Stopped for GroupReader {
    fn told(&self, alloc: Global, calls: u64, stop: Stop) -> Result<String, Fail> {
        let bytes = File::TwoGroups.bytes(alloc)?;
        let mut budget = Budget::of_file();
        let mut span = span_over(bytes.as_slice(), calls, stop);
        let fault = read_groups_in(alloc, &mut span, 64, &mut budget).err();
        let left = (budget == Budget::of_file(), span.faults());
        both_shown(alloc, &fault, &left)
    }
}

#[test]
fn a_span_that_stops_stops_the_reader(rt: HostRuntime) -> Result<(), Fail> {
    stops_are_told(
        &rt,
        &GroupReader,
        60,
        "Some(Failed) (true, 1)",
        "Some(Memory) (true, 0)",
    )
}
