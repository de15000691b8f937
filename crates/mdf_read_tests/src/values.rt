use mdf_num::Bytes;
use mdf_vlsd::{Streams, ValueStream};
use std::alloc::Global;
use std::test::Fail;
use test_rig::{Told, all_are_told, is_told, shown, three_shown};

// The offsets of three values, and the stream of them.
fn three_values(alloc: Global) -> Result<([u64; 3], ValueStream), Fail> {
    let mut stream = ValueStream::empty(alloc);
    let first = stream.push(b"")?;
    let second = stream.push(b"ab")?;
    let third = stream.push(b"c")?;
    Ok(([first, second, third], stream))
}

// Those, what stands at the offsets, and how long the stream is in a list.
fn three_told(alloc: Global) -> Result<String, Fail> {
    let (offsets, stream) = three_values(alloc)?;
    let values = offsets_told(alloc, &stream, offsets)?;
    let streams = listed(alloc, stream)?;
    values_told(alloc, values.as_str(), &streams)
}

fn listed(alloc: Global, stream: ValueStream) -> Result<Streams, Fail> {
    let mut streams = Streams::empty(alloc);
    streams.push(stream)?;
    Ok(streams)
}

fn values_told(alloc: Global, values: &str, streams: &Streams) -> Result<String, Fail> {
    let len = streams.get(0).map(|stream| stream.len());
    Ok(format!(in alloc; "{values} {len:?}")?)
}

fn offsets_told(alloc: Global, stream: &ValueStream, offsets: [u64; 3]) -> Result<String, Fail> {
    let values = [
        stream.value_at(offsets[0]),
        stream.value_at(offsets[1]),
        stream.value_at(offsets[2]),
    ];
    three_shown(alloc, &offsets, &stream.bytes(), &values)
}

#[test]
fn offsets_and_stream_of_variable_values(rt: HostRuntime) -> Result<(), Fail> {
    is_told(
        three_told(rt.alloc()),
        "[0, 4, 10] [0, 0, 0, 0, 2, 0, 0, 0, 97, 98, 1, 0, 0, 0, 99] [Some([]), Some([97, 98]), Some([99])] Some(15)",
    )
}

/// A stream, and an offset in it.
struct Offset(&'static [u8], u64);

impl Told for Offset {
    fn told(&self, alloc: Global) -> Result<String, Fail> {
        let stream = ValueStream::from_bytes(Bytes::from_slice(alloc, self.0)?);
        shown(alloc, &stream.value_at(self.1))
    }
}

// The second value is said to have one byte more than the stream has behind its length.
const SHORT: &[u8] = b"\x01\0\0\0a\x02\0\0\0b";

// A length near the largest, and an empty value one byte behind it.
const LONG: &[u8] = b"\xff\xff\xff\xffa\0\0\0\0";

const OFFSETS: &[(Offset, &str)] = &[
    (Offset(SHORT, 0), "Some([97])"),
    (Offset(SHORT, 5), "None"),
    (Offset(SHORT, 7), "None"),
    (Offset(SHORT, 10), "None"),
    (Offset(SHORT, 11), "None"),
    (Offset(SHORT, 1 << 32), "None"),
    (Offset(SHORT, u64::MAX - 3), "None"),
    (Offset(SHORT, u64::MAX), "None"),
    (Offset(LONG, 0), "None"),
    (Offset(LONG, 5), "Some([])"),
];

#[test]
fn offsets_where_no_value_stands(rt: HostRuntime) -> Result<(), Fail> {
    all_are_told(&rt, OFFSETS)
}
