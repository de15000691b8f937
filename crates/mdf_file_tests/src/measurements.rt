use mdf_model::{Measurement, read_file};
use mdf_num::{Bytes, Rows};
use std::alloc::Global;
use std::fmt::Debug;
use std::test::Fail;
use test_rig::{Piece, Told, all_are_told, file_of, put, put_numbers, shown};

// A finalized file of two data groups. The first has one channel group with a master of 32 bits, and no ids. The second has
// ids of one byte, a channel group with one channel of variable length, and the group that holds its values.
const IDENT: [u8; 64] =
    *b"MDF     4.10    test    \0\0\0\0\x9a\x01\0\0\0\0\0\0\0\0\0\0\0\0\0\0\0\0\0\0\0\0\0\0\0\0\0\0\0\0\0\0\0\0\0\0";

const NUMBERS: [u8; 32] = [
    0, 0, 0, 0, 0, 0, 0, 0, 2, 0, 0, 0, 0, 0, 0, 0, 0, 0, 0, 0, 0, 0, 0, 0, 4, 0, 0, 0, 0, 0, 0, 0,
];

const OFFSETS: [u8; 32] = [
    1, 0, 0, 0, 0, 0, 0, 0, 2, 0, 0, 0, 0, 0, 0, 0, 0, 0, 0, 0, 0, 0, 0, 0, 8, 0, 0, 0, 0, 0, 0, 0,
];

const VALUES: [u8; 32] = [
    2, 0, 0, 0, 0, 0, 0, 0, 2, 0, 0, 0, 0, 0, 0, 0, 1, 0, 0, 0, 0, 0, 0, 0, 0, 0, 0, 0, 0, 0, 0, 0,
];

pub(crate) const MASTER: [u8; 72] = [
    2, 1, 0, 0, 0, 0, 0, 0, 32, 0, 0, 0, 0, 0, 0, 0, 0, 0, 0, 0, 0, 0, 0, 0, 0, 0, 0, 0, 0, 0, 0,
    0, 0, 0, 0, 0, 0, 0, 0, 0, 0, 0, 0, 0, 0, 0, 0, 0, 0, 0, 0, 0, 0, 0, 0, 0, 0, 0, 0, 0, 0, 0, 0,
    0, 0, 0, 0, 0, 0, 0, 0, 0,
];

pub(crate) const TEXT: [u8; 72] = [
    1, 0, 7, 0, 0, 0, 0, 0, 64, 0, 0, 0, 0, 0, 0, 0, 0, 0, 0, 0, 0, 0, 0, 0, 0, 0, 0, 0, 0, 0, 0,
    0, 0, 0, 0, 0, 0, 0, 0, 0, 0, 0, 0, 0, 0, 0, 0, 0, 0, 0, 0, 0, 0, 0, 0, 0, 0, 0, 0, 0, 0, 0, 0,
    0, 0, 0, 0, 0, 0, 0, 0, 0,
];

pub(crate) const FILE: [Piece; 10] = [
    (64, b"##HD", &[168, 0, 0, 0, 0, 0], &[0; 32]),
    (168, b"##DG", &[232, 296, 928, 0], &[0; 8]),
    (232, b"##DG", &[0, 400, 960, 0], &[1, 0, 0, 0, 0, 0, 0, 0]),
    (296, b"##CG", &[0, 608, 0, 0, 0, 0], &NUMBERS),
    (400, b"##CG", &[504, 768, 0, 0, 0, 0], &OFFSETS),
    (504, b"##CG", &[0, 0, 0, 0, 0, 0], &VALUES),
    (608, b"##CN", &[0, 0, 0, 0, 0, 0, 0, 0], &MASTER),
    (768, b"##CN", &[0, 0, 0, 0, 0, 504, 0, 0], &TEXT),
    (928, b"##DT", &[], &[7, 0, 0, 0, 8, 0, 0, 0]),
    (
        960,
        b"##DT",
        &[],
        &[
            2, 3, 0, 0, 0, 97, 98, 99, 1, 0, 0, 0, 0, 0, 0, 0, 0, 2, 0, 0, 0, 0, 1, 7, 0, 0, 0, 0,
            0, 0, 0,
        ],
    ),
];

// The numbers of 8 bytes that are changed in the file, and what is told then.
const TOLD: &[(Measured, &str)] = &[
    (
        Measured(&[], Asked::Parts),
        "2 0 true 2 [7, 0, 0, 0, 8, 0, 0, 0] 0 [] 2 [0, 0, 0, 0, 0, 0, 0, 0, 7, 0, 0, 0, 0, 0, 0, 0] 1 [3, 0, 0, 0, 97, 98, 99, 0, 0, 0, 0]",
    ),
    (Measured(&[(0, 0)], Asked::Parts), "NotMdf"),
    (
        Measured(&[(0, 0x20464d6e69466e55)], Asked::Parts),
        "Unfinalized { std: 0, custom: 0 }",
    ),
    (
        Measured(&[(24, 0x1a4_0000_0000)], Asked::Parts),
        "Version { ver: 420 }",
    ),
    (
        Measured(
            &[(24, 0x1a4_0000_0000), (0, 0x20464d6e69466e55)],
            Asked::Parts,
        ),
        "Version { ver: 420 }",
    ),
    (
        Measured(&[(88, 160)], Asked::Parts),
        "Block { at: 160, want: Dg }",
    ),
    // the cycle count of the first group
    (
        Measured(&[(376, 3)], Asked::Parts),
        "Cycles { group: 0, said: 3, found: 2 }",
    ),
    (
        Measured(&[(376, 1)], Asked::Parts),
        "2 0 false 1 [7, 0, 0, 0] 0 [] 2 [0, 0, 0, 0, 0, 0, 0, 0, 7, 0, 0, 0, 0, 0, 0, 0] 1 [3, 0, 0, 0, 97, 98, 99, 0, 0, 0, 0]",
    ),
    // and of the second, with an offset that meets no value
    (
        Measured(&[(480, 3)], Asked::Parts),
        "Cycles { group: 1, said: 3, found: 2 }",
    ),
    (
        Measured(&[(1007, 8)], Asked::Parts),
        "Offset { channel: 0, row: 1, offset: 8 }",
    ),
    (
        Measured(&[(480, 3), (1007, 8)], Asked::Parts),
        "Cycles { group: 1, said: 3, found: 2 }",
    ),
    (
        Measured(&[(376, 3), (288, 3)], Asked::Parts),
        "Cycles { group: 0, said: 3, found: 2 }",
    ),
    // the id size of the second data group, and how many bits its channel has
    (Measured(&[(288, 3)], Asked::Parts), "Layout { at: 232 }"),
    (
        Measured(&[(864, 65), (968, 54)], Asked::Parts),
        "Layout { at: 768 }",
    ),
    (Measured(&[(968, 54)], Asked::Parts), "Cut { at: 22 }"),
    (
        Measured(&[(984, 9)], Asked::Parts),
        "UnknownId { id: 9, at: 0 }",
    ),
];

// The parts of a measurement: how many groups, links that were passed over, and whether the file is as the standard has it;
// and of each group how many samples, its records, how many streams, and the first stream.
fn push_group(text: &mut String, m: &Measurement, group: u32) -> Result<(), Fail> {
    if group >= m.groups() {
        write!(text, " no group")?;
        return Ok(());
    }
    let part = m.part(group);
    let first = match part.streams.get(0) {
        Some(stream) => stream.bytes(),
        None => &[],
    };
    let samples = m.samples(group);
    let content = part.content.as_slice();
    let count = part.streams.len();
    write!(text, " {samples} {content:?} {count} {first:?}")?;
    Ok(())
}

fn push_groups(text: &mut String, m: &Measurement) -> Result<(), Fail> {
    for group in 0..m.groups() {
        push_group(text, m, group)?;
    }
    Ok(())
}

fn parts_told(alloc: Global, m: &Measurement) -> Result<String, Fail> {
    let (groups, dropped, strict) = (m.groups(), m.dropped(), m.strict());
    let mut text = format!(in alloc; "{groups} {dropped} {strict}")?;
    push_groups(&mut text, m)?;
    Ok(text)
}

/// The file with other numbers, and room for a text at 1016.
pub(crate) fn changed(alloc: Global, changes: &[(usize, u64)]) -> Result<Vec<u8>, Fail> {
    let mut file = file_of(alloc, 1048, &FILE)?;
    put(file.as_mut_slice(), 0, &IDENT);
    put_numbers(file.as_mut_slice(), changes);
    Ok(file)
}

/// What is asked of a measurement: its parts, a sample of a group, or its parts where the records of a group are taken away.
enum Asked {
    Parts,
    Sample(u32, u64),
    Emptied(u32),
}

fn asked_told(alloc: Global, m: &mut Measurement, asked: &Asked) -> Result<String, Fail> {
    match asked {
        Asked::Parts => parts_told(alloc, m),
        Asked::Sample(group, i) => sample_told(alloc, m, *group, *i),
        Asked::Emptied(group) => emptied_told(alloc, m, *group),
    }
}

/// The numbers of the file, and what is asked of it.
struct Measured(&'static [(usize, u64)], Asked);

fn answer_told<F: Debug>(
    alloc: Global,
    answer: &mut Result<Measurement, F>,
    asked: &Asked,
) -> Result<String, Fail> {
    match answer {
        Ok(m) => asked_told(alloc, m, asked),
        Err(fault) => shown(alloc, fault),
    }
}

impl Told for Measured {
    fn told(&self, alloc: Global) -> Result<String, Fail> {
        let file = changed(alloc, self.0)?;
        answer_told(alloc, &mut read_file(alloc, file.as_slice()), &self.1)
    }
}

#[test]
fn measurements_are_told(rt: HostRuntime) -> Result<(), Fail> {
    all_are_told(&rt, TOLD)
}

// The group, the sample, and its entries. The values of variable length are abc and nothing.
const SAMPLES: &[(Measured, &str)] = &[
    (
        Measured(&[], Asked::Sample(0, 0)),
        "[Entry { value: Unsigned(7), valid: true }]",
    ),
    (
        Measured(&[], Asked::Sample(0, 1)),
        "[Entry { value: Unsigned(8), valid: true }]",
    ),
    (
        Measured(&[], Asked::Sample(1, 0)),
        "[Entry { value: Bytes(Bytes { items: [97, 98, 99] }), valid: true }]",
    ),
    (
        Measured(&[], Asked::Sample(1, 1)),
        "[Entry { value: Bytes(Bytes { items: [] }), valid: true }]",
    ),
    (Measured(&[], Asked::Sample(1, 2)), "no sample"),
];

pub(crate) fn sample_told(
    alloc: Global,
    m: &Measurement,
    group: u32,
    i: u64,
) -> Result<String, Fail> {
    if group >= m.groups() || i >= m.samples(group) {
        return Ok(format!(in alloc; "no sample")?);
    }
    let entries = m.sample(alloc, group, i)?;
    shown(alloc, &entries.as_slice())
}

#[test]
fn samples_are_told(rt: HostRuntime) -> Result<(), Fail> {
    all_are_told(&rt, SAMPLES)
}

// The group whose records are taken away, and what is told then; a group with values of variable length needs streams.
const EMPTIED: &[(Measured, &str)] = &[
    (
        Measured(&[], Asked::Emptied(0)),
        "2 0 true 0 [] 0 [] 2 [0, 0, 0, 0, 0, 0, 0, 0, 7, 0, 0, 0, 0, 0, 0, 0] 1 [3, 0, 0, 0, 97, 98, 99, 0, 0, 0, 0]",
    ),
    (Measured(&[], Asked::Emptied(1)), "streams are wanted"),
];

// Whether the records of the group were taken away.
fn is_emptied(alloc: Global, m: &mut Measurement, group: u32) -> bool {
    if group >= m.groups() || m.shape(group).variable_count() > 0 {
        return false;
    }
    m.replace(group, 0, Bytes::empty(alloc), Rows::empty(alloc));
    true
}

fn emptied_told(alloc: Global, m: &mut Measurement, group: u32) -> Result<String, Fail> {
    if is_emptied(alloc, m, group) {
        parts_told(alloc, m)
    } else {
        Ok(format!(in alloc; "streams are wanted")?)
    }
}

#[test]
fn a_group_is_replaced(rt: HostRuntime) -> Result<(), Fail> {
    all_are_told(&rt, EMPTIED)
}
