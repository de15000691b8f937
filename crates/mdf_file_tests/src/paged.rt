use crate::measurements::{changed, sample_told};
use mdf_content::ReadFault;
use mdf_model::{Measurement, read_file};
use mdf_num::{Halt, Memory, SliceSpan};
use mdf_paged::PagedMeasurement;
use std::alloc::Global;
use std::process::Abort;
use std::test::Fail;
use test_rig::{Told, all_are_told, shown};

/// A measurement that is told sample by sample.
trait Sampled {
    fn groups(&self) -> u32;

    fn dropped(&self) -> u64;

    fn strict(&self) -> bool;

    /// How many samples a group has; 0 where there is no such group.
    fn samples(&self, group: u32) -> u64;

    fn sample(&self, alloc: Global, group: u32, i: u64) -> Result<String, Fail>;
}

/// A measurement of a file in memory.
#[derive(Drop)]
struct InMemory<'a> {
    found: &'a Measurement,
}

impl Sampled for InMemory<'_> {
    fn groups(&self) -> u32 {
        self.found.groups()
    }

    fn dropped(&self) -> u64 {
        self.found.dropped()
    }

    fn strict(&self) -> bool {
        self.found.strict()
    }

    fn samples(&self, group: u32) -> u64 {
        if group >= self.found.groups() {
            return 0;
        }
        self.found.samples(group)
    }

    fn sample(&self, alloc: Global, group: u32, i: u64) -> Result<String, Fail> {
        sample_told(alloc, self.found, group, i)
    }
}

/// A measurement whose records are in the file. It is found anew for each sample.
#[derive(Drop)]
struct InFile<'a> {
    found: &'a PagedMeasurement,
    file: &'a [u8],
}

impl Sampled for InFile<'_> {
    fn groups(&self) -> u32 {
        self.found.groups()
    }

    fn dropped(&self) -> u64 {
        self.found.dropped()
    }

    fn strict(&self) -> bool {
        self.found.strict()
    }

    fn samples(&self, group: u32) -> u64 {
        if group >= self.found.groups() {
            return 0;
        }
        self.found.samples(group)
    }

    fn sample(&self, alloc: Global, group: u32, i: u64) -> Result<String, Fail> {
        let mut span = SliceSpan::new(self.file);
        let Ok(found) = PagedMeasurement::read(alloc, &mut span) else {
            return Err(Fail::new(Memory));
        };
        if group >= found.groups() {
            return Ok(format!(in alloc; "no sample")?);
        }
        if i >= found.samples(group) {
            return Ok(format!(in alloc; "no sample")?);
        }
        let Ok(entries) = found.sample_in(alloc, &mut span, group, i) else {
            return Err(Fail::new(Memory));
        };
        shown(alloc, &entries.as_slice())
    }
}

// How many groups, links that were passed over, and whether the file is as the standard has it; and of each group how many
// samples, and each of them.
fn push_samples<S: Sampled>(
    alloc: Global,
    text: &mut String,
    m: &S,
    group: u32,
) -> Result<(), Fail> {
    let count = m.samples(group);
    write!(text, " {count}")?;
    for i in 0..count {
        let sample = m.sample(alloc, group, i)?;
        let sample = sample.as_str();
        write!(text, " {sample}")?;
    }
    Ok(())
}

fn samples_told<S: Sampled>(alloc: Global, m: &S) -> Result<String, Fail> {
    let (groups, dropped, strict) = (m.groups(), m.dropped(), m.strict());
    let mut text = format!(in alloc; "{groups} {dropped} {strict}")?;
    for group in 0..groups {
        push_samples(alloc, &mut text, m, group)?;
    }
    Ok(text)
}

fn memory_told(alloc: Global, file: &[u8]) -> Result<String, Fail> {
    match read_file(alloc, file) {
        Ok(found) => samples_told(alloc, &InMemory { found: &found }),
        Err(fault) => shown(alloc, &fault),
    }
}

fn halt_told(alloc: Global, halt: &Halt<ReadFault>) -> Result<String, Fail> {
    match halt {
        Halt::Fault(fault) => shown(alloc, fault),
        Halt::Failed => Ok(format!(in alloc; "failed")?),
        Halt::Memory => Err(Fail::new(Memory)),
    }
}

fn file_told(alloc: Global, file: &[u8]) -> Result<String, Fail> {
    let mut span = SliceSpan::new(file);
    match PagedMeasurement::read(alloc, &mut span) {
        Ok(found) => samples_told(
            alloc,
            &InFile {
                found: &found,
                file,
            },
        ),
        Err(halt) => halt_told(alloc, &halt),
    }
}

/// The numbers of 8 bytes that are changed in the file.
struct Paged(&'static [(usize, u64)]);

impl Told for Paged {
    fn told(&self, alloc: Global) -> Result<String, Fail> {
        let file = changed(alloc, self.0)?;
        file_told(alloc, file.as_slice())
    }
}

// The numbers that are changed, and what is told then. The second group's values of variable length are abc and nothing.
const PAGED: &[(Paged, &str)] = &[
    (
        Paged(&[]),
        "2 0 true 2 [Entry { value: Unsigned(7), valid: true }] [Entry { value: Unsigned(8), valid: true }] 2 [Entry { value: Bytes(Bytes { items: [97, 98, 99] }), valid: true }] [Entry { value: Bytes(Bytes { items: [] }), valid: true }]",
    ),
    // the cycle count of the first group
    (
        Paged(&[(376, 1)]),
        "2 0 false 1 [Entry { value: Unsigned(7), valid: true }] 2 [Entry { value: Bytes(Bytes { items: [97, 98, 99] }), valid: true }] [Entry { value: Bytes(Bytes { items: [] }), valid: true }]",
    ),
    (Paged(&[(376, 3)]), "Cycles { group: 0, said: 3, found: 2 }"),
    (Paged(&[(0, 0)]), "NotMdf"),
    // an offset that meets no value, and one that meets the last
    (
        Paged(&[(1007, 8)]),
        "Offset { channel: 0, row: 1, offset: 8 }",
    ),
    (
        Paged(&[(1007, 0)]),
        "2 0 true 2 [Entry { value: Unsigned(7), valid: true }] [Entry { value: Unsigned(8), valid: true }] 2 [Entry { value: Bytes(Bytes { items: [97, 98, 99] }), valid: true }] [Entry { value: Bytes(Bytes { items: [97, 98, 99] }), valid: true }]",
    ),
    (Paged(&[(984, 9)]), "UnknownId { id: 9, at: 0 }"),
    (Paged(&[(968, 54)]), "Cut { at: 22 }"),
];

#[test]
fn samples_are_told_from_the_file(rt: HostRuntime) -> Result<(), Fail> {
    all_are_told(&rt, PAGED)
}

// The numbers that are changed: of what both measurements are to tell the same.
const BOTH: &[&[(usize, u64)]] = &[
    &[],
    &[(0, 0x20464d6e69466e55)],
    &[(24, 0x1a4_0000_0000)],
    &[(88, 160)],
    &[(288, 3)],
    &[(376, 0)],
    &[(376, 1)],
    &[(376, 3), (288, 3)],
    &[(376, 0xffff_ffff_ffff_ffff)],
    &[(480, 3)],
    &[(480, 3), (1007, 8)],
    &[(864, 65), (968, 54)],
    &[(936, 24)],
    &[(936, 0xffff_ffff_ffff_fff0)],
    &[(968, 24)],
    &[(968, 0xffff_ffff_ffff_fff0)],
    &[(984, 9)],
    &[(985, 0xffff_ffff)],
    &[(1007, 7)],
    &[(1007, 0xffff_ffff_ffff_fffc)],
];

fn both_tell_the_same<R: AllocGlobal + Abort>(
    rt: &R,
    i: usize,
    changes: &[(usize, u64)],
) -> Result<(), Fail> {
    let file = changed(rt.alloc(), changes)?;
    let told = file_told(rt.alloc(), file.as_slice())?;
    let want = memory_told(rt.alloc(), file.as_slice())?;
    assert_eq!(rt; told.as_str(), want.as_str(), "row {i}");
    Ok(())
}

#[test]
fn both_measurements_tell_the_same(rt: HostRuntime) -> Result<(), Fail> {
    for (i, changes) in BOTH.iter().enumerate() {
        both_tell_the_same(&rt, i, *changes)?;
    }
    Ok(())
}

// How many groups, links that were passed over, and whether the file is as the standard has it; and of each group how many
// samples.
fn counts_told<S: Sampled>(alloc: Global, m: &S) -> Result<String, Fail> {
    let (groups, dropped, strict) = (m.groups(), m.dropped(), m.strict());
    let mut text = format!(in alloc; "{groups} {dropped} {strict}")?;
    for group in 0..groups {
        let count = m.samples(group);
        write!(text, " {count}")?;
    }
    Ok(text)
}

fn read_told(
    alloc: Global,
    file: &[u8],
    read: Result<PagedMeasurement, Halt<ReadFault>>,
) -> Result<String, Fail> {
    match read {
        Ok(found) => counts_told(
            alloc,
            &InFile {
                found: &found,
                file,
            },
        ),
        Err(halt) => halt_told(alloc, &halt),
    }
}

fn counts_tell_the_same<R: AllocGlobal + Abort>(
    rt: &R,
    i: usize,
    changes: &[(usize, u64)],
) -> Result<(), Fail> {
    let file = changed(rt.alloc(), changes)?;
    let bytes = file.as_slice();
    let counted = PagedMeasurement::read_counted(rt.alloc(), &mut SliceSpan::new(bytes));
    let whole = PagedMeasurement::read(rt.alloc(), &mut SliceSpan::new(bytes));
    let told = read_told(rt.alloc(), bytes, counted)?;
    let want = read_told(rt.alloc(), bytes, whole)?;
    assert_eq!(rt; told.as_str(), want.as_str(), "row {i}");
    Ok(())
}

#[test]
fn records_that_are_counted_tell_the_same(rt: HostRuntime) -> Result<(), Fail> {
    for (i, changes) in BOTH.iter().enumerate() {
        counts_tell_the_same(&rt, i, *changes)?;
    }
    Ok(())
}
