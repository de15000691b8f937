use mdf_disk::{Disk, MemoryDisk, Role};
use mdf_num::{Bytes, Memory, Numbers, Span};
use mdf_pages::Pages;
use std::alloc::Global;
use std::test::Fail;
use test_rig::{Told, all_are_told};

// Two pages of zeros and one that is a byte shorter, but for three bytes: the last of the first page, the first of the second
// page, and the last.
const SIZE: usize = 196_607;

const LAST: usize = 196_606;

fn file(alloc: Global, size: usize) -> Result<Vec<u8>, Fail> {
    Ok(vec![in alloc; 0u8; size]?)
}

fn marked(alloc: Global) -> Result<Vec<u8>, Fail> {
    let mut bytes = file(alloc, SIZE)?;
    if bytes.len() > LAST {
        bytes[65_535] = 1;
        bytes[65_536] = 2;
        bytes[LAST] = 3;
    }
    Ok(bytes)
}

/// Pages of a disk with these bytes, of whose calls some fail.
fn pages_of(alloc: Global, bytes: Vec<u8>, failing: &[u64]) -> Result<Pages<MemoryDisk>, Fail> {
    let mut disk = MemoryDisk::holding(alloc, Bytes::from_vec(bytes));
    disk.fail_at(Numbers::from_vec(failing.to_vec(alloc)?));
    let name = Bytes::from_slice(alloc, b"f")?;
    let Ok(()) = disk.attach(name, Role::Read) else {
        return Err(Fail::new(Memory));
    };
    match Pages::begin(alloc, disk) {
        Ok(pages) => Ok(pages),
        Err(_) => Err(Fail::new(Memory)),
    }
}

// The number at a place, or why there is none.
fn push_number(
    text: &mut String,
    pages: &mut Pages<MemoryDisk>,
    at: u64,
    count: u8,
) -> Result<(), Fail> {
    let size = pages.len();
    if count == 0 {
        return Ok(());
    }
    if count > 8 {
        return Ok(());
    }
    if at > size {
        write!(text, "past ")?;
        return Ok(());
    }
    if u64::from(count) > size - at {
        write!(text, "past ")?;
        return Ok(());
    }
    match pages.number(at, count) {
        Ok(number) => write!(text, "{number} ")?,
        Err(stop) => write!(text, "{stop:?} ")?,
    }
    Ok(())
}

// The numbers that are read one after another, and which of these pages are kept then.
fn pages_told(
    alloc: Global,
    pages: &mut Pages<MemoryDisk>,
    reads: &[(u64, u8)],
    asked: &[u64],
) -> Result<String, Fail> {
    let mut text = format!(in alloc; "")?;
    for (at, count) in reads {
        push_number(&mut text, pages, *at, *count)?;
    }
    for page in asked {
        let kept = pages.holds(*page);
        write!(text, "{kept} ")?;
    }
    Ok(text)
}

// The same, and how many calls the disk has had.
fn disk_told(
    alloc: Global,
    pages: Pages<MemoryDisk>,
    reads: &[(u64, u8)],
    asked: &[u64],
) -> Result<String, Fail> {
    let mut pages = pages;
    let told = pages_told(alloc, &mut pages, reads, asked);
    let calls = pages.into_disk().calls();
    let mut text = told?;
    write!(text, "{calls}")?;
    Ok(text)
}

/// The places and how many bytes are read there, and the numbers of the disk's calls that fail.
struct Reads(&'static [(u64, u8)], &'static [u64]);

impl Told for Reads {
    fn told(&self, alloc: Global) -> Result<String, Fail> {
        let pages = pages_of(alloc, marked(alloc)?, self.1)?;
        disk_told(alloc, pages, self.0, &[0, 1, 2, 3])
    }
}

// What is read, which of the pages 0 to 3 are kept then, and how many calls the disk has had: the attach, the size, and one
// for each page.
const READS: &[(Reads, &str)] = &[
    (Reads(&[], &[]), "false false false false 2"),
    (Reads(&[(0, 8)], &[]), "0 true false false false 3"),
    (
        Reads(&[(0, 8), (65_527, 8)], &[]),
        "0 0 true false false false 3",
    ),
    (
        Reads(&[(65_528, 8)], &[]),
        "72057594037927936 true false false false 3",
    ),
    (Reads(&[(65_535, 2)], &[]), "513 true true false false 4"),
    (
        Reads(&[(65_535, 2), (65_535, 1), (65_536, 1)], &[]),
        "513 1 2 true true false false 4",
    ),
    (Reads(&[(196_606, 1)], &[]), "3 false false true false 3"),
    (
        Reads(&[(196_606, 2)], &[]),
        "past false false false false 2",
    ),
    // the call for the page fails once
    (
        Reads(&[(65_536, 1), (65_536, 1)], &[2]),
        "Failed 2 false true false false 4",
    ),
];

#[test]
fn pages_are_read_once(rt: HostRuntime) -> Result<(), Fail> {
    all_are_told(&rt, READS)
}

/// A file of 257 pages that is read page by page, and then these places again.
struct Full(&'static [(u64, u8)]);

fn each_page(alloc: Global) -> Result<Vec<(u64, u8)>, Fail> {
    let mut reads = Vec::new(alloc);
    for page in 0u64..257 {
        reads.push((page * 65_536, 1))?;
    }
    Ok(reads)
}

fn full_told(
    alloc: Global,
    pages: Pages<MemoryDisk>,
    reads: &[(u64, u8)],
    again: &[(u64, u8)],
) -> Result<String, Fail> {
    let mut pages = pages;
    match pages_told(alloc, &mut pages, reads, &[]) {
        Ok(_) => disk_told(alloc, pages, again, &[0, 1, 2, 256]),
        Err(fail) => {
            let _ = pages.into_disk();
            Err(fail)
        }
    }
}

impl Told for Full {
    fn told(&self, alloc: Global) -> Result<String, Fail> {
        let reads = each_page(alloc)?;
        let pages = pages_of(alloc, file(alloc, 257 * 65_536)?, &[])?;
        full_told(alloc, pages, reads.as_slice(), self.0)
    }
}

// Which of the pages 0, 1, 2 and 256 are kept then, and how many calls the disk has had. The page that was used least lately
// goes first.
const FULL: &[(Full, &str)] = &[
    (Full(&[]), "false true true true 259"),
    (Full(&[(65_536, 1)]), "0 false true true true 259"),
    (Full(&[(0, 1)]), "0 true false true true 260"),
    (Full(&[(65_536, 1), (0, 1)]), "0 0 true true false true 260"),
];

#[test]
fn pages_that_are_used_stay(rt: HostRuntime) -> Result<(), Fail> {
    all_are_told(&rt, FULL)
}
