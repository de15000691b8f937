//! A rotation over disks and streams in memory.
ghost use Rattle.std.specs.Prelude.{◌≡◌, ◌≤◌, None, length, All, IfOk};

use book_owned::Marks;
use mdf_disk::{Disk, MemoryDisk};
use mdf_num::{Bytes, Numbers, Rows};
use mdf_port::{MemorySink, MemorySource};
use mdf_record::Open;
use mdf_rotate::{Part, Rotated, run_rotate};
use std::alloc::Global;
use std::sync::Wait;
use std::test::Fail;
use std::thread::Threads;

/// What a rotation is given: the words; the script; how many disks there are, and which of them has a file already; and which
/// calls of the source, of each disk and of the sink fail.
#[derive(Clone, Copy)]
pub struct Given {
    pub words: &'static [&'static str],
    pub script: &'static str,
    pub disks: usize,
    pub taken: usize,
    pub broken: &'static [u64],
    pub lost: &'static [u64],
    pub failing: &'static [u64],
}

/// `rotate OUT` of this script over so many disks.
pub fn rotating(script: &'static str, disks: usize) -> Given {
    Given {
        words: &["rotate", "out"],
        script,
        disks,
        taken: 99,
        broken: &[],
        lost: &[],
        failing: &[],
    }
}

fn numbers(alloc: Global, items: &[u64]) -> Result<Numbers, Fail> {
    Ok(Numbers::from_vec(items.to_vec(alloc)?))
}

fn words_of(alloc: Global, texts: &[&str]) -> Result<Rows<Bytes>, Fail> {
    let mut words = Rows::empty(alloc);
    for text in texts {
        words.push(Bytes::from_slice(alloc, text.as_bytes())?)?;
    }
    Ok(words)
}

/// A disk that fails at these calls, with a file of five bytes or with none.
fn disk_of(alloc: Global, taken: bool, lost: &[u64]) -> Result<MemoryDisk, Fail>
    ensures { IfOk result (λ disk. ⟦<MemoryDisk as Disk>⟧.asked disk ≡ None) }
{
    let lost = numbers(alloc, lost)?;
    let file: &[u8] = if taken { b"taken" } else { b"" };
    let file = Bytes::from_slice(alloc, file)?;
    let mut disk = if taken {
        MemoryDisk::holding(alloc, file)
    } else {
        MemoryDisk::new(alloc)
    };
    disk.fail_at(lost);
    Ok(disk)
}

/// The disks.
fn disks_of(alloc: Global, given: &Given) -> Result<Vec<MemoryDisk>, Fail>
    ensures { IfOk result (λ disks. All (λ disk. ⟦<MemoryDisk as Disk>⟧.asked disk ≡ None) disks.items) }
{
    let mut disks = Vec::new(alloc);
    for number in 0..given.disks {
        disks.push(disk_of(alloc, number == given.taken, given.lost)?)?;
    }
    Ok(disks)
}

/// What a rotation left: the status and the printed text, and the files of its parts with how many samples each has.
#[derive(Drop)]
pub struct Left {
    pub line: String,
    pub rotated: Rotated<MemoryDisk>,
}

/// Runs a rotation.
pub fn rotated<R>(rt: &R, given: &Given) -> Result<Left, Fail>
where
    R: AllocGlobal + Threads + Wait + Sync,
{
    let alloc = rt.alloc();
    let words = words_of(alloc, given.words)?;
    let script = Bytes::from_slice(alloc, given.script.as_bytes())?;
    let mut source = MemorySource::new(script, numbers(alloc, given.broken)?);
    let mut sink = MemorySink::new(alloc, numbers(alloc, given.failing)?);
    let disks = disks_of(alloc, given)?;
    if disks.is_empty() {
        return Err(Fail::new("no disk"));
    }
    let rotated = run_rotate(rt, alloc, &words, 0, &mut source, &mut sink, disks, &Open);
    let status = rotated.status;
    let text = str::from_utf8(sink.bytes())?;
    let line = format!(in alloc; "{status} {text}")?;
    Ok(Left { line, rotated })
}

/// How many samples each mark has.
fn throughs(alloc: Global, marks: &Marks) -> Result<Vec<u64>, Fail> {
    let mut counts = Vec::new(alloc);
    for mark in marks.rest(0) {
        counts.push(mark.through)?;
    }
    Ok(counts)
}

/// How many bytes the file of each part has, how many samples, and how many of these each mark has.
pub fn sizes(alloc: Global, parts: &[Part<MemoryDisk>]) -> Result<String, Fail> {
    let mut line = String::new(alloc);
    for part in parts {
        let size = part.out.bytes().len();
        let samples = part.history.len();
        let marks = throughs(alloc, &part.marks)?;
        let more = format!(in alloc; " {size}:{samples} {marks:?}")?;
        line.push_str(more.as_str())?;
    }
    Ok(line)
}
