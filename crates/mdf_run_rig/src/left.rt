//! What a run leaves, and what is printed of it.
ghost use Rattle.std.specs.Prelude.{◌≡◌, None};

use crate::runs::{Ended, Given, asking, disk_with, ran_under};
use book_owned::Marks;
use mdf_disk::{Disk, Fuse, MemoryDisk};
use mdf_num::Bytes;
use mdf_run::{Gate, Open};
use std::alloc::Global;
use std::sync::Wait;
use std::test::Fail;
use std::thread::Threads;

/// The status and the printed text.
fn line<A, C>(alloc: Global, ended: &Ended<A, C>) -> Result<String, Fail> {
    let status = ended.finished.status;
    let text = str::from_utf8(ended.inputs.streams.sink.bytes())?;
    Ok(format!(in alloc; "{status} {text}")?)
}

/// A disk in memory, or one behind a fuse.
pub trait Kept {
    /// The disk in memory.
    fn kept(&self) -> &MemoryDisk;
}

impl Kept for MemoryDisk {
    fn kept(&self) -> &MemoryDisk {
        self
    }
}

impl Kept for Fuse<MemoryDisk> {
    fn kept(&self) -> &MemoryDisk {
        self.disk()
    }
}

/// How many samples each mark has.
fn marked(alloc: Global, marks: &Marks) -> Result<Vec<u64>, Fail> {
    let mut counts = Vec::new(alloc);
    for mark in marks.rest(0) {
        counts.push(mark.through)?;
    }
    Ok(counts)
}

/// That line; how many bytes the file that was made has, and how many samples were accepted; and how many samples each
/// mark has.
fn record_line<A, C: Kept>(alloc: Global, ended: &Ended<A, C>) -> Result<String, Fail> {
    let line = line(alloc, ended)?;
    let marks = marked(alloc, &ended.finished.marks)?;
    let length = ended.finished.out.kept().bytes().len();
    let accepted = ended.finished.history.len();
    Ok(format!(in alloc; "{line}file {length} history {accepted} marks {marks:?}")?)
}

/// What a run left: its status; that and the printed text; the same with what was recorded; and the bytes of the file that it made.
#[derive(Drop)]
pub struct Left {
    pub status: u8,
    pub line: String,
    pub recorded: String,
    pub file: Bytes,
}

fn left_of<A, C: Kept>(alloc: Global, ended: &Ended<A, C>) -> Result<Left, Fail> {
    let line = line(alloc, ended)?;
    let recorded = record_line(alloc, ended)?;
    let file = Bytes::from_slice(alloc, ended.finished.out.kept().bytes())?;
    Ok(Left {
        status: ended.finished.status,
        line,
        recorded,
        file,
    })
}

/// Runs what is given over these disks, with this gate, and answers what that left.
pub fn left_under<R, A, C, G>(
    rt: &R,
    given: Given<'_>,
    first: A,
    out: C,
    gate: &G,
) -> Result<Left, Fail>
where
    R: AllocGlobal + Threads + Wait + Sync,
    A: Disk + Drop,
    C: Disk + Kept + Send + Drop,
    G: Gate + Sync,
    requires first { A.asked first ≡ None }
    requires out { C.asked out ≡ None }
{
    let ended = ran_under(rt, given, first, out, gate)?;
    left_of(rt.alloc(), &ended)
}

/// Runs what is given over this disk, and answers what that left.
pub fn left_by<R, A>(rt: &R, given: Given<'_>, first: A) -> Result<Left, Fail>
where
    R: AllocGlobal + Threads + Wait + Sync,
    A: Disk + Drop,
    requires { A.asked first ≡ None }
{
    left_under(rt, given, first, MemoryDisk::new(rt.alloc()), &Open)
}

pub fn told<R, A>(rt: &R, given: Given<'_>, first: A) -> Result<String, Fail>
where
    R: AllocGlobal + Threads + Wait + Sync,
    A: Disk + Drop,
    requires { A.asked first ≡ None }
{
    let left = left_by(rt, given, first)?;
    Ok(left.line)
}

/// What is left of a command over this file.
pub fn made_of<R>(rt: &R, given: Given<'_>, file: Bytes) -> Result<Left, Fail>
where
    R: AllocGlobal + Threads + Wait + Sync,
{
    left_by(rt, given, MemoryDisk::holding(rt.alloc(), file))
}

/// The file that a command makes of this one.
pub fn file_made<R>(rt: &R, given: Given<'_>, file: Bytes) -> Result<Bytes, Fail>
where
    R: AllocGlobal + Threads + Wait + Sync,
{
    let left = made_of(rt, given, file)?;
    Ok(left.file)
}

/// What a command prints of this file.
pub fn said<R>(rt: &R, words: &[&str], file: Bytes) -> Result<String, Fail>
where
    R: AllocGlobal + Threads + Wait + Sync,
{
    told(
        rt,
        asking(words, &[]),
        MemoryDisk::holding(rt.alloc(), file),
    )
}

/// What is printed and left of a command over this disk, where a file of five bytes has the name of the output.
pub fn over_taken<R, A>(rt: &R, given: Given<'_>, first: A) -> Result<String, Fail>
where
    R: AllocGlobal + Threads + Wait + Sync,
    A: Disk + Drop,
    requires { A.asked first ≡ None }
{
    let taken = disk_with(rt.alloc(), Bytes::from_slice(rt.alloc(), b"taken")?, &[])?;
    let left = left_under(rt, given, first, taken, &Open)?;
    Ok(left.recorded)
}

pub fn record_told<R>(rt: &R, given: Given<'_>, out: MemoryDisk) -> Result<String, Fail>
where
    R: AllocGlobal + Threads + Wait + Sync,
    requires { ⟦<MemoryDisk as Disk>⟧.asked out ≡ None }
{
    let left = left_under(rt, given, MemoryDisk::new(rt.alloc()), out, &Open)?;
    Ok(left.recorded)
}
