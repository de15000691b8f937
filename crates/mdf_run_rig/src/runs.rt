//! A run over disks and streams in memory.
ghost use Rattle.std.specs.Prelude.{◌≡◌, None, IfOk};

use mdf_disk::{Disk, MemoryDisk};
use mdf_num::{Bytes, Numbers, Rows};
use mdf_port::{MemorySink, MemorySource};
use mdf_run::{Finished, Gate, Open, run};
use std::alloc::Global;
use std::sync::Wait;
use std::test::Fail;
use std::thread::Threads;

/// What a run is given: the command words, the text at the source, the bytes of the second input, and which calls of the
/// source, of that input's disk and of the sink fail.
#[derive(Clone, Copy)]
pub struct Given<'a> {
    pub words: &'a [&'a str],
    pub script: &'a str,
    pub second: &'a [u8],
    pub broken: &'a [u64],
    pub lost: &'a [u64],
    pub failing: &'a [u64],
}

/// What a run left, and what it was given, of which the sink has what it printed.
#[derive(Drop)]
pub struct Ended<A, C> {
    pub finished: Finished<A, C>,
    pub(crate) inputs: Inputs,
}

fn words(alloc: Global, texts: &[&str]) -> Result<Rows<Bytes>, Fail> {
    let mut words = Rows::empty(alloc);
    for text in texts {
        words.push(Bytes::from_slice(alloc, text.as_bytes())?)?;
    }
    Ok(words)
}

fn numbers(alloc: Global, items: &[u64]) -> Result<Numbers, Fail> {
    Ok(Numbers::from_vec(items.to_vec(alloc)?))
}

fn source_of(alloc: Global, given: Given<'_>) -> Result<MemorySource, Fail> {
    let broken = numbers(alloc, given.broken)?;
    let script = Bytes::from_slice(alloc, given.script.as_bytes())?;
    Ok(MemorySource::new(script, broken))
}

/// A disk with this file that fails at these calls.
pub fn disk_with(alloc: Global, file: Bytes, failing: &[u64]) -> Result<MemoryDisk, Fail>
    ensures { IfOk result (λ disk. ⟦<MemoryDisk as Disk>⟧.asked disk ≡ None) }
{
    let failing = numbers(alloc, failing)?;
    let mut disk = MemoryDisk::holding(alloc, file);
    disk.fail_at(failing);
    Ok(disk)
}

/// The words and the streams of a run.
#[derive(Drop)]
pub(crate) struct Streams {
    words: Rows<Bytes>,
    source: MemorySource,
    pub(crate) sink: MemorySink,
}

fn streams_of(alloc: Global, given: Given<'_>) -> Result<Streams, Fail> {
    let failing = numbers(alloc, given.failing)?;
    let source = source_of(alloc, given)?;
    Ok(Streams {
        words: words(alloc, given.words)?,
        source,
        sink: MemorySink::new(alloc, failing),
    })
}

/// Those, and the disk of the second input.
#[derive(Drop)]
pub(crate) struct Inputs {
    pub(crate) streams: Streams,
    second: MemoryDisk,
}

fn inputs_of(alloc: Global, given: Given<'_>) -> Result<Inputs, Fail>
    ensures { IfOk result (λ inputs. ⟦<MemoryDisk as Disk>⟧.asked inputs.second ≡ None) }
{
    let second = disk_with(alloc, Bytes::from_slice(alloc, given.second)?, given.lost)?;
    Ok(Inputs {
        streams: streams_of(alloc, given)?,
        second,
    })
}

/// Runs what is given over these disks, with this gate for the sources of a recording.
pub fn ran_under<R, A, C, G>(
    rt: &R,
    given: Given<'_>,
    first: A,
    out: C,
    gate: &G,
) -> Result<Ended<A, C>, Fail>
where
    R: AllocGlobal + Threads + Wait + Sync,
    A: Disk + Drop,
    C: Disk + Send + Drop,
    G: Gate + Sync,
    requires first { A.asked first ≡ None }
    requires out { C.asked out ≡ None }
{
    let alloc = rt.alloc();
    let mut inputs = inputs_of(alloc, given)?;
    let finished = run(
        rt,
        alloc,
        &inputs.streams.words,
        0,
        &mut inputs.streams.source,
        &mut inputs.streams.sink,
        first,
        &mut inputs.second,
        out,
        gate,
    );
    Ok(Ended { finished, inputs })
}

/// Runs what is given over these disks.
pub fn ran<R, A, C>(rt: &R, given: Given<'_>, first: A, out: C) -> Result<Ended<A, C>, Fail>
where
    R: AllocGlobal + Threads + Wait + Sync,
    A: Disk + Drop,
    C: Disk + Send + Drop,
    requires first { A.asked first ≡ None }
    requires out { C.asked out ≡ None }
{
    ran_under(rt, given, first, out, &Open)
}

pub fn failing_disk(alloc: Global, failing: &[u64]) -> Result<MemoryDisk, Fail>
    ensures { IfOk result (λ disk. ⟦<MemoryDisk as Disk>⟧.asked disk ≡ None) }
{
    let failing = numbers(alloc, failing)?;
    let mut disk = MemoryDisk::new(alloc);
    disk.fail_at(failing);
    Ok(disk)
}

/// A command of these words, whose sink fails at these calls.
pub const fn asking<'a>(words: &'a [&'a str], failing: &'a [u64]) -> Given<'a> {
    Given {
        words,
        script: "",
        second: &[],
        broken: &[],
        lost: &[],
        failing,
    }
}

pub const fn record<'a>(script: &'a str, broken: &'a [u64], failing: &'a [u64]) -> Given<'a> {
    Given {
        words: &["record", "out.mf4"],
        script,
        second: &[],
        broken,
        lost: &[],
        failing,
    }
}
