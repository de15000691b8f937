//! A log over disks, inputs and sinks in memory.
use mdf_disk::{Disks, MemoryDisk};
use mdf_log::{Logged, Tap, run_log};
use mdf_num::{Bytes, Memory, Numbers};
use mdf_port::{MemorySink, MemorySource};
use std::alloc::Global;
use std::sync::Wait;
use std::test::Fail;
use std::thread::Threads;

/// How many calls of a disk fail one behind the other: more than a log makes behind a fault.
const FAILING: u64 = 9;

/// Disks in memory, of which all calls fail behind so many, and which are kept when they are taken back.
#[derive(Drop)]
pub struct FailingDisks {
    alloc: Global,
    calls: u64,
    kept: Vec<MemoryDisk>,
    lost: bool,
}

impl FailingDisks {
    /// Without a disk yet.
    pub fn new(alloc: Global, calls: u64) -> FailingDisks {
        FailingDisks {
            alloc,
            calls,
            kept: Vec::new(alloc),
            lost: false,
        }
    }

    /// The disks that were taken back, in order.
    pub fn kept(self) -> Result<Vec<MemoryDisk>, Fail> {
        let FailingDisks { kept, lost, .. } = self;
        if lost {
            return Err(Fail::new("a disk was not kept"));
        }
        Ok(kept)
    }
}

impl Disks for FailingDisks {
    type Disk = MemoryDisk;

    ghost serves = { λ _ _ _. Unit {0} };

    ghost serves_none = { λ _. tt };

    ghost serves_more = { λ _ _ _ _ _ _ _. tt };

    fn next(&mut self) -> MemoryDisk {
        let mut disk = MemoryDisk::new(self.alloc);
        match failing_from(self.alloc, self.calls) {
            Ok(calls) => disk.fail_at(calls),
            Err(_) => self.lost = true,
        }
        disk
    }

    fn keep(&mut self, disk: MemoryDisk) {
        self.calls = self.calls.saturating_sub(disk.calls());
        if self.kept.push(disk).is_err() {
            self.lost = true;
        }
    }
}

/// The numbers of the calls that fail.
fn failing_from(alloc: Global, calls: u64) -> Result<Numbers, Memory> {
    let mut failing = Numbers::empty(alloc);
    for number in 0..FAILING {
        failing.push(calls.saturating_add(number))?;
    }
    Ok(failing)
}

/// What a log is given: the setup; the text of each input; how many calls its disks pass on; and which calls of the setup, of each input, of each
/// source's sink and of the sink at the end fail.
#[derive(Clone, Copy)]
pub struct Given<'a> {
    pub setup: &'a str,
    pub inputs: &'a [&'a str],
    pub calls: u64,
    pub unread: &'a [u64],
    pub broken: &'a [u64],
    pub deaf: &'a [u64],
    pub failing: &'a [u64],
}

/// A log of these inputs, of which nothing fails.
pub fn logging<'a>(setup: &'a str, inputs: &'a [&'a str]) -> Given<'a> {
    Given {
        setup,
        inputs,
        calls: 1_000_000,
        unread: &[],
        broken: &[],
        deaf: &[],
        failing: &[],
    }
}

fn numbers(alloc: Global, items: &[u64]) -> Result<Numbers, Fail> {
    Ok(Numbers::from_vec(items.to_vec(alloc)?))
}

fn source_of(alloc: Global, text: &str, failing: &[u64]) -> Result<MemorySource, Fail> {
    Ok(MemorySource::new(
        Bytes::from_slice(alloc, text.as_bytes())?,
        numbers(alloc, failing)?,
    ))
}

/// The taps of the inputs.
fn taps_of(alloc: Global, given: &Given<'_>) -> Result<Vec<Tap<MemorySource, MemorySink>>, Fail> {
    let mut taps = Vec::new(alloc);
    for text in given.inputs {
        taps.push(Tap {
            input: source_of(alloc, *text, given.broken)?,
            told: MemorySink::new(alloc, numbers(alloc, given.deaf)?),
        })?;
    }
    Ok(taps)
}

/// What a log left: its status, that and the text that it printed, what each source was told, and the disks of its parts.
#[derive(Drop)]
pub struct Left {
    pub status: u8,
    pub line: String,
    pub told: Vec<String>,
    pub disks: Vec<MemoryDisk>,
}

/// What each source was told.
fn told_of(alloc: Global, taps: Vec<Tap<MemorySource, MemorySink>>) -> Result<Vec<String>, Fail> {
    let mut told = Vec::new(alloc);
    for tap in taps {
        let text = str::from_utf8(tap.told.bytes())?;
        told.push(format!(in alloc; "{text}")?)?;
    }
    Ok(told)
}

/// Runs a log.
pub fn logged<R>(rt: &R, given: Given<'_>) -> Result<Left, Fail>
where
    R: AllocGlobal + Threads + Wait + Sync,
{
    let alloc = rt.alloc();
    let output = Bytes::from_slice(alloc, b"out")?;
    let mut setup = source_of(alloc, given.setup, given.unread)?;
    let mut sink = MemorySink::new(alloc, numbers(alloc, given.failing)?);
    let mut disks = FailingDisks::new(alloc, given.calls);
    let taps = taps_of(alloc, &given)?;
    let Logged {
        status,
        end: _,
        taps,
    } = run_log(
        rt, alloc, &output, 0, &mut setup, taps, &mut sink, &mut disks,
    );
    let text = str::from_utf8(sink.bytes())?;
    let line = format!(in alloc; "{status} {text}")?;
    Ok(Left {
        status,
        line,
        told: told_of(alloc, taps)?,
        disks: disks.kept()?,
    })
}
