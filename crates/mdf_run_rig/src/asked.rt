//! Rows of tables: a command over a file.
ghost use Rattle.std.specs.Prelude.{◌≡◌, None, IfOk};

use crate::files::{File, bytes_of};
use crate::left::told;
use crate::parts::{Part, changed};
use crate::runs::{asking, disk_with};
use mdf_disk::{Disk, MemoryDisk};
use std::sync::Wait;
use std::test::Fail;
use std::thread::Threads;
use test_rig::is_told;

/// The words of a command; a file, and the parts that are put into it; and which calls of its disk and of the sink fail.
pub struct Asked(
    pub &'static [&'static str],
    pub File,
    pub &'static [Part],
    pub &'static [u64],
    pub &'static [u64],
);

/// The disk of that file.
fn disk_of<R>(rt: &R, asked: &Asked) -> Result<MemoryDisk, Fail>
where
    R: AllocGlobal + Threads + Wait + Sync,
    ensures { IfOk result (λ disk. ⟦<MemoryDisk as Disk>⟧.asked disk ≡ None) }
{
    let file = bytes_of(rt, &asked.1)?;
    disk_with(rt.alloc(), changed(rt.alloc(), &file, asked.2)?, asked.3)
}

/// What is printed.
fn asked_told<R>(rt: &R, asked: &Asked) -> Result<String, Fail>
where
    R: AllocGlobal + Threads + Wait + Sync,
{
    let first = disk_of(rt, asked)?;
    told(rt, asking(asked.0, asked.4), first)
}

/// Fails where another text is printed of a row than the one beside it.
pub fn all_are_told<R>(rt: &R, rows: &[(Asked, &str)]) -> Result<(), Fail>
where
    R: AllocGlobal + Threads + Wait + Sync,
{
    for (asked, want) in rows {
        is_told(asked_told(rt, asked), *want)?;
    }
    Ok(())
}
