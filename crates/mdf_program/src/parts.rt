// The disks of the parts of a recording.
ghost use Rattle.std.specs.Prelude.{◌≡◌, None, length, All, IfOk};

use mdf_disk::Disk;
use mdf_hostfile::{FileDisk, SystemFile};
use mdf_num::Memory;
use std::fs::File;
use std::rt::Files;

/// How many parts a recording has at most.
const PARTS: usize = 16;

/// A disk for each part, of which nothing was asked yet.
pub fn disks<'a, R: AllocGlobal + Files<File = File>>(
    rt: &'a R,
) -> Result<Vec<FileDisk<SystemFile<'a, R>>>, Memory>
    ensures count { IfOk result (λ disks. length disks.items ≡ 16) }
    ensures asked { IfOk result (λ disks. All (λ disk. ⟦<FileDisk<SystemFile<'a, R>> as Disk>⟧.asked disk ≡ None) disks.items) }
{
    let mut disks = Vec::new(rt.alloc());
    for _ in 0..PARTS {
        disks.push(FileDisk::new(rt))?;
    }
    Ok(disks)
}
