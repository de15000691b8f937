ghost use Rattle.std.specs.Prelude.{◌≡◌, ◌≤◌, length, None, IfOk};

use crate::disks::{images_are, name};
use mdf_disk::{Disk, Fuse, MemoryDisk, Role};
use mdf_num::{Bytes, Failed, Memory, Pieces};
use mdf_seal::write_sealed;
use std::alloc::Global;
use std::test::Fail;
use test_rig::{Told, all_are_told};

/// The file `abc`, in three pieces, one of them empty.
fn pieces(alloc: Global) -> Result<Pieces, Memory>
    ensures { IfOk result (λ file. 1 ≤ length file) }
{
    let mut file = Pieces::empty(alloc);
    file.push(Bytes::from_slice(alloc, b"a")?)?;
    file.push(Bytes::empty(alloc))?;
    file.push(Bytes::from_slice(alloc, b"bc")?)?;
    Ok(file)
}

/// Makes a file under a seal: `abc` in seven calls.
fn make_sealed<D: Disk>(name: Bytes, file: &Pieces, disk: &mut D) -> Result<(), Failed>
    requires asked { D.asked disk.old ≡ None }
    requires some { 1 ≤ length file.now }
{
    disk.attach(name, Role::Create)?;
    write_sealed(disk, file)
}

// The call, the pick and the image. The file is made by an attach (call 0), a write of the closed byte (1), a sync (2), a
// write of the rest (3), a sync (4), a write of the first byte (5) and a sync (6).
const IMAGES: &[(u64, u8, &[u8])] = &[
    (1, 0, b""),
    (1, 1, b"\0"),
    (1, 2, b"\xFF"),
    (1, 3, b"#"),
    (2, 1, b"\0"),
    (3, 0, b"\0"),
    (3, 1, b"\0bc"),
    (3, 2, b"\0\xFF\xFF"),
    (3, 3, b"\0##"),
    (4, 0, b"\0"),
    (4, 2, b"\0\xFF\xFF"),
    (5, 0, b"\0bc"),
    (5, 1, b"abc"),
    (5, 2, b"\xFFbc"),
    (5, 3, b"#bc"),
    (6, 1, b"abc"),
    (6, 3, b"#bc"),
];

#[test]
fn images_of_a_sealed_file(rt: HostRuntime) -> Result<(), Fail> {
    let name = name(rt.alloc())?;
    let file = pieces(rt.alloc())?;
    let mut disk = MemoryDisk::new(rt.alloc());
    let _made = make_sealed(name, &file, &mut disk);
    images_are(&rt, &disk, IMAGES)
}

/// A file that is made under a seal by so many calls, behind which the disk is out of reach.
struct Stopped(u64);

/// Whether the file was made, how many calls came to the disk under the fuse, the count of faults, and the content.
fn sealed_line(alloc: Global, made: bool, fuse: &Fuse<MemoryDisk>) -> Result<String, Memory> {
    let disk = fuse.disk();
    let counts = (made, disk.calls(), fuse.faults());
    Ok(format!(in alloc; "{counts:?} {:?}", disk.bytes())?)
}

/// Makes the file on this disk by so many calls.
fn sealed_told(alloc: Global, name: Bytes, disk: MemoryDisk, calls: u64) -> Result<String, Memory>
    requires { ⟦<MemoryDisk as Disk>⟧.asked disk ≡ None }
{
    let file = pieces(alloc)?;
    let mut fuse = Fuse::new(disk, calls);
    let made = make_sealed(name, &file, &mut fuse).is_ok();
    sealed_line(alloc, made, &fuse)
}

impl Told for Stopped {
    fn told(&self, alloc: Global) -> Result<String, Fail> {
        let name = name(alloc)?;
        let disk = MemoryDisk::new(alloc);
        Ok(sealed_told(alloc, name, disk, self.0)?)
    }
}

// How many calls are passed on, and what is told.
const STOPPED: &[(Stopped, &str)] = &[
    (Stopped(0), "(false, 0, 1) []"),
    (Stopped(1), "(false, 1, 1) []"),
    (Stopped(2), "(false, 2, 1) [0]"),
    (Stopped(3), "(false, 3, 1) [0]"),
    (Stopped(4), "(false, 4, 1) [0, 98, 99]"),
    (Stopped(5), "(false, 5, 1) [0, 98, 99]"),
    (Stopped(6), "(false, 6, 1) [97, 98, 99]"),
    (Stopped(7), "(true, 7, 0) [97, 98, 99]"),
    (Stopped(8), "(true, 7, 0) [97, 98, 99]"),
];

#[test]
fn each_call_of_a_seal_can_fail(rt: HostRuntime) -> Result<(), Fail> {
    all_are_told(&rt, STOPPED)
}
