//! Disks in memory: what a crash leaves, calls that fail, and files that are read.
ghost use Rattle.std.specs.Prelude.{◌≡◌, None, IfOk};

use mdf_disk::{Disk, LoadFault, MemoryDisk, Role, read_whole};
use mdf_num::{Bytes, Failed, Memory, Numbers};
use std::alloc::Global;
use std::process::Abort;
use std::test::Fail;
use test_rig::{Told, all_are_told};

pub fn name(alloc: Global) -> Result<Bytes, Memory> {
    Bytes::from_slice(alloc, b"file")
}

/// A disk without a file that fails at these calls.
pub fn failing_at(alloc: Global, calls: &[u64]) -> Result<MemoryDisk, Memory>
    ensures { IfOk result (λ disk. ⟦<MemoryDisk as Disk>⟧.asked disk ≡ None) }
{
    let calls = Numbers::from_vec(calls.to_vec(alloc)?);
    let mut disk = MemoryDisk::new(alloc);
    disk.fail_at(calls);
    Ok(disk)
}

/// What a crash inside a recorded call may leave.
pub fn image(alloc: Global, disk: &MemoryDisk, call: u64, pick: u8) -> Result<Bytes, Memory> {
    if call >= disk.calls() || pick >= 4 {
        return Bytes::from_slice(alloc, b"no such image");
    }
    disk.image(call, pick)
}

/// Whether a crash inside this call may leave these bytes, by this pick.
fn leaves(
    alloc: Global,
    disk: &MemoryDisk,
    call: u64,
    pick: u8,
    left: &[u8],
) -> Result<bool, Memory> {
    Ok(image(alloc, disk, call, pick)?.as_slice() == left)
}

/// Asserts what a crash may leave: a call, a pick, and the bytes.
pub fn images_are<R: AllocGlobal + Abort>(
    rt: &R,
    disk: &MemoryDisk,
    images: &[(u64, u8, &[u8])],
) -> Result<(), Fail> {
    for (call, pick, left) in images {
        assert!(rt;
            leaves(rt.alloc(), disk, *call, *pick, *left)?,
            "call {call}, pick {pick}"
        );
    }
    Ok(())
}

/// Makes a file in five calls.
fn make<D: Disk>(name: Bytes, disk: &mut D) -> Result<(), Failed>
    requires { D.asked disk.old ≡ None }
{
    disk.attach(name, Role::Create)?;
    disk.write_at(0, b"ab")?;
    disk.sync()?;
    disk.write_at(0, b"x")?;
    disk.sync()
}

// The call, the pick and the image. The file is made by a write of `ab` (call 1), a sync (2), a write of `x` over its
// first byte (3) and a sync (4).
const IMAGES: &[(u64, u8, &[u8])] = &[
    (1, 0, b""),
    (1, 1, b"ab"),
    (1, 2, b"\xFF\xFF"),
    (1, 3, b"##"),
    (2, 0, b""),
    (2, 1, b"ab"),
    (3, 0, b"ab"),
    (3, 1, b"xb"),
    (3, 2, b"\xFFb"),
    (3, 3, b"#b"),
    (4, 0, b"ab"),
    (4, 1, b"xb"),
];

#[test]
fn images_of_writes_and_syncs(rt: HostRuntime) -> Result<(), Fail> {
    let name = name(rt.alloc())?;
    let mut disk = MemoryDisk::new(rt.alloc());
    let _made = make(name, &mut disk);
    images_are(&rt, &disk, IMAGES)
}

/// A file that is made on a disk that fails at this call.
struct Made(u64);

/// Whether the file was made, the disk's count of faults, of calls and its clock, the content, and what a crash inside
/// the last call may leave, with 0xFF in the place of what was not synced.
fn made_line(alloc: Global, made: bool, disk: &MemoryDisk) -> Result<String, Memory> {
    let left = image(alloc, disk, disk.calls().saturating_sub(1), 2)?;
    let counts = (made, disk.faults(), disk.calls(), disk.moment());
    Ok(format!(in alloc; "{counts:?} {:?} {:?}", disk.bytes(), left.as_slice())?)
}

/// Makes the file on this disk.
fn made_told(alloc: Global, name: Bytes, mut disk: MemoryDisk) -> Result<String, Memory>
    requires { ⟦<MemoryDisk as Disk>⟧.asked disk ≡ None }
{
    let made = make(name, &mut disk).is_ok();
    made_line(alloc, made, &disk)
}

impl Told for Made {
    fn told(&self, alloc: Global) -> Result<String, Fail> {
        let name = name(alloc)?;
        let disk = failing_at(alloc, &[self.0])?;
        Ok(made_told(alloc, name, disk)?)
    }
}

// The call that fails, and what is told. A call that failed counts once, and a write that failed as one in flight.
const MADE: &[(Made, &str)] = &[
    (Made(0), "(false, 1, 1, 0) [] []"),
    (Made(1), "(false, 1, 2, 1) [] [255, 255]"),
    (Made(2), "(false, 1, 3, 2) [97, 98] [255, 255]"),
    (Made(3), "(false, 1, 4, 3) [97, 98] [255, 98]"),
    (Made(4), "(false, 1, 5, 4) [120, 98] [255, 98]"),
    (Made(5), "(true, 0, 5, 4) [120, 98] [255, 98]"),
];

#[test]
fn each_call_can_fail(rt: HostRuntime) -> Result<(), Fail> {
    all_are_told(&rt, MADE)
}

/// A file that is attached and read, where this one is there, for this role and up to a limit of bytes.
struct Loaded(Option<&'static [u8]>, Role, u64);

/// A disk that holds this file, or one without a file.
fn disk_of(alloc: Global, file: Option<&[u8]>) -> Result<MemoryDisk, Memory>
    ensures { IfOk result (λ disk. ⟦<MemoryDisk as Disk>⟧.asked disk ≡ None) }
{
    match file {
        Some(bytes) => Ok(MemoryDisk::holding(alloc, Bytes::from_slice(alloc, bytes)?)),
        None => Ok(MemoryDisk::new(alloc)),
    }
}

/// Attaches a file and reads it whole.
fn load(
    alloc: Global,
    name: Bytes,
    disk: &mut MemoryDisk,
    role: Role,
    limit: u64,
) -> Result<Bytes, LoadFault>
    requires { ⟦<MemoryDisk as Disk>⟧.asked disk.old ≡ None }
{
    disk.attach(name, role)?;
    read_whole(alloc, disk, limit)
}

/// The bytes or the fault, and the disk's count of faults and of calls.
fn load_line(
    alloc: Global,
    loaded: &Result<Bytes, LoadFault>,
    disk: &MemoryDisk,
) -> Result<String, Memory> {
    let counts = (disk.faults(), disk.calls());
    Ok(format!(in alloc; "{loaded:?} {counts:?}")?)
}

/// Loads the file of this disk.
fn load_told(
    alloc: Global,
    name: Bytes,
    mut disk: MemoryDisk,
    role: Role,
    limit: u64,
) -> Result<String, Memory>
    requires { ⟦<MemoryDisk as Disk>⟧.asked disk ≡ None }
{
    let loaded = load(alloc, name, &mut disk, role, limit);
    load_line(alloc, &loaded, &disk)
}

impl Told for Loaded {
    fn told(&self, alloc: Global) -> Result<String, Fail> {
        let name = name(alloc)?;
        let disk = disk_of(alloc, self.0)?;
        Ok(load_told(alloc, name, disk, self.1, self.2)?)
    }
}

// What is told of each: a taken name and a missing file are faults.
const LOADED: &[(Loaded, &str)] = &[
    (
        Loaded(Some(b"#b"), Role::Read, 2),
        "Ok(Bytes { items: [35, 98] }) (0, 3)",
    ),
    (
        Loaded(Some(b"#b"), Role::Read, 1),
        "Err(TooLong { size: 2, limit: 1 }) (0, 2)",
    ),
    (
        Loaded(Some(b""), Role::Read, 0),
        "Ok(Bytes { items: [] }) (0, 3)",
    ),
    (Loaded(Some(b"ab"), Role::Create, 9), "Err(Failed) (1, 1)"),
    (Loaded(None, Role::Read, 9), "Err(Failed) (1, 1)"),
    (
        Loaded(None, Role::Create, 9),
        "Ok(Bytes { items: [] }) (0, 3)",
    ),
];

#[test]
fn files_are_attached_and_read(rt: HostRuntime) -> Result<(), Fail> {
    all_are_told(&rt, LOADED)
}
