ghost use Rattle.std.specs.Prelude.{◌≡◌, None};

use mdf_disk::{Disk, LoadFault, Role, read_whole};
use mdf_hostfile::FileDisk;
use mdf_num::{Bytes, Failed, Memory};
use std::alloc::Global;
use std::test::Fail;

fn name(alloc: Global) -> Result<Bytes, Memory> {
    Bytes::from_slice(alloc, b"made.mf4")
}

/// Makes a file of five bytes, and answers its size.
fn make<D: Disk>(name: Bytes, disk: &mut D) -> Result<u64, Failed>
    requires { D.asked disk.old ≡ None }
{
    disk.attach(name, Role::Create)?;
    disk.write_at(0, b"abcd")?;
    disk.write_at(2, b"xyz")?;
    disk.sync()?;
    disk.size()
}

/// The size of the file that is made, and the clock of its disk.
fn made(rt: &HostRuntime, name: Bytes) -> Result<(u64, u64), Failed> {
    let mut disk = FileDisk::new(rt);
    let size = make(name, &mut disk)?;
    Ok((size, disk.moment()))
}

/// How often a disk fails that attaches a file of this name.
fn faults(rt: &HostRuntime, name: Bytes, role: Role) -> u64 {
    let mut disk = FileDisk::new(rt);
    let _answer = disk.attach(name, role);
    disk.faults()
}

/// Reads the file whole.
fn read<D: Disk>(alloc: Global, name: Bytes, disk: &mut D) -> Result<Bytes, LoadFault>
    requires { D.asked disk.old ≡ None }
{
    disk.attach(name, Role::Read)?;
    read_whole(alloc, disk, 5)
}

/// The three bytes from 2 on, and then the two from 1 on.
fn read_inside<D: Disk>(name: Bytes, disk: &mut D) -> Result<([u8; 3], [u8; 2]), Failed>
    requires asked { D.asked disk.old ≡ None }
    requires untold { D.content disk.old ≡ None }
{
    let mut three = [0; 3];
    let mut two = [0; 2];
    disk.attach(name, Role::Read)?;
    disk.read_at(2, &mut three)?;
    disk.read_at(1, &mut two)?;
    Ok((three, two))
}

/// Those of the file.
fn inside(rt: &HostRuntime, name: Bytes) -> Result<([u8; 3], [u8; 2]), Failed> {
    let mut disk = FileDisk::new(rt);
    read_inside(name, &mut disk)
}

/// Whether the file has these bytes.
fn has(rt: &HostRuntime, name: Bytes, want: &[u8]) -> Result<bool, LoadFault> {
    let mut disk = FileDisk::new(rt);
    Ok(read(rt.alloc(), name, &mut disk)?.as_slice() == want)
}

/// The size and the clock of the file that is made, and the faults where its name is taken and where a file is missing.
fn counts(rt: &HostRuntime) -> Result<((u64, u64), u64, u64), Fail> {
    let made = made(rt, name(rt.alloc())?)?;
    let taken = faults(rt, name(rt.alloc())?, Role::Create);
    let missing = faults(
        rt,
        Bytes::from_slice(rt.alloc(), b"missing.mf4")?,
        Role::Read,
    );
    Ok((made, taken, missing))
}

#[test]
fn a_real_file_is_made_and_read(rt: HostRuntime) -> Result<(), Fail> {
    assert_eq!(rt; counts(&rt)?, ((5, 5), 1, 1));
    assert!(rt; has(&rt, name(rt.alloc())?, b"abxyz")?);
    assert_eq!(rt; inside(&rt, name(rt.alloc())?)?, (*b"xyz", *b"bx"));
    Ok(())
}
