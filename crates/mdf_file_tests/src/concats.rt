use crate::exports::table_told;
use crate::measurements::changed;
use mdf_disk::{Disk, MemoryDisk, Role};
use mdf_num::{Bytes, Memory};
use std::alloc::Global;
use std::test::Fail;
use test_rig::{Told, all_are_told};
use tool_concat::concat;

// The numbers of 8 bytes that are changed in a file of two groups, of both files and of the second alone, a group, and what is
// answered and the table of that group in what was made. The stream of the second group has 11 bytes, and its offsets are 0
// and 7.
const JOINED: &[(Joined, &str)] = &[
    (
        Joined(&[], &[], 0),
        "Ok(Report { groups: 2, samples: 8, dropped: 0 }) index,\n0,7\n1,8\n2,7\n3,8\n",
    ),
    (
        Joined(&[], &[], 1),
        "Ok(Report { groups: 2, samples: 8, dropped: 0 }) index,\n0,x616263\n1,x\n2,x616263\n3,x\n",
    ),
    // the second has other values, and a comment, which is not compared
    (
        Joined(
            &[],
            &[
                (952, 0xffff_fff9_ffff_fffb),
                (360, 1016),
                (1016, 0x5854_2323),
                (1024, 32),
                (1040, 0x61),
            ],
            0,
        ),
        "Ok(Report { groups: 2, samples: 8, dropped: 0 }) index,\n0,7\n1,8\n2,4294967291\n3,4294967289\n",
    ),
    // offsets of 5 bits hold 18
    (
        Joined(&[(864, 5)], &[], 1),
        "Ok(Report { groups: 2, samples: 8, dropped: 0 }) index,\n0,x616263\n1,x\n2,x616263\n3,x\n",
    ),
    // and those of 4 bits do not
    (
        Joined(&[(864, 4)], &[], 1),
        "Err(Wide { group: 1, channel: 0 }) ",
    ),
];

// the numbers that are changed of both files and of the second alone, and what is answered
const REFUSED: &[(Refused, &str)] = &[
    (Refused(&[(0, 0)], &[]), "Err(First(NotMdf)) "),
    (Refused(&[], &[(0, 0)]), "Err(Second(NotMdf)) "),
    // the kind, what it counts, the data type, the first bit, the first byte, and the bits
    (Refused(&[], &[(696, 0x100)]), "Err(Differs { group: 0 }) "),
    (Refused(&[], &[(696, 0x202)]), "Err(Differs { group: 0 }) "),
    (
        Refused(&[], &[(696, 0x10102)]),
        "Err(Differs { group: 0 }) ",
    ),
    (
        Refused(&[(704, 16)], &[(696, 0x100_0102)]),
        "Err(Differs { group: 0 }) ",
    ),
    (
        Refused(&[(704, 16)], &[(696, 0x1_0000_0102)]),
        "Err(Differs { group: 0 }) ",
    ),
    (Refused(&[], &[(704, 31)]), "Err(Differs { group: 0 }) "),
    // the flags, and the position of the invalidation bit, which is not used
    (
        Refused(&[], &[(704, 0x1_0000_0020)]),
        "Err(Differs { group: 0 }) ",
    ),
    (Refused(&[], &[(712, 1)]), "Err(Differs { group: 0 }) "),
    // the name, the unit, and the name of the acquisition
    (
        Refused(
            &[],
            &[(648, 1016), (1016, 0x5854_2323), (1024, 32), (1040, 0x61)],
        ),
        "Err(Differs { group: 0 }) ",
    ),
    (
        Refused(
            &[],
            &[(680, 1016), (1016, 0x5854_2323), (1024, 32), (1040, 0x61)],
        ),
        "Err(Differs { group: 0 }) ",
    ),
    (
        Refused(
            &[],
            &[(336, 1016), (1016, 0x5854_2323), (1024, 32), (1040, 0x61)],
        ),
        "Err(Differs { group: 0 }) ",
    ),
    // how many data bytes a record has, and how many channels
    (
        Refused(&[(704, 16)], &[(392, 2)]),
        "Err(Differs { group: 0 }) ",
    ),
    (Refused(&[], &[(328, 0)]), "Err(Differs { group: 0 }) "),
    // the name of a channel of the second group, and how many groups there are
    (
        Refused(
            &[],
            &[(808, 1016), (1016, 0x5854_2323), (1024, 32), (1040, 0x61)],
        ),
        "Err(Differs { group: 1 }) ",
    ),
    (Refused(&[], &[(192, 0)]), "Err(Differs { group: 1 }) "),
];

// The file with the numbers that are changed of both, and with those of it alone.
fn file_with(alloc: Global, both: &[(usize, u64)], own: &[(usize, u64)]) -> Result<Bytes, Fail> {
    let mut changes = Vec::from_slice(alloc, both)?;
    changes.extend_from_slice(own)?;
    Ok(Bytes::from_vec(changed(alloc, changes.as_slice())?))
}

/// The numbers that are changed of both files and of the second alone, and a group.
struct Joined(&'static [(usize, u64)], &'static [(usize, u64)], u64);

/// What is answered of two files, and the table of the group in what was made.
fn concat_told(
    alloc: Global,
    first: Bytes,
    second: Bytes,
    name: Bytes,
    group: u64,
) -> Result<String, Fail> {
    let mut disk = MemoryDisk::new(alloc);
    if disk.attach(name, Role::Create).is_err() {
        return Err(Fail::new(Memory));
    }
    let answer = concat(alloc, first, second, 0, &mut disk);
    table_told(alloc, &answer, disk.bytes(), group)
}

/// What is answered where these numbers are changed, and the table of the group.
fn joined_told(
    alloc: Global,
    both: &[(usize, u64)],
    own: &[(usize, u64)],
    group: u64,
) -> Result<String, Fail> {
    let name = Bytes::from_slice(alloc, b"both.mf4")?;
    let first = file_with(alloc, both, &[])?;
    let second = file_with(alloc, both, own)?;
    concat_told(alloc, first, second, name, group)
}

impl Told for Joined {
    fn told(&self, alloc: Global) -> Result<String, Fail> {
        joined_told(alloc, self.0, self.1, self.2)
    }
}

/// The numbers that are changed of both files and of the second alone, of which the first group is asked for.
struct Refused(&'static [(usize, u64)], &'static [(usize, u64)]);

impl Told for Refused {
    fn told(&self, alloc: Global) -> Result<String, Fail> {
        joined_told(alloc, self.0, self.1, 0)
    }
}

#[test]
fn files_are_joined(rt: HostRuntime) -> Result<(), Fail> {
    all_are_told(&rt, JOINED)
}

#[test]
fn files_that_differ_are_refused(rt: HostRuntime) -> Result<(), Fail> {
    all_are_told(&rt, REFUSED)
}
