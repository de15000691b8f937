use crate::exports::table_told;
use crate::measurements::changed;
use mdf_disk::{Disk, MemoryDisk, Role};
use mdf_num::{Bytes, Memory};
use std::alloc::Global;
use std::test::Fail;
use test_rig::{Told, all_are_told};
use tool_cut::cut;

// The numbers of 8 bytes that are changed in a file of two groups, the range of the master, a group, and what is answered and
// the table of that group in what was made. The second group has no master.
const CUTS: &[(Cut, &str)] = &[
    (
        Cut(&[], 7, 9, 0),
        "Ok(Report { groups: 2, samples: 4, dropped: 0 }) index,\n0,7\n1,8\n",
    ),
    (
        Cut(&[], 8, 9, 0),
        "Ok(Report { groups: 2, samples: 3, dropped: 0 }) index,\n0,8\n",
    ),
    (
        Cut(&[], 7, 8, 0),
        "Ok(Report { groups: 2, samples: 3, dropped: 0 }) index,\n0,7\n",
    ),
    (
        Cut(&[], 9, 7, 0),
        "Ok(Report { groups: 2, samples: 2, dropped: 0 }) index,\n",
    ),
    (
        Cut(&[], 0, 0, 1),
        "Ok(Report { groups: 2, samples: 2, dropped: 0 }) index,\n0,x616263\n1,x\n",
    ),
    // the master is signed, and then unsigned, with the same bytes
    (
        Cut(&[(696, 0x20102), (952, 0xffff_fff9_ffff_fffb)], -6, 0, 0),
        "Ok(Report { groups: 2, samples: 3, dropped: 0 }) index,\n0,-5\n",
    ),
    (
        Cut(&[(952, 0xffff_fff9_ffff_fffb)], 4294967290, 4294967296, 0),
        "Ok(Report { groups: 2, samples: 3, dropped: 0 }) index,\n0,4294967291\n",
    ),
    // a channel of kind 2 whose values are texts is no master
    (
        Cut(&[(696, 0x60102)], 0, 0, 0),
        "Ok(Report { groups: 2, samples: 4, dropped: 0 }) index,\n0,x07000000\n1,x08000000\n",
    ),
    (Cut(&[(0, 0)], 0, 9, 0), "Err(Read(NotMdf)) "),
];

/// The numbers that are changed, the range of the master, and a group.
struct Cut(&'static [(usize, u64)], i128, i128, u64);

/// What is answered, and the table of the group in what was made.
fn cut_told(alloc: Global, file: Bytes, name: Bytes, row: &Cut) -> Result<String, Fail> {
    let mut disk = MemoryDisk::new(alloc);
    if disk.attach(name, Role::Create).is_err() {
        return Err(Fail::new(Memory));
    }
    let answer = cut(alloc, file, row.1, row.2, 0, &mut disk);
    table_told(alloc, &answer, disk.bytes(), row.3)
}

impl Told for Cut {
    fn told(&self, alloc: Global) -> Result<String, Fail> {
        let name = Bytes::from_slice(alloc, b"cut.mf4")?;
        let file = Bytes::from_vec(changed(alloc, self.0)?);
        cut_told(alloc, file, name, self)
    }
}

#[test]
fn cuts_are_made(rt: HostRuntime) -> Result<(), Fail> {
    all_are_told(&rt, CUTS)
}
