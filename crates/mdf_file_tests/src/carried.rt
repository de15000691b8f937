use crate::attachments::{ONE, TWO, lines};
use crate::finalized::{COUNTED, FINALIZED, FRONT, IDENT, MASTER, RECORDED, START, STARTED, TIME};
use crate::sorted::{NOW, SORTED, THREE};
use mdf_attach::read_attachments;
use mdf_disk::{Disk, MemoryDisk, Role};
use mdf_num::{Bytes, Memory};
use std::alloc::Global;
use std::test::Fail;
use test_rig::{Piece, Told, all_are_told, marked_file, shown};
use tool_attach::{CarryFault, Report, attach};

// The body of the new entry of the history, whose time is 0x2122232425262728 ns, and its comment.
const LATER: &[u8; 16] = b"\x28\x27\x26\x25\x24\x23\x22\x21\0\0\0\0\0\0\0\0";

const CARRIED: &[u8; 128] =
    b"<FHcomment><TX>attach</TX><tool_id>mdf4rec</tool_id><tool_vendor>none</tool_vendor><tool_version>1</tool_version></FHcomment>\0\0\0";

const RECORDS: &[u8; 24] = b"\x01\0\0\0\0\0\0\0\x02\0\0\0\0\0\0\0\x03\0\0\0\0\0\0\0";

// The sorted file of a finalized one of three samples.
const SORTED_ONE: &[Piece] = &[
    (64, b"##HD", &[792, 168, 0, 0, 0, 0], START),
    (168, b"##FH", &[376, 224], STARTED),
    (224, b"##MD", &[], RECORDED),
    (376, b"##FH", &[584, 432], TIME),
    (432, b"##MD", &[], FINALIZED),
    (584, b"##FH", &[0, 640], NOW),
    (640, b"##MD", &[], SORTED),
    (792, b"##DG", &[0, 856, 1184, 0], &[0; 8]),
    (856, b"##CG", &[0, 992, 960, 0, 0, 0], THREE),
    (960, b"##TX", &[], b"g\0\0\0\0\0\0\0"),
    (992, b"##CN", &[0, 0, 1152, 0, 0, 0, 0, 0], MASTER),
    (1152, b"##TX", &[], b"t\0\0\0\0\0\0\0"),
    (1184, b"##DT", &[], RECORDS),
];

// What a file made of the sorted one has before its attachments, whose first one the header names.
const AGAIN: &[Piece] = &[
    (64, b"##HD", &[1000, 168, 0, 1440, 0, 0], START),
    (168, b"##FH", &[376, 224], STARTED),
    (224, b"##MD", &[], RECORDED),
    (376, b"##FH", &[584, 432], TIME),
    (432, b"##MD", &[], FINALIZED),
    (584, b"##FH", &[792, 640], NOW),
    (640, b"##MD", &[], SORTED),
    (792, b"##FH", &[0, 848], LATER),
    (848, b"##MD", &[], CARRIED),
    (1000, b"##DG", &[0, 1064, 1392, 0], &[0; 8]),
    (1064, b"##CG", &[0, 1200, 1168, 0, 0, 0], THREE),
    (1168, b"##TX", &[], b"g\0\0\0\0\0\0\0"),
    (1200, b"##CN", &[0, 0, 1360, 0, 0, 0, 0, 0], MASTER),
    (1360, b"##TX", &[], b"t\0\0\0\0\0\0\0"),
    (1392, b"##DT", &[], RECORDS),
];

// The header where there is none.
const NONE: &[Piece] = &[(64, b"##HD", &[1000, 168, 0, 0, 0, 0], START)];

// The one attachment, which a link of the header names, and the two.
const CARRIED_ONE: &[Piece] = &[
    (
        1440,
        b"##AT",
        &[0, 1544, 1576, 0],
        &[
            5, 0, 0, 0, 0, 0, 0, 0, 144, 1, 80, 152, 60, 210, 79, 176, 214, 150, 63, 125, 40, 225,
            127, 114, 3, 0, 0, 0, 0, 0, 0, 0, 3, 0, 0, 0, 0, 0, 0, 0, 97, 98, 99,
        ],
    ),
    (1544, b"##TX", &[], b"a.txt\0\0\0"),
    (1576, b"##TX", &[], b"text/plain\0\0\0\0\0\0"),
];

const CARRIED_TWO: &[Piece] = &[
    (
        1440,
        b"##AT",
        &[1696, 1544, 1576, 1632],
        &[
            5, 0, 1, 0, 0, 0, 0, 0, 37, 213, 90, 210, 131, 170, 64, 10, 244, 100, 199, 109, 113,
            60, 7, 173, 8, 0, 0, 0, 0, 0, 0, 0, 8, 0, 0, 0, 0, 0, 0, 0, 49, 50, 51, 52, 53, 54, 55,
            56,
        ],
    ),
    (1544, b"##TX", &[], b"m.bin\0\0\0"),
    (
        1576,
        b"##TX",
        &[],
        b"application/octet-stream\0\0\0\0\0\0\0\0",
    ),
    (
        1632,
        b"##MD",
        &[],
        b"<ATcomment><TX>x</TX></ATcomment>\0\0\0\0\0\0\0",
    ),
    (
        1696,
        b"##AT",
        &[0, 0, 0, 0],
        &[
            7, 0, 0, 0, 0, 0, 0, 0, 1, 2, 3, 4, 5, 6, 7, 8, 9, 10, 11, 12, 13, 14, 15, 16, 99, 0,
            0, 0, 0, 0, 0, 0, 5, 0, 0, 0, 0, 0, 0, 0, 120, 156, 1, 2, 3,
        ],
    ),
];

/// A file: of zeros, of one or two attachments, or of a measurement, finalized, sorted, and sorted with the one attachment.
#[derive(Clone, Copy)]
enum File {
    Zeros,
    One,
    Two,
    Finalized,
    Sorted,
    Carried,
}

impl File {
    fn bytes(self, alloc: Global) -> Result<Bytes, Fail> {
        let file = match self {
            File::Zeros => marked_file(alloc, 64, &[], &[]),
            File::One => marked_file(alloc, 344, IDENT, &[ONE]),
            File::Two => marked_file(alloc, 544, IDENT, &[TWO]),
            File::Finalized => marked_file(alloc, 1032, IDENT, &[FRONT, COUNTED]),
            File::Sorted => marked_file(alloc, 1232, IDENT, &[SORTED_ONE]),
            File::Carried => marked_file(alloc, 1616, IDENT, &[AGAIN, CARRIED_ONE]),
        }?;
        Ok(Bytes::from_vec(file))
    }
}

/// What is answered where the attachments of the first file are carried into the second, and the file that is made.
fn carry(
    alloc: Global,
    from: File,
    file: File,
) -> Result<(Result<Report, CarryFault>, Bytes), Fail> {
    let name = Bytes::from_slice(alloc, b"all.mf4")?;
    let from = from.bytes(alloc)?;
    let file = file.bytes(alloc)?;
    let mut disk = MemoryDisk::new(alloc);
    if disk.attach(name, Role::Create).is_err() {
        return Err(Fail::new(Memory));
    }
    let answer = attach(
        alloc,
        from.as_slice(),
        file,
        0x2122_2324_2526_2728,
        &mut disk,
    );
    Ok((answer, Bytes::from_slice(alloc, disk.bytes())?))
}

// Two files, and the size and the blocks of the file that is made.
const MADE: &[(File, File, usize, &[&[Piece]])] = &[
    (File::One, File::Sorted, 1616, &[AGAIN, CARRIED_ONE]),
    (File::Two, File::Sorted, 1800, &[AGAIN, CARRIED_TWO]),
    (File::Sorted, File::Sorted, 1440, &[AGAIN, NONE]),
];

fn is_made(
    alloc: Global,
    from: File,
    file: File,
    size: usize,
    tables: &[&[Piece]],
) -> Result<bool, Fail> {
    let want = marked_file(alloc, size, IDENT, tables)?;
    let (_answer, bytes) = carry(alloc, from, file)?;
    Ok(bytes.as_slice() == want.as_slice())
}

#[test]
fn attachments_are_carried(rt: HostRuntime) -> Result<(), Fail> {
    for (from, file, size, tables) in MADE {
        assert!(rt; is_made(rt.alloc(), *from, *file, *size, *tables)?);
    }
    Ok(())
}

// Two files, and what is answered, how many bytes the file has that is made, and its attachments: of each its name, its original size,
// how many bytes are embedded, and the verdict on its MD5.
const TOLD: &[(Carried, &str)] = &[
    (
        Carried(File::One, File::Sorted),
        "Ok(Report { groups: 1, samples: 3, dropped: 0 }) 1616 a.txt 3 3 Ok\n",
    ),
    (
        Carried(File::One, File::Finalized),
        "Ok(Report { groups: 1, samples: 3, dropped: 0 }) 1408 a.txt 3 3 Ok\n",
    ),
    (
        Carried(File::Sorted, File::Sorted),
        "Ok(Report { groups: 1, samples: 3, dropped: 0 }) 1440 ",
    ),
    (
        Carried(File::Sorted, File::Carried),
        "Ok(Report { groups: 1, samples: 3, dropped: 1 }) 1648 ",
    ),
    (
        Carried(File::Carried, File::Carried),
        "Ok(Report { groups: 1, samples: 3, dropped: 1 }) 1824 a.txt 3 3 Ok\n",
    ),
    (
        Carried(File::One, File::One),
        "Ok(Report { groups: 0, samples: 0, dropped: 1 }) 552 a.txt 3 3 Ok\n",
    ),
    (
        Carried(File::Two, File::Sorted),
        "Ok(Report { groups: 1, samples: 3, dropped: 0 }) 1800 m.bin 8 8 Ok\n- 99 5 Unchecked\n",
    ),
    // the first fault is that of the attachments
    (
        Carried(File::Zeros, File::Zeros),
        "Err(From(NotMdf)) 0 NotMdf",
    ),
    (
        Carried(File::One, File::Zeros),
        "Err(File(NotMdf)) 0 NotMdf",
    ),
];

/// The file with the attachments, and the file that they are carried into.
struct Carried(File, File);

impl Told for Carried {
    fn told(&self, alloc: Global) -> Result<String, Fail> {
        let (answer, bytes) = carry(alloc, self.0, self.1)?;
        let len = bytes.as_slice().len();
        let told = match read_attachments(alloc, bytes.as_slice()) {
            Ok(rows) => lines(alloc, rows.as_slice())?,
            Err(fault) => shown(alloc, &fault)?,
        };
        let rows = told.as_str();
        Ok(format!(in alloc; "{answer:?} {len} {rows}")?)
    }
}

#[test]
fn what_is_carried_is_told(rt: HostRuntime) -> Result<(), Fail> {
    all_are_told(&rt, TOLD)
}
