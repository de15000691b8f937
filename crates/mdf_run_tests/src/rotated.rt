//! What rotations print, and what they leave.

use crate::rotations::{Given, rotated, rotating, sizes};
use mdf_run_rig::is_told;
use std::sync::Wait;
use std::test::Fail;
use std::thread::Threads;

const ROTATE: &[&str] = &["rotate", "out"];

const USAGE: &str =
    "1 usage: opened IN | record OUT | finalize IN OUT | check IN | info IN | sort IN OUT | cut IN OUT FROM TO | concat A B OUT | export IN GROUP | gen N OUT | attachments IN | attach A B OUT | rotate OUT\n";

// Three samples of one channel, each of which costs 145, of which a session has room for two, for one, for none and for all.
pub const TWO_A_PART: &str =
    "session 290\ngroup 0 g\nchannel t u64 master\nbegin\n0 1\n0 2\n! 0\n0 3\nend\n";

const NEARLY_THREE: &str =
    "session 434\ngroup 0 g\nchannel t u64 master\nbegin\n0 1\n0 2\n! 0\n0 3\nend\n";

pub const ONE_A_PART: &str =
    "session 289\ngroup 0 g\nchannel t u64 master\nbegin\n0 1\n0 2\n! 0\n0 3\nend\n";

const JUST_ONE: &str =
    "session 145\ngroup 0 g\nchannel t u64 master\nbegin\n0 1\n0 2\n! 0\n0 3\nend\n";

const NONE_A_PART: &str =
    "session 144\ngroup 0 g\nchannel t u64 master\nbegin\n0 1\n0 2\n! 0\n0 3\nend\n";

const JUST_THREE: &str =
    "session 435\ngroup 0 g\nchannel t u64 master\nbegin\n0 1\n0 2\n! 0\n0 3\nend\n";

// Sixteen such samples, and seventeen, of which a session has room for one.
const SIXTEEN: &str =
    "session 145\ngroup 0 g\nchannel t u64 master\nbegin\n0 1\n0 2\n0 3\n0 4\n0 5\n0 6\n0 7\n0 8\n0 9\n0 10\n0 11\n0 12\n0 13\n0 14\n0 15\n0 16\nend\n";

const SEVENTEEN: &str =
    "session 145\ngroup 0 g\nchannel t u64 master\nbegin\n0 1\n0 2\n0 3\n0 4\n0 5\n0 6\n0 7\n0 8\n0 9\n0 10\n0 11\n0 12\n0 13\n0 14\n0 15\n0 16\n0 17\nend\n";

// Two sources of two samples that cost 138 each, of which a session has room for two, and for one.
const TWO_OF_FOUR: &str =
    "session 276\ngroup 0 a\nchannel x u8\ngroup 1 b\nchannel y u8\nbegin\n0 1\n0 2\n1 7\n1 8\nend\n";

const ONE_OF_FOUR: &str =
    "session 275\ngroup 0 a\nchannel x u8\ngroup 1 b\nchannel y u8\nbegin\n0 1\n0 2\n1 7\n1 8\nend\n";

// Three values of variable length, which cost 151, 152 and 153.
pub const VALUES: &str =
    "session 303\ngroup 0 g\nchannel v var\nbegin\n0 x61\n0 x6263\n0 x646566\nend\n";

// Two sources of three samples, whose session has room for four; one has all of its samples in the script before the other.
pub const TWO_SOURCES: &str =
    "session 580\ngroup 0 a\nchannel t u64 master\ngroup 1 b\nchannel t u64 master\nbegin\n0 1\n0 2\n0 3\n1 1\n1 2\n1 3\nend\n";

// The second source has the first sample of the script for which there is no room, of a cost of 210; the first source has one of
// 220 behind another.
const LARGE: &str =
    "session 200\ngroup 0 a\nchannel v var\ngroup 1 b\nchannel w var\nbegin\n1 x616161616161616161616161616161616161616161616161616161616161616161616161616161616161616161616161616161616161616161616161\n0 x61\n0 x62626262626262626262626262626262626262626262626262626262626262626262626262626262626262626262626262626262626262626262626262626262626262626262\nend\n";

const NO_SAMPLES: &str = "group 0 g\nchannel t u64 master\nbegin\nend\n";

const LIVE: &str =
    "session 290\nlive\ngroup 0 g\nchannel t u64 master\nbegin\n0 1\n0 2\n0 3\nend\n";

const NO_SCRIPT: &str = "group 0 g\nchannel t u64 master\nbegin\n0 x\nend\n";

// What is given; the status and the printed text; and of each disk how many bytes its file has, how many samples, and how many of
// these each mark has.
const ROTATED: &[(&str, usize, &str, &str)] = &[
    (
        TWO_A_PART,
        3,
        "0 part 0 samples 2 durable 2\npart 1 samples 1 durable 1\nparts 2 samples 3\n",
        " 817:2 [0, 2] 809:1 [0, 1] 0:0 []",
    ),
    (
        TWO_A_PART,
        2,
        "0 part 0 samples 2 durable 2\npart 1 samples 1 durable 1\nparts 2 samples 3\n",
        " 817:2 [0, 2] 809:1 [0, 1]",
    ),
    (
        TWO_A_PART,
        1,
        "5 part 0 samples 2 durable 2\nparts over 1\n",
        " 817:2 [0, 2]",
    ),
    (
        NEARLY_THREE,
        2,
        "0 part 0 samples 2 durable 2\npart 1 samples 1 durable 1\nparts 2 samples 3\n",
        " 817:2 [0, 2] 809:1 [0, 1]",
    ),
    (
        ONE_A_PART,
        3,
        "0 part 0 samples 1 durable 1\npart 1 samples 1 durable 1\npart 2 samples 1 durable 1\nparts 3 samples 3\n",
        " 809:1 [0, 1] 809:1 [0, 1] 809:1 [0, 1]",
    ),
    (
        JUST_ONE,
        3,
        "0 part 0 samples 1 durable 1\npart 1 samples 1 durable 1\npart 2 samples 1 durable 1\nparts 3 samples 3\n",
        " 809:1 [0, 1] 809:1 [0, 1] 809:1 [0, 1]",
    ),
    (
        NONE_A_PART,
        3,
        "5 session full 0 145 144\n",
        " 0:0 [] 0:0 [] 0:0 []",
    ),
    (
        JUST_THREE,
        2,
        "0 part 0 samples 3 durable 3\nparts 1 samples 3\n",
        " 857:3 [0, 2, 3] 0:0 []",
    ),
    (
        SIXTEEN,
        16,
        "0 part 0 samples 1 durable 1\npart 1 samples 1 durable 1\npart 2 samples 1 durable 1\npart 3 samples 1 durable 1\npart 4 samples 1 durable 1\npart 5 samples 1 durable 1\npart 6 samples 1 durable 1\npart 7 samples 1 durable 1\npart 8 samples 1 durable 1\npart 9 samples 1 durable 1\npart 10 samples 1 durable 1\npart 11 samples 1 durable 1\npart 12 samples 1 durable 1\npart 13 samples 1 durable 1\npart 14 samples 1 durable 1\npart 15 samples 1 durable 1\nparts 16 samples 16\n",
        " 809:1 [0, 1] 809:1 [0, 1] 809:1 [0, 1] 809:1 [0, 1] 809:1 [0, 1] 809:1 [0, 1] 809:1 [0, 1] 809:1 [0, 1] 809:1 [0, 1] 809:1 [0, 1] 809:1 [0, 1] 809:1 [0, 1] 809:1 [0, 1] 809:1 [0, 1] 809:1 [0, 1] 809:1 [0, 1]",
    ),
    (
        SEVENTEEN,
        16,
        "5 part 0 samples 1 durable 1\npart 1 samples 1 durable 1\npart 2 samples 1 durable 1\npart 3 samples 1 durable 1\npart 4 samples 1 durable 1\npart 5 samples 1 durable 1\npart 6 samples 1 durable 1\npart 7 samples 1 durable 1\npart 8 samples 1 durable 1\npart 9 samples 1 durable 1\npart 10 samples 1 durable 1\npart 11 samples 1 durable 1\npart 12 samples 1 durable 1\npart 13 samples 1 durable 1\npart 14 samples 1 durable 1\npart 15 samples 1 durable 1\nparts over 16\n",
        " 809:1 [0, 1] 809:1 [0, 1] 809:1 [0, 1] 809:1 [0, 1] 809:1 [0, 1] 809:1 [0, 1] 809:1 [0, 1] 809:1 [0, 1] 809:1 [0, 1] 809:1 [0, 1] 809:1 [0, 1] 809:1 [0, 1] 809:1 [0, 1] 809:1 [0, 1] 809:1 [0, 1] 809:1 [0, 1]",
    ),
    (
        TWO_OF_FOUR,
        3,
        "0 part 0 samples 2 durable 2\npart 1 samples 2 durable 2\nparts 2 samples 4\n",
        " 1129:2 [0, 2] 1129:2 [0, 2] 0:0 []",
    ),
    (
        ONE_OF_FOUR,
        4,
        "0 part 0 samples 1 durable 1\npart 1 samples 1 durable 1\npart 2 samples 1 durable 1\npart 3 samples 1 durable 1\nparts 4 samples 4\n",
        " 1129:1 [0, 1] 1129:1 [0, 1] 1129:1 [0, 1] 1129:1 [0, 1]",
    ),
    (
        VALUES,
        3,
        "0 part 0 samples 2 durable 2\npart 1 samples 1 durable 1\nparts 2 samples 3\n",
        " 929:2 [0, 2] 921:1 [0, 1] 0:0 []",
    ),
    (
        NO_SAMPLES,
        2,
        "0 part 0 samples 0 durable 0\nparts 1 samples 0\n",
        " 769:0 [0] 0:0 []",
    ),
    (
        LIVE,
        2,
        "0 part 0 samples 2 durable 2\npart 1 samples 1 durable 1\nparts 2 samples 3\n",
        " 817:2 [0, 2] 809:1 [0, 1]",
    ),
    (NO_SCRIPT, 2, "8 script line 4\n", " 0:0 [] 0:0 []"),
];

#[test]
fn scripts_are_recorded_in_parts(rt: HostRuntime) -> Result<(), Fail> {
    for (script, disks, want, parts) in ROTATED {
        let left = rotated(&rt, &rotating(*script, *disks))?;
        is_told(sizes(rt.alloc(), left.rotated.parts.as_slice()), *parts)?;
        is_told(Ok(left.line), *want)?;
    }
    Ok(())
}

// The words; the script and how many disks there are; which of them has a file already; which calls of the source fail; and what
// is printed.
const TOLD: &[(&[&str], &str, usize, usize, &[u64], &str)] = &[
    (
        ROTATE,
        TWO_SOURCES,
        2,
        9,
        &[],
        "0 part 0 samples 4 durable 4\npart 1 samples 2 durable 2\nparts 2 samples 6\n",
    ),
    (ROTATE, LARGE, 2, 9, &[], "5 session full 0 220 200\n"),
    (
        ROTATE,
        TWO_A_PART,
        3,
        1,
        &[],
        "4 part 0 samples 2 durable 2\ndevice fault\n",
    ),
    (ROTATE, TWO_A_PART, 3, 0, &[], "4 device fault\n"),
    (
        ROTATE,
        TWO_A_PART,
        3,
        2,
        &[],
        "0 part 0 samples 2 durable 2\npart 1 samples 1 durable 1\nparts 2 samples 3\n",
    ),
    (ROTATE, TWO_A_PART, 3, 9, &[0], "2 source fault\n"),
    (&["rotate"], TWO_A_PART, 3, 9, &[], USAGE),
    (&["record", "out"], TWO_A_PART, 3, 9, &[], USAGE),
];

#[test]
fn what_is_wrong_is_told(rt: HostRuntime) -> Result<(), Fail> {
    for (words, script, disks, taken, broken, want) in TOLD {
        let given = Given {
            words: *words,
            taken: *taken,
            broken: *broken,
            ..rotating(*script, *disks)
        };
        let left = rotated(&rt, &given)?;
        is_told(Ok(left.line), *want)?;
    }
    Ok(())
}

#[test]
fn a_fault_of_a_disk_or_of_the_sink_is_told(rt: HostRuntime) -> Result<(), Fail> {
    let lost = Given {
        lost: &[0],
        ..rotating(TWO_A_PART, 3)
    };
    is_told(Ok(rotated(&rt, &lost)?.line), "4 device fault\n")?;
    let failing = Given {
        failing: &[0],
        ..rotating(TWO_A_PART, 2)
    };
    let left = rotated(&rt, &failing)?;
    is_told(
        sizes(rt.alloc(), left.rotated.parts.as_slice()),
        " 817:2 [0, 2] 809:1 [0, 1]",
    )?;
    is_told(Ok(left.line), "6 ")
}
