//! The commands that read a finalized file.

use mdf_run_rig::{Asked, COUNTING, FLAGS, File, LISTED, MARK, Part, all_are_told};
use std::test::Fail;

// The data link of the recording of three samples names its first block, of two records: the cycle count of the group.
const CYCLES: Part = (520, b"\x02");

const COUNTED: File = File::Recorded(COUNTING);

const CHECK: &[&str] = &["check", "in.mf4"];

const INFO: &[&str] = &["info", "in.mf4"];

// The command; what is put into the recording of three samples; the status and what is printed.
const READ: &[(Asked, &str)] = &[
    (
        Asked(CHECK, COUNTED, &[MARK, FLAGS, CYCLES], &[], &[]),
        "0 valid\n",
    ),
    (
        Asked(CHECK, COUNTED, &[MARK, FLAGS, (520, b"\x01")], &[], &[]),
        "0 readable\n",
    ),
    (Asked(CHECK, COUNTED, &[], &[], &[]), "3 unfinalized 33 1\n"),
    (
        Asked(CHECK, File::Recorded(LISTED), &[], &[], &[]),
        "3 unfinalized 49 3\n",
    ),
    (
        Asked(CHECK, COUNTED, &[MARK, FLAGS, (520, b"\x03")], &[], &[]),
        "3 cycles group 0 said 3 found 2\n",
    ),
    (
        Asked(
            CHECK,
            COUNTED,
            &[MARK, FLAGS, CYCLES, (576, b"X")],
            &[],
            &[],
        ),
        "3 block at 576 is not ##CN\n",
    ),
    (
        Asked(INFO, COUNTED, &[MARK, FLAGS, CYCLES], &[], &[]),
        "0 version 410\ngroup 0 g channels 1 samples 2\ngroups 1 samples 2 dropped 0\n",
    ),
    (
        Asked(
            INFO,
            COUNTED,
            &[MARK, FLAGS, CYCLES, (568, b"\x07")],
            &[],
            &[],
        ),
        "0 version 410\ngroup 0 ? channels 1 samples 2\ngroups 1 samples 2 dropped 0\n",
    ),
    (Asked(INFO, COUNTED, &[(0, b"X")], &[], &[]), "3 not MDF\n"),
];

#[test]
fn a_finalized_file_is_read(rt: HostRuntime) -> Result<(), Fail> {
    all_are_told(&rt, READ)
}
