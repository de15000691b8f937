//! Finalized files of another hand: what `check` and `info` say of them.

use mdf_run_rig::{Asked, FLAGS, File, MARK, Part, all_are_told};
use std::test::Fail;

// The second group's two records in two data blocks of 13 and 5 bytes, which a DL at 1800 lists.
const TWO_DATA_BLOCKS: [Part; 10] = [
    (1184, b"\x08\x07"),
    (1288, b"\x02"),
    (1800, b"##DL\0\0\0\0@\0\0\0\0\0\0\0\x03"),
    (1832, b"H\x07"),
    (1840, b"p\x07"),
    (1848, b"\x01\0\0\0\x02\0\0\0\x0D"),
    (1864, b"##DT\0\0\0\0%"),
    (1896, b"\x03"),
    (1904, b"##DT\0\0\0\0\x1D"),
    (1930, b"\xE0?\x04"),
];

// The first group's acquisition source at 1800, an ECU at a CAN bus, with a name at 1856 and a path at 1888.
const WITH_SOURCE: [Part; 9] = [
    (400, b"\x08\x07"),
    (1800, b"##SI\0\0\0\0\x38\0\0\0\0\0\0\0\x03"),
    (1824, b"\x40\x07"),
    (1832, b"\x60\x07"),
    (1848, b"\x01\x02"),
    (1856, b"##TX\0\0\0\0\x20"),
    (1880, b"ECU"),
    (1888, b"##TX\0\0\0\0\x20"),
    (1912, b"CAN 1"),
];

const CHECK: &[&str] = &["check", "in.mf4"];

const INFO: &[&str] = &["info", "in.mf4"];

// The command, what is changed in the file, and the status and what is printed.
const READ: &[(Asked, &str)] = &[
    (Asked(CHECK, File::TwoGroups, &[], &[], &[]), "0 valid\n"),
    (
        Asked(INFO, File::TwoGroups, &[], &[], &[]),
        "0 version 410\ngroup 0 engine channels 2 samples 2\ngroup 1 gearbox channels 2 samples 1\ngroups 2 samples 3 dropped 0\n",
    ),
    // the cycle count of the first group
    (
        Asked(CHECK, File::TwoGroups, &[(432, b"\x03")], &[], &[]),
        "3 cycles group 0 said 3 found 2\n",
    ),
    (
        Asked(CHECK, File::TwoGroups, &[(432, b"\x01")], &[], &[]),
        "0 readable\n",
    ),
    (
        Asked(INFO, File::TwoGroups, &[(432, b"\x01")], &[], &[]),
        "0 version 410\ngroup 0 engine channels 2 samples 1\ngroup 1 gearbox channels 2 samples 1\ngroups 2 samples 2 dropped 0\n",
    ),
    (
        Asked(CHECK, File::TwoGroups, &TWO_DATA_BLOCKS, &[], &[]),
        "0 valid\n",
    ),
    (
        Asked(INFO, File::TwoGroups, &TWO_DATA_BLOCKS, &[], &[]),
        "0 version 410\ngroup 0 engine channels 2 samples 2\ngroup 1 gearbox channels 2 samples 2\ngroups 2 samples 4 dropped 0\n",
    ),
    (
        Asked(CHECK, File::TwoGroups, &WITH_SOURCE, &[], &[]),
        "0 valid\n",
    ),
    // a source that is none
    (
        Asked(CHECK, File::TwoGroups, &[(400, b"\x08\x07")], &[], &[]),
        "3 block at 1800 is not ##SI\n",
    ),
];

#[test]
fn files_of_other_tools_are_read(rt: HostRuntime) -> Result<(), Fail> {
    all_are_told(&rt, READ)
}

// What is changed in a finalized file whose data group at 168 names the block at 232, and what `check` says: the data are
// compressed, the version is 4.20, and the data group is its own next one.
const REFUSED: &[(Asked, &str)] = &[
    (
        Asked(
            CHECK,
            File::TwoBlocks(313),
            &[(232, b"##DZ"), MARK, FLAGS],
            &[],
            &[],
        ),
        "3 compressed at 232\n",
    ),
    (
        Asked(
            CHECK,
            File::TwoBlocks(313),
            &[(28, b"\xA4\x01"), MARK, FLAGS],
            &[],
            &[],
        ),
        "3 version 420\n",
    ),
    (
        Asked(
            CHECK,
            File::TwoBlocks(313),
            &[(192, b"\xA8"), MARK, FLAGS],
            &[],
            &[],
        ),
        "3 too many DG at 168\n",
    ),
];

#[test]
fn compressed_data_a_later_version_and_a_loop_are_refused(rt: HostRuntime) -> Result<(), Fail> {
    all_are_told(&rt, REFUSED)
}
