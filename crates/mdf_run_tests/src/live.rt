//! What the line `live` of a script adds to what is printed of its recording. The file is the same.

use crate::runs::{Recording, all_are_recorded};
use std::test::Fail;

// A script of three samples with a flush after the second; one of two sources; and one with room for one sample alone, of
// 145 bytes.
const COUNTING: &str = "live\ngroup 0 g\nchannel t u64 master\nbegin\n0 1\n0 2\n! 0\n0 3\nend\n";

const TWO_SOURCES: &str =
    "live\ngroup 0 a\nchannel x u8\ngroup 1 b\nchannel y u8\nbegin\n0 1\n0 2\n1 7\n1 8\nend\n";

const SHORT_SESSION: &str =
    "session 200\nlive\ngroup 0 g\nchannel t u64 master\nbegin\n0 1\n0 2\n! 0\n0 3\nend\n";

// A script; which calls of the disk and of the sink fail; the status and what is printed, with what is left.
const LIVE: &[(Recording, &str)] = &[
    (
        Recording(COUNTING, &[], &[], &[]),
        "0 source 0 accepted 3\nsamples 3 durable 3\nlive 3\nfile 857 history 3 marks [0, 2, 3]",
    ),
    (
        Recording(TWO_SOURCES, &[], &[], &[]),
        "0 source 0 accepted 2\nsource 1 accepted 2\nsamples 4 durable 4\nlive 4\nfile 1129 history 4 marks [0, 4]",
    ),
    (
        Recording(SHORT_SESSION, &[], &[], &[]),
        "5 source 0 accepted 1\nsamples 1 durable 1\nsession full 145 145 200\nfile 809 history 1 marks [0, 1]",
    ),
    (
        Recording(COUNTING, &[], &[8], &[]),
        "4 source 0 accepted 2\nsamples 2 durable 0\ndevice fault\nfile 769 history 2 marks [0]",
    ),
    (
        Recording(COUNTING, &[], &[12], &[]),
        "4 source 0 accepted 3\nsamples 3 durable 2\ndevice fault\nfile 817 history 3 marks [0, 2]",
    ),
    (
        Recording(COUNTING, &[], &[], &[2]),
        "6 source 0 accepted 3\nsamples 3 durable 3\nfile 857 history 3 marks [0, 2, 3]",
    ),
];

#[test]
fn live_line(rt: HostRuntime) -> Result<(), Fail> {
    all_are_recorded(&rt, LIVE)
}
