//! What `finalize` makes of a recording, and `sort` of a finished file.

use mdf_num::Bytes;
use mdf_run_rig::{
    COUNTING, EMPTY, FINALIZE, File, Given, LISTED, Left, Part, SORT, THREE_TEXTS, all_stand,
    bytes_of, made_of, sorted,
};
use std::process::Abort;
use std::sync::Wait;
use std::test::Fail;
use std::thread::Threads;

// The sorted file of the finished one of three samples: its history has a third entry, at 584 with its MD at 640; then come DG at
// 792, CG at 856 with its name at 960, CN at 992 with its name at 1152, and the records, without ids, in the DT at 1184.
const SORTED: [Part; 11] = [
    (0, b"MDF     4.10    mdf4rec "),
    (584, b"##FH"),
    (640, b"##MD"),
    (792, b"##DG"),
    (856, b"##CG"),
    (960, b"##TX"),
    (992, b"##CN"),
    (1152, b"##TX"),
    (1184, b"##DT\0\0\0\0\x30\0\0\0\0\0\0\0"),
    (1208, b"\x01\0\0\0\0\0\0\0\x02\0\0\0\0\0\0\0"),
    (1224, b"\x03\0\0\0\0\0\0\0"),
];

// The sorted file of the values of variable length empty, `ab` and `c`: the group's count of 3 at 936, the link of its channel to the
// values at 1056, the offsets 0, 4 and 10 in the DT at 1184, and in the SD at 1232 the values, each behind its length: 15 bytes.
const TEXTS_SORTED: [Part; 7] = [
    (928, b"\0\0\0\0\0\0\0\0\x03\0\0\0\0\0\0\0"),
    (1056, b"\xD0\x04\0\0\0\0\0\0"),
    (1184, b"##DT\0\0\0\0\x30\0\0\0\0\0\0\0\0\0\0\0\0\0\0\0"),
    (1208, b"\0\0\0\0\0\0\0\0\x04\0\0\0\0\0\0\0"),
    (1224, b"\x0A\0\0\0\0\0\0\0"),
    (1232, b"##SD\0\0\0\0\x27\0\0\0\0\0\0\0\0\0\0\0\0\0\0\0"),
    (1256, b"\0\0\0\0\x02\0\0\0ab\x01\0\0\0c\0"),
];

// What another tool may leave of it: the cycle count and the length of the block of data are not written.
const OPEN_COUNT: Part = (936, b"\0");

const OPEN_LENGTH: Part = (1192, b"\x18");

// The block of data of the sorted file of the completed one, at 1392.
const TWO_RECORDS: [Part; 2] = [
    (1392, b"##DT\0\0\0\0\x28\0\0\0\0\0\0\0"),
    (1416, b"\x01\0\0\0\0\0\0\0\x02\0\0\0\0\0\0\0"),
];

const THREE_RECORDS: [Part; 2] = [
    (1392, b"##DT\0\0\0\0\x30\0\0\0\0\0\0\0"),
    (1432, b"\x03\0\0\0\0\0\0\0"),
];

// A command and its input; what is printed, how many bytes the file has that is made, and parts of it. The finished file of a
// recording has before its data group, at 584, the identification, HD at 64, FH at 168 with its MD at 224, and FH at 376 with its
// MD at 432. The group's cycle count stands at 728, and its records in the DT at 976.
type Makes = (Given<'static>, File, &'static str, usize, &'static [Part]);

const MADE: &[Makes] = &[
    (
        FINALIZE,
        File::Recorded(EMPTY),
        "0 groups 1 samples 0 dropped 0\n",
        1000,
        &[
            (0, b"MDF     4.10    mdf4rec "),
            (584, b"##DG"),
            (728, b"\0\0\0\0\0\0\0\0"),
            (976, b"##DT\0\0\0\0\x18\0\0\0\0\0\0\0"),
        ],
    ),
    (
        FINALIZE,
        File::Recorded(COUNTING),
        "0 groups 1 samples 3 dropped 0\n",
        1032,
        &[
            (0, b"MDF     4.10    mdf4rec "),
            (728, b"\x03\0\0\0\0\0\0\0"),
            (976, b"##DT\0\0\0\0\x33\0\0\0\0\0\0\0"),
            (1000, b"\x01\x01\0\0\0\0\0\0\0"),
            (1009, b"\x01\x02\0\0\0\0\0\0\0"),
            (1018, b"\x01\x03\0\0\0\0\0\0\0\0\0\0\0\0"),
        ],
    ),
    // so is a recording of form 2
    (
        FINALIZE,
        File::Recorded(LISTED),
        "0 groups 1 samples 3 dropped 0\n",
        1032,
        &[
            (0, b"MDF     4.10    mdf4rec "),
            (60, b"\0\0\0\0"),
            (728, b"\x03\0\0\0\0\0\0\0"),
            (976, b"##DT\0\0\0\0\x33\0\0\0\0\0\0\0"),
            (1000, b"\x01\x01\0\0\0\0\0\0\0"),
            (1009, b"\x01\x02\0\0\0\0\0\0\0"),
            (1018, b"\x01\x03\0\0\0\0\0\0\0\0\0\0\0\0"),
        ],
    ),
    // what is no recording is not finalized
    (
        FINALIZE,
        File::Finished(COUNTING),
        "3 not a recording 0 0\n",
        0,
        &[],
    ),
    // what another tool left unfinished is completed: its count and its length, and the length alone
    (
        FINALIZE,
        File::Unfinished(COUNTING, &[(60, b"\x05"), OPEN_COUNT, OPEN_LENGTH], 1225),
        "0 groups 1 samples 2 dropped 0\nrest 1\n",
        1432,
        &TWO_RECORDS,
    ),
    (
        FINALIZE,
        File::Unfinished(COUNTING, &[(60, b"\x05"), OPEN_COUNT, OPEN_LENGTH], 1232),
        "0 groups 1 samples 3 dropped 0\nrest 0\n",
        1440,
        &THREE_RECORDS,
    ),
    (
        FINALIZE,
        File::Unfinished(COUNTING, &[(60, b"\x04"), OPEN_LENGTH], 1225),
        "3 cycles group 0 said 3 found 2\n",
        0,
        &[],
    ),
    // and its count alone
    (
        FINALIZE,
        File::Unfinished(COUNTING, &[(60, b"\x01"), OPEN_COUNT], 1232),
        "0 groups 1 samples 3 dropped 0\nrest 0\n",
        1440,
        &THREE_RECORDS,
    ),
    // other flags
    (
        FINALIZE,
        File::Unfinished(COUNTING, &[(60, b"\x25"), OPEN_COUNT, OPEN_LENGTH], 1225),
        "3 not a recording 37 0\n",
        0,
        &[],
    ),
    (
        SORT,
        File::Finished(COUNTING),
        "0 groups 1 samples 3 dropped 0\n",
        1232,
        &SORTED,
    ),
    (
        SORT,
        File::Finished(THREE_TEXTS),
        "0 groups 1 samples 3 dropped 0\n",
        1272,
        &TEXTS_SORTED,
    ),
    // a recording is not sorted
    (
        SORT,
        File::Recorded(COUNTING),
        "3 unfinalized 33 1\n",
        0,
        &[],
    ),
];

/// Asserts what is printed, how long the file is that was made, and parts of it.
fn is_made<R: Abort>(
    rt: &R,
    made: &Left,
    want: &str,
    length: usize,
    parts: &[Part],
) -> Result<(), Fail> {
    assert_eq!(rt; made.line.as_str(), want);
    assert_eq!(rt; made.file.as_slice().len(), length);
    all_stand(made.file.as_slice(), parts)
}

/// Asserts that of a row.
fn row_is_made<R>(rt: &R, row: &Makes) -> Result<(), Fail>
where
    R: AllocGlobal + Threads + Wait + Sync + Abort,
{
    let (given, file, want, length, parts) = row;
    let made = made_of(rt, *given, bytes_of(rt, file)?)?;
    is_made(rt, &made, *want, *length, *parts)
}

#[test]
fn recordings_are_finalized_and_finished_files_are_sorted(rt: HostRuntime) -> Result<(), Fail> {
    for row in MADE {
        row_is_made(&rt, row)?;
    }
    Ok(())
}

// Two groups of one source, of a number and of a value of variable length. The six orders in which two samples of the one and two
// of the other can come.
const TWO_GROUPS: &str =
    "block 64\ngroup 0 a\nchannel x u64\ngroup 0 b\nchannel note vartext\nbegin\n";

const ORDERS: [&str; 6] = [
    "0 1\n0 2\n1 x6869\n1 x21\n",
    "0 1\n1 x6869\n0 2\n1 x21\n",
    "0 1\n1 x6869\n1 x21\n0 2\n",
    "1 x6869\n0 1\n0 2\n1 x21\n",
    "1 x6869\n0 1\n1 x21\n0 2\n",
    "1 x6869\n1 x21\n0 1\n0 2\n",
];

// The sorted file of each: from 792 on DG, CG, its name, CN and its name of the one group, and at 1184 its records; from 1224 on
// those of the other, at 1616 its offsets, and at 1656 its values, each behind its length.
const TWO_SORTED: [Part; 6] = [
    (792, b"##DG"),
    (1184, b"##DT\0\0\0\0\x28\0\0\0\0\0\0\0"),
    (1208, b"\x01\0\0\0\0\0\0\0\x02\0\0\0\0\0\0\0##DG"),
    (1616, b"##DT\0\0\0\0\x28\0\0\0\0\0\0\0"),
    (1640, b"\0\0\0\0\0\0\0\0\x06\0\0\0\0\0\0\0##SD"),
    (1680, b"\x02\0\0\0hi\x01\0\0\0!\0\0\0\0\0"),
];

/// The sorted file of the finished recording of the samples in this order.
fn sorted_of<R>(rt: &R, order: &str) -> Result<Bytes, Fail>
where
    R: AllocGlobal + Threads + Wait + Sync,
{
    let script = format!(in rt.alloc(); "{TWO_GROUPS}{order}end\n")?;
    sorted(rt, script.as_str())
}

/// Whether that is this file.
fn is_sorted_to<R>(rt: &R, order: &str, want: &Bytes) -> Result<bool, Fail>
where
    R: AllocGlobal + Threads + Wait + Sync,
{
    Ok(sorted_of(rt, order)?.as_slice() == want.as_slice())
}

/// Asserts that this is the sorted file of each order.
fn is_two_sorted<R>(rt: &R, want: &Bytes) -> Result<(), Fail>
where
    R: AllocGlobal + Threads + Wait + Sync + Abort,
{
    assert!(rt; want.as_slice().len() == 1696);
    all_stand(want.as_slice(), &TWO_SORTED)?;
    for order in &ORDERS {
        assert!(rt; is_sorted_to(rt, *order, want)?);
    }
    Ok(())
}

#[test]
fn six_orders_one_sorted_file(rt: HostRuntime) -> Result<(), Fail> {
    is_two_sorted(&rt, &sorted_of(&rt, ORDERS[0])?)
}
