use crate::finalized::{IDENT as FINALIZED, VARIABLE};
use crate::recorded::{BLOCKS, FH, IDENT, MD};
use mdf_num::Bytes;
use mdf_session::{Session, read_session, session_of};
use std::alloc::Global;
use std::fmt::Debug;
use std::test::Fail;
use test_rig::{Piece, Told, all_are_told, marked_file, shown};

// The numbers 1 and 2, the number 3, a record that ends too early, and one of a group that is not there.
const TWO: &[u8; 18] = b"\x01\x01\0\0\0\0\0\0\0\x01\x02\0\0\0\0\0\0\0";

const THIRD: &[u8; 9] = b"\x01\x03\0\0\0\0\0\0\0";

const SHORT: &[u8; 8] = b"\x01\x03\0\0\0\0\0\0";

const OTHER: &[u8; 9] = b"\x02\x03\0\0\0\0\0\0\0";

// A value of 3 bytes, and the record of two offsets behind it.
const MIXED: &[u8; 25] = b"\x02\x03\0\0\0abc\x01\0\0\0\0\0\0\0\0\0\0\0\0\0\0\0\0";

// A header that names no data group.
const ALONE: Piece = (64, b"##HD", &[0, 168, 0, 0, 0, 0], &[0; 32]);

/// The front of a file: of a recording of one group; the same where the file is finalized; one whose header names no data group;
/// and one of a recording of two channels of variable length.
enum Front {
    Counted,
    Finalized,
    Alone,
    Variable,
}

/// The first 64 bytes of a file, and its head.
type Head = (&'static [u8; 64], &'static [Piece]);

fn head_of(front: &Front) -> Head {
    match front {
        Front::Counted => (&IDENT, BLOCKS),
        Front::Finalized => (FINALIZED, BLOCKS),
        Front::Alone => (&IDENT, &[ALONE, FH, MD]),
        Front::Variable => (&IDENT, VARIABLE),
    }
}

// The front of a file, its blocks of data, its size, and what it is told as: how many records its groups have, how many bytes
// their values, the records, and the dropped links; or why it is no recording.
const TOLD: &[(Recorded, &str)] = &[
    (Recorded(Front::Counted, &[], 769), "[0] [0] [] 0"),
    (
        Recorded(
            Front::Counted,
            &[(768, b"##DT", &[], TWO), (816, b"##DT", &[], THIRD)],
            857,
        ),
        "[3] [0] [1, 1, 0, 0, 0, 0, 0, 0, 0, 1, 2, 0, 0, 0, 0, 0, 0, 0, 1, 3, 0, 0, 0, 0, 0, 0, 0] 0",
    ),
    (
        Recorded(Front::Finalized, &[], 769),
        "NotRecording { std: 0, custom: 0 }",
    ),
    (
        Recorded(Front::Alone, &[], 769),
        "Block { at: 0, want: Dg }",
    ),
    (
        Recorded(
            Front::Counted,
            &[(768, b"##DT", &[], TWO), (816, b"#\0\0\0", &[], &[])],
            857,
        ),
        "Block { at: 816, want: Dt }",
    ),
    (
        Recorded(
            Front::Counted,
            &[(768, b"##DT", &[], TWO), (816, b"##DT", &[], SHORT)],
            857,
        ),
        "Cut { at: 18 }",
    ),
    (
        Recorded(
            Front::Counted,
            &[(768, b"##DT", &[], TWO), (816, b"##DT", &[], OTHER)],
            857,
        ),
        "UnknownId { id: 2, at: 18 }",
    ),
    (
        Recorded(Front::Variable, &[(968, b"##DT", &[], MIXED)], 1025),
        "Offset { channel: 1, row: 0, offset: 0 }",
    ),
];

/// The front of a file, its blocks of data, and its size.
struct Recorded(Front, &'static [Piece], usize);

// The bytes of the file.
fn bytes_of(alloc: Global, row: &Recorded) -> Result<Vec<u8>, Fail> {
    let (ident, head) = head_of(&row.0);
    marked_file(alloc, row.2, ident, &[head, row.1])
}

impl Told for Recorded {
    fn told(&self, alloc: Global) -> Result<String, Fail> {
        let file = bytes_of(alloc, self)?;
        answer_told(alloc, &read_session(alloc, file.as_slice()))
    }
}

/// A recording that is read in its own memory.
struct Taken(Recorded);

// A recording of two blocks, and what it is told as.
const TAKEN: &[(Taken, &str)] = &[(
    Taken(Recorded(
        Front::Counted,
        &[(768, b"##DT", &[], TWO), (816, b"##DT", &[], THIRD)],
        857,
    )),
    "[3] [0] [1, 1, 0, 0, 0, 0, 0, 0, 0, 1, 2, 0, 0, 0, 0, 0, 0, 0, 1, 3, 0, 0, 0, 0, 0, 0, 0] 0",
)];

impl Told for Taken {
    fn told(&self, alloc: Global) -> Result<String, Fail> {
        let file = bytes_of(alloc, &self.0)?;
        answer_told(alloc, &session_of(alloc, Bytes::from_vec(file)))
    }
}

fn parts_told(alloc: Global, session: &Session) -> Result<String, Fail> {
    Ok(format!(in alloc;
        "{:?} {:?} {:?} {}",
        session.counts(),
        session.totals(),
        session.content().as_slice(),
        session.dropped()
    )?)
}

fn answer_told<F: Debug>(alloc: Global, answer: &Result<Session, F>) -> Result<String, Fail> {
    match answer {
        Ok(session) => parts_told(alloc, session),
        Err(fault) => shown(alloc, fault),
    }
}

#[test]
fn recordings_are_read(rt: HostRuntime) -> Result<(), Fail> {
    all_are_told(&rt, TOLD)
}

#[test]
fn recordings_are_read_in_their_own_memory(rt: HostRuntime) -> Result<(), Fail> {
    all_are_told(&rt, TAKEN)
}
