//! The files that commands are asked about, and the commands that make them.

use crate::foreign::{attached, engine_and_gearbox};
use crate::left::file_made;
use crate::parts::{Part, put, recording};
use crate::runs::{Given, record};
use mdf_num::Bytes;
use std::sync::Wait;
use std::test::Fail;
use std::thread::Threads;

// Three samples of one channel, with a flush after the second.
pub const COUNTING: &str = "group 0 g\nchannel t u64 master\nbegin\n0 1\n0 2\n! 0\n0 3\nend\n";

// The same in form 2.
pub const LISTED: &str =
    "form 2\ngroup 0 g\nchannel t u64 master\nbegin\n0 1\n0 2\n! 0\n0 3\nend\n";

// A channel of variable length, whose group of values adds 104 bytes to the head. Each sample has 9 bytes, and 5 and the
// length of its value.
pub const THREE_TEXTS: &str = "group 0 g\nchannel v var\nbegin\n0 x\n0 x6162\n0 x63\nend\n";

// One group with one channel, and no samples.
pub const EMPTY: &str = "group 0 g\nchannel t u64 master\nbegin\nend\n";

pub const FINALIZE_WORDS: &[&str] = &["finalize", "in.mf4", "out.mf4"];

pub const FINALIZE: Given<'static> = Given {
    words: FINALIZE_WORDS,
    script: "",
    second: &[],
    broken: &[],
    lost: &[],
    failing: &[],
};

pub const SORT: Given<'static> = Given {
    words: &["sort", "in.mf4", "out.mf4"],
    ..FINALIZE
};

// What makes a finalized file of a recording: the mark, and the two words of flags in the identification.
pub const MARK: Part = (0, b"MDF     ");

pub const FLAGS: Part = (60, b"\0\0\0\0");

// What says that a file is not finalized.
const UNFINISHED: Part = (0, b"UnFinMF ");

/// A file: so many bytes of the recording of two blocks; the file of the data groups engine and gearbox; the recording of a
/// script; the finished file of one, and its sorted file; so many bytes of that as another tool leaves it unfinished, with these
/// parts put in; and the file of an attachment.
pub enum File {
    TwoBlocks(usize),
    TwoGroups,
    Recorded(&'static str),
    Finished(&'static str),
    Sorted(&'static str),
    Unfinished(&'static str, &'static [Part], usize),
    Attached,
}

/// The finished file of this recording.
pub fn finalized<R>(rt: &R, recording: Bytes) -> Result<Bytes, Fail>
where
    R: AllocGlobal + Threads + Wait + Sync,
{
    file_made(rt, FINALIZE, recording)
}

/// The sorted file of this finished one.
pub fn sorted_from<R>(rt: &R, file: Bytes) -> Result<Bytes, Fail>
where
    R: AllocGlobal + Threads + Wait + Sync,
{
    file_made(rt, SORT, file)
}

/// The finished file of a recording of this script.
pub fn finished<R>(rt: &R, script: &str) -> Result<Bytes, Fail>
where
    R: AllocGlobal + Threads + Wait + Sync,
{
    finalized(rt, recorded(rt, script)?)
}

/// The sorted file of that one.
pub fn sorted<R>(rt: &R, script: &str) -> Result<Bytes, Fail>
where
    R: AllocGlobal + Threads + Wait + Sync,
{
    sorted_from(rt, finished(rt, script)?)
}

/// So many bytes of it where it isn't finalized, with these parts put in.
fn unfinished<R>(rt: &R, script: &str, parts: &[Part], length: usize) -> Result<Bytes, Fail>
where
    R: AllocGlobal + Threads + Wait + Sync,
{
    let mut bytes = sorted(rt, script)?.into_vec();
    bytes.truncate(length);
    put(&mut bytes, UNFINISHED);
    for part in parts {
        put(&mut bytes, *part);
    }
    Ok(Bytes::from_vec(bytes))
}

/// The bytes of a file.
pub fn bytes_of<R>(rt: &R, file: &File) -> Result<Bytes, Fail>
where
    R: AllocGlobal + Threads + Wait + Sync,
{
    match file {
        File::TwoBlocks(length) => recording(rt.alloc(), *length, (0, b"")),
        File::TwoGroups => engine_and_gearbox(rt.alloc()),
        File::Recorded(script) => recorded(rt, *script),
        File::Finished(script) => finished(rt, *script),
        File::Sorted(script) => sorted(rt, *script),
        File::Unfinished(script, parts, length) => unfinished(rt, *script, *parts, *length),
        File::Attached => attached(rt.alloc()),
    }
}

/// The bytes of a recording of this script.
pub fn recorded<R>(rt: &R, script: &str) -> Result<Bytes, Fail>
where
    R: AllocGlobal + Threads + Wait + Sync,
{
    file_made(rt, record(script, &[], &[]), Bytes::empty(rt.alloc()))
}
