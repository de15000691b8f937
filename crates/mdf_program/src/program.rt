ghost use Rattle.std.specs.Prelude.{◌≡◌, ◌≤◌, None, length, All, IfOk};

use crate::told::tell_refused;
use mdf_disk::Disk;
use mdf_hostfile::{Named, now_ns, read_words, tell, tell_file};
use mdf_num::{Bytes, Memory, Rows};
use mdf_port::{StdSink, StdSource};
use mdf_rotate::{Part, Rotated, run_rotate};
use mdf_run::{Finished, Open, run, run_unread};
use std::io::{Read, Write};
use std::mem::forget;
use std::process::ExitCode;
use std::rt::{Clock, Env};
use std::sync::Wait;
use std::thread::Threads;

/// Whether the words ask for a recording in parts: the first is `rotate`.
fn is_rotation(words: &Rows<Bytes>) -> bool {
    match words.as_slice() {
        [name, ..] => name.as_slice() == b"rotate".as_slice(),
        [] => false,
    }
}

/// Does what the words ask for, and answers the status.
fn finish<R, I, O, F>(
    rt: &R,
    words: &Rows<Bytes>,
    source: &mut StdSource<I>,
    sink: &mut StdSink<O>,
    first: F,
    second: F,
    out: F,
) -> u8
where
    R: AllocGlobal + Clock + Eprint + Threads + Wait + Sync,
    I: Read,
    O: Write,
    F: Disk + Named + Send + Drop,
    requires first { F.Disk.asked first ≡ None }
    requires second { F.Disk.asked second ≡ None }
    requires out { F.Disk.asked out ≡ None }
{
    let mut second = second;
    let Finished {
        status,
        blamed,
        first,
        out,
        history,
        marks: _,
    } = run(
        rt,
        rt.alloc(),
        words,
        now_ns(rt),
        source,
        sink,
        first,
        &mut second,
        out,
        &Open,
    );
    tell_file(rt, &first);
    tell_file(rt, &second);
    tell_file(rt, &out);
    tell_refused(rt, blamed, &first, &second);
    // The memory of all samples goes with the process, at once and not sample by sample.
    forget(history);
    status
}

/// Records in parts, each over a disk of its own, and answers the status.
fn rotate<R, I, O, F>(
    rt: &R,
    words: &Rows<Bytes>,
    source: &mut StdSource<I>,
    sink: &mut StdSink<O>,
    outs: Result<Vec<F>, Memory>,
) -> u8
where
    R: AllocGlobal + Clock + Eprint + Threads + Wait + Sync,
    I: Read,
    O: Write,
    F: Disk + Named + Send + Drop,
    requires some { IfOk outs (λ outs. 1 ≤ length outs.items) }
    requires outs { IfOk outs (λ outs. All (λ out. F.Disk.asked out ≡ None) outs.items) }
{
    let Ok(outs) = outs else {
        return run_unread(sink);
    };
    let Rotated {
        status,
        parts,
        unused: _,
    } = run_rotate(rt, rt.alloc(), words, now_ns(rt), source, sink, outs, &Open);
    for part in parts {
        let Part {
            out,
            history,
            marks: _,
        } = part;
        tell_file(rt, &out);
        forget(history);
    }
    status
}

/// Runs the program over its standard input and standard output, with disks of which nothing was asked yet, for two inputs, for an
/// output, and for the parts of a recording, if there was memory for these; and answers its status.
pub fn start<R, I, O, F>(
    rt: &R,
    input: I,
    output: O,
    first: F,
    second: F,
    out: F,
    parts: Result<Vec<F>, Memory>,
) -> ExitCode
where
    R: Env + AllocGlobal + Clock + Eprint + Threads + Wait + Sync,
    I: Read + Drop,
    O: Write + Drop,
    F: Disk + Named + Send + Drop,
    requires first { F.Disk.asked first ≡ None }
    requires second { F.Disk.asked second ≡ None }
    requires out { F.Disk.asked out ≡ None }
    requires some { IfOk parts (λ parts. 1 ≤ length parts.items) }
    requires parts { IfOk parts (λ parts. All (λ part. F.Disk.asked part ≡ None) parts.items) }
{
    let mut source = StdSource::new(input);
    let mut sink = StdSink::new(output);
    let status = match read_words(rt) {
        Ok(words) => {
            if is_rotation(&words) {
                rotate(rt, &words, &mut source, &mut sink, parts)
            } else {
                finish(rt, &words, &mut source, &mut sink, first, second, out)
            }
        }
        Err(_) => run_unread(&mut sink),
    };
    tell(rt, "standard input", source.last_error());
    tell(rt, "standard output", sink.last_error());
    ExitCode::from(status)
}
