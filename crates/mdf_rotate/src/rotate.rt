ghost use Rattle.std.specs.Prelude.{ℕ, ◌≡◌, ◌≤◌, ◌↔◌, ◌⊎◌, List, [], None, length, vec_capacity, All};
ghost use Rattle.std.specs.List.{AllZip};
ghost use Rattle.mdf_port.specs.State.{sink_state, source_state};
ghost use Rattle.mdf_rotate.specs.Part.{outcomes, states};
ghost use Rattle.mdf_command.specs.Faults.{fault_line};
ghost use Rattle.mdf_command.specs.Texts.{Prints, usage_line};
ghost use Rattle.mdf_command.specs.declared.fault.Fault.TheVariants.{Memory};
ghost use Rattle.mdf_rotate.specs.Rotate.{CourseComes, EndsRotate, LacksRoom, RotateRuns};
ghost use Rattle.mdf_rotate.specs.Words.{AsksNoRotation, AsksToRotate};

use crate::course::{Course, RotateEnd, begin, end_of};
use crate::part::{Part, leave_all, record_all};
use crate::report::report;
use crate::words::output_in;
use mdf_command::{run_unread, run_usage};
use mdf_disk::Disk;
use mdf_num::{Bytes, Rows};
use mdf_port::{Sink, Source};
use mdf_record::{Gate, Means, read_source};
use std::alloc::Global;
use std::sync::Wait;
use std::thread::Threads;

/// What a rotation leaves: the program's status, a part for each disk, and the disks that are in none of these, for which there
/// was no memory.
#[derive(Drop)]
pub struct Rotated<C> {
    pub status: u8,
    pub parts: Vec<Part<C>>,
    pub unused: Vec<C>,
}

/// The script of the source, of which nothing is recorded yet.
fn course_of<S: Source>(alloc: Global, source: &mut S) -> Course
    ensures { CourseComes (source_state S.Source source.old) (source_state S.Source source.new) result }
{
    match read_source(alloc, source) {
        Ok(script) => begin(alloc, script),
        Err(fault) => Err(RotateEnd::Faulted(fault)),
    }
}

/// Records the script of the source into parts, for which there is room, and prints how that ended. Answers the program's status.
fn rotate<R, S, K, C, G>(
    means: &Means<'_, R, G>,
    output: &Bytes,
    source: &mut S,
    sink: &mut K,
    outs: Vec<C>,
    parts: &mut Vec<Part<C>>,
) -> u8
where
    R: Threads + Wait + Sync,
    S: Source,
    K: Sink,
    C: Disk + Send + Drop,
    G: Gate + Sync,
    requires none { parts.old.items ≡ [] }
    requires room { length outs.items ≤ vec_capacity parts.old }
    requires asked { All (λ out. C.asked out ≡ None) outs.items }
    ensures ends { EndsRotate (source_state S.Source source.old) (source_state S.Source source.new) output.now means.now.now_ns (states C.Disk outs.items)
        (outcomes C.Disk parts.new.items) (sink_state K.Sink sink.old) (sink_state K.Sink sink.new) result }
    ensures untouched { AllZip (λ out part. C.asked part.out ≡ None → part.out ≡ out) outs.items parts.new.items }
{
    let course = course_of(means.alloc, source);
    let course = record_all(means, output, course, outs, parts);
    report(sink, parts.as_slice(), end_of(course))
}

/// Does what the words ask for: records the parts, for which there is room, or prints the usage line and leaves the disks. Answers
/// the program's status.
fn answer<R, S, K, C, G>(
    means: &Means<'_, R, G>,
    words: &Rows<Bytes>,
    source: &mut S,
    sink: &mut K,
    outs: Vec<C>,
    parts: &mut Vec<Part<C>>,
) -> u8
where
    R: Threads + Wait + Sync,
    S: Source,
    K: Sink,
    C: Disk + Send + Drop,
    G: Gate + Sync,
    requires none { parts.old.items ≡ [] }
    requires room { length outs.items ≤ vec_capacity parts.old }
    requires asked { All (λ out. C.asked out ≡ None) outs.items }
    ensures runs { RotateRuns words.now (source_state S.Source source.old) (source_state S.Source source.new) means.now.now_ns (states C.Disk outs.items)
        (outcomes C.Disk parts.new.items) (sink_state K.Sink sink.old) (sink_state K.Sink sink.new) result }
    ensures untouched { AllZip (λ out part. C.asked part.out ≡ None → part.out ≡ out) outs.items parts.new.items }
    ensures usage { (result ≡ 1) ↔ AsksNoRotation words.now }
{
    match output_in(words) {
        Some(output) => rotate(means, output, source, sink, outs, parts),
        None => {
            leave_all(means.alloc, outs, parts);
            run_usage(sink)
        }
    }
}

/// The status of a run for whose parts no memory was found. It takes none.
fn give_up<K: Sink>(words: &Rows<Bytes>, sink: &mut K) -> u8
    ensures usage { AsksNoRotation words.now → Prints usage_line 1 (sink_state K.Sink sink.old) (sink_state K.Sink sink.new) result }
    ensures memory { (output : List ℕ) → AsksToRotate words.now output → Prints (fault_line Memory) 7 (sink_state K.Sink sink.old) (sink_state K.Sink sink.new) result }
{
    match output_in(words) {
        Some(_) => run_unread(sink),
        None => run_usage(sink),
    }
}

/// `rotate OUT`: records the script of the source into the parts `OUT.0`, `OUT.1` and so on, each onto the next of the disks and
/// within the session limit, and prints what each part holds. A disk is asked for nothing before its part begins. Other words are
/// answered with the usage line, and nothing is recorded.
///
/// The room for the parts is found first; where it is not, the disks come back as they are.
pub fn run_rotate<R, S, K, C, G>(
    rt: &R,
    alloc: Global,
    words: &Rows<Bytes>,
    now_ns: u64,
    source: &mut S,
    sink: &mut K,
    outs: Vec<C>,
    gate: &G,
) -> Rotated<C>
where
    R: Threads + Wait + Sync,
    S: Source,
    K: Sink,
    C: Disk + Send + Drop,
    G: Gate + Sync,
    requires some { 1 ≤ length outs.items }
    requires asked { All (λ out. C.asked out ≡ None) outs.items }
    ensures lacked { (result.unused.items ≡ []) ⊎ ((result.unused.items ≡ outs.items) × (result.parts.items ≡ [])
        × LacksRoom words.now (sink_state K.Sink sink.old) (sink_state K.Sink sink.new) result.status) }
    ensures runs { result.unused.items ≡ [] → RotateRuns words.now (source_state S.Source source.old) (source_state S.Source source.new) now_ns (states C.Disk outs.items)
        (outcomes C.Disk result.parts.items) (sink_state K.Sink sink.old) (sink_state K.Sink sink.new) result.status }
    ensures untouched { result.unused.items ≡ [] → AllZip (λ out part. C.asked part.out ≡ None → part.out ≡ out) outs.items result.parts.items }
    ensures usage { (result.status ≡ 1) ↔ AsksNoRotation words.now }
{
    let Ok(mut parts) = Vec::with_capacity(alloc, outs.len()) else {
        return Rotated {
            status: give_up(words, sink),
            parts: Vec::new(alloc),
            unused: outs,
        };
    };
    let means = Means {
        rt,
        alloc,
        now_ns,
        gate,
    };
    let status = answer(&means, words, source, sink, outs, &mut parts);
    Rotated {
        status,
        parts,
        unused: Vec::new(alloc),
    }
}
