// The parts of a rotation.
ghost use Rattle.std.specs.Prelude.{◌≡◌, ◌≤◌, [], None, Ok, length, vec_capacity, All, IfOk};
ghost use Rattle.std.specs.List.{AllZip};
ghost use Rattle.mdf_disk.specs.State.{state_of};
ghost use Rattle.acq_script.specs.Stage.{IsScript};
ghost use Rattle.book_rotate.specs.Part.{IsPart};
ghost use Rattle.mdf_record.specs.Record.{outcome};
ghost use Rattle.mdf_record.specs.Recovers.{AreRecovered};
ghost use Rattle.mdf_rotate.specs.Course.{course_behind};
ghost use Rattle.mdf_rotate.specs.Part.{IsUnused, PartComes, PartsCome, outcomes, states};
ghost use Rattle.mdf_rotate.specs.Words.{part_name};

use crate::course::{Course, RotateEnd, course_behind};
use crate::words::part_name;
use acq_script::Script;
use book_owned::Marks;
use book_rotate::Rotation;
use mdf_command::Fault;
use mdf_disk::Disk;
use mdf_layout::Samples;
use mdf_num::{Bytes, Memory};
use mdf_record::{Gate, Means, Recorded, record_script};
use std::alloc::Global;
use std::sync::Wait;
use std::thread::Threads;

/// A part of a rotation: its disk, the samples that were accepted, and the marks. One that was not begun has none.
#[derive(Drop)]
pub struct Part<C> {
    pub out: C,
    pub history: Samples,
    pub marks: Marks,
}

/// A part of which nothing was recorded.
fn unused<C: Disk>(alloc: Global, out: C) -> Part<C>
    requires { C.asked out ≡ None }
    ensures unused { IsUnused (state_of C.Disk out) (outcome C.Disk result.out result.history.items result.marks.items) }
    ensures out { result.out ≡ out }
    ensures recovered { AreRecovered (C.moment out) (outcome C.Disk result.out result.history.items result.marks.items) }
{
    Part {
        out,
        history: Samples::empty(alloc),
        marks: Marks::empty(alloc),
    }
}

/// What a recording leaves as a part, and how it ended.
fn part_of<C>(recorded: Recorded<C>, rest: Rotation) -> (Part<C>, Course)
    ensures out { result.0.out ≡ recorded.out }
    ensures history { result.0.history ≡ recorded.history }
    ensures marks { result.0.marks ≡ recorded.marks }
    ensures course { result.1 ≡ course_behind recorded.end rest }
{
    let Recorded {
        end,
        out,
        history,
        marks,
    } = recorded;
    (
        Part {
            out,
            history,
            marks,
        },
        course_behind(&end, rest),
    )
}

/// Cuts the next part off what is left: its name, its script, and what is left behind it.
fn cut_next(
    alloc: Global,
    output: &Bytes,
    number: u64,
    left: Rotation,
) -> Result<(Bytes, Script, Rotation), Memory>
    ensures name { IfOk result (λ cut. cut.0 ≡ part_name output.now number) }
    ensures part { IfOk result (λ cut. IsPart left cut.1 cut.2) }
    ensures script { IfOk result (λ cut. IsScript cut.1) }
{
    let name = part_name(alloc, output, number)?;
    let (script, rest) = left.next_part(alloc)?;
    Ok((name, script, rest))
}

/// Records the next part of what is left onto a disk.
fn record_next<R, C, G>(
    means: &Means<'_, R, G>,
    output: &Bytes,
    number: u64,
    left: Rotation,
    out: C,
) -> (Part<C>, Course)
where
    R: Threads + Wait + Sync,
    C: Disk + Send,
    G: Gate + Sync,
    requires { C.asked out ≡ None }
    ensures comes { PartComes output.now means.now.now_ns number (state_of C.Disk out)
        (outcome C.Disk result.0.out result.0.history.items result.0.marks.items) (Ok left) result.1 }
    ensures untouched { C.asked result.0.out ≡ None → result.0.out ≡ out }
    ensures recovered { AreRecovered (C.moment out) (outcome C.Disk result.0.out result.0.history.items result.0.marks.items) }
{
    match cut_next(means.alloc, output, number, left) {
        Ok((name, script, rest)) => {
            let recorded = record_script(means, &name, Ok(script), out);
            part_of(recorded, rest)
        }
        Err(_) => (
            unused(means.alloc, out),
            Err(RotateEnd::Faulted(Fault::Memory)),
        ),
    }
}

/// Does with a disk what the course of a rotation says, and answers how it goes on.
fn go_on<R, C, G>(
    means: &Means<'_, R, G>,
    output: &Bytes,
    number: u64,
    course: Course,
    out: C,
) -> (Part<C>, Course)
where
    R: Threads + Wait + Sync,
    C: Disk + Send,
    G: Gate + Sync,
    requires { C.asked out ≡ None }
    ensures comes { PartComes output.now means.now.now_ns number (state_of C.Disk out)
        (outcome C.Disk result.0.out result.0.history.items result.0.marks.items) course result.1 }
    ensures untouched { C.asked result.0.out ≡ None → result.0.out ≡ out }
    ensures recovered { AreRecovered (C.moment out) (outcome C.Disk result.0.out result.0.history.items result.0.marks.items) }
{
    match course {
        Ok(left) => record_next(means, output, number, left, out),
        Err(end) => (unused(means.alloc, out), Err(end)),
    }
}

/// Leaves the disks as they are, each as a part of which nothing was recorded.
pub(crate) fn leave_all<C: Disk + Drop>(alloc: Global, outs: Vec<C>, parts: &mut Vec<Part<C>>)
    requires none { parts.old.items ≡ [] }
    requires room { length outs.items ≤ vec_capacity parts.old }
    requires asked { All (λ out. C.asked out ≡ None) outs.items }
    ensures unused { AllZip IsUnused (states C.Disk outs.items) (outcomes C.Disk parts.new.items) }
    ensures untouched { AllZip (λ out part. C.asked part.out ≡ None → part.out ≡ out) outs.items parts.new.items }
    ensures recovered { AllZip (λ disk left. AreRecovered disk.moment left) (states C.Disk outs.items) (outcomes C.Disk parts.new.items) }
{
    for out in outs {
        parts.push_reserved(unused(alloc, out));
    }
}

/// Records the parts onto the disks, one behind the other, and answers how the rotation goes on behind the last.
pub(crate) fn record_all<R, C, G>(
    means: &Means<'_, R, G>,
    output: &Bytes,
    course: Course,
    outs: Vec<C>,
    parts: &mut Vec<Part<C>>,
) -> Course
where
    R: Threads + Wait + Sync,
    C: Disk + Send + Drop,
    G: Gate + Sync,
    requires none { parts.old.items ≡ [] }
    requires room { length outs.items ≤ vec_capacity parts.old }
    requires asked { All (λ out. C.asked out ≡ None) outs.items }
    ensures come { PartsCome output.now means.now.now_ns 0 (states C.Disk outs.items) (outcomes C.Disk parts.new.items) course result }
    ensures untouched { AllZip (λ out part. C.asked part.out ≡ None → part.out ≡ out) outs.items parts.new.items }
    ensures recovered { AllZip (λ disk left. AreRecovered disk.moment left) (states C.Disk outs.items) (outcomes C.Disk parts.new.items) }
{
    let mut course = course;
    let mut number = 0;
    for out in outs {
        let (part, next) = go_on(means, output, number, course, out);
        parts.push_reserved(part);
        course = next;
        number += 1;
    }
    course
}
