// Making a file of another one with a tool.
ghost use Rattle.std.specs.Prelude.{◌≡◌, Some, None};
ghost use Rattle.mdf_disk.specs.Crash.{HoldsSince};
ghost use Rattle.mdf_disk.specs.State.{state_of};
ghost use Rattle.mdf_port.specs.State.{sink_state};
ghost use Rattle.mdf_command.specs.Faults.{end_status};
ghost use Rattle.mdf_command.specs.Load.{IsLoaded};
ghost use Rattle.mdf_command.specs.Texts.{Gives, Prints};
ghost use Rattle.mdf_command.specs.Asked.{IsOnlyMade, IsOnlyRead};
ghost use Rattle.mdf_make.specs.Making.{EndsMaking, LeavesOf, MakeComes, MakingComes, one_input, making_text, report_line, rest_line, said_lines};
ghost use Rattle.mdf_make.specs.Tool.{IsImage};

use crate::from::FromOne;
use crate::said::Said;
use crate::tool::Tool;
use mdf_command::Piece::{Number, Text};
use mdf_command::{Fault, give_line, load, status_after, status_of};
use mdf_disk::{Disk, Role};
use mdf_num::{Bytes, Failed};
use mdf_port::Sink;
use mdf_tool::Report;
use std::alloc::Global;

/// Makes a file of these bytes, of this name.
pub(crate) fn make<T: Tool + Drop, C: Disk>(
    alloc: Global,
    tool: T,
    file: Bytes,
    output: &Bytes,
    out: &mut C,
) -> Result<Said, Fault>
    requires { C.asked out.old ≡ None }
    ensures comes { MakeComes (T.makes tool file) (T.refuses tool file) (state_of C.Disk out.old) (state_of C.Disk out.new) result }
    ensures any_moment { HoldsSince (C.story out.new) (C.moment out.old) (IsImage (T.makes tool file)) }
    ensures output { IsOnlyMade C.Disk (Some output.now) out.old out.new }
{
    out.attach(output.copy()?, Role::Create)?;
    tool.make(alloc, file, out)
}

/// Makes a file of the input.
fn make_of<T: Tool + Drop, A: Disk, C: Disk>(
    tool: T,
    from: &FromOne<'_>,
    first: &mut A,
    out: &mut C,
) -> Result<Said, Fault>
    requires first { A.asked first.old ≡ None }
    requires out { C.asked out.old ≡ None }
    ensures comes { MakingComes (one_input (state_of A.Disk first.old) (state_of A.Disk first.new)) (T.makes tool) (T.refuses tool) (state_of C.Disk out.old) (state_of C.Disk out.new) result }
    ensures any_moment { LeavesOf (IsLoaded (state_of A.Disk first.old)) (λ file. IsImage (T.makes tool file)) (state_of C.Disk out.old) (state_of C.Disk out.new) }
    ensures input { IsOnlyRead A.Disk (Some from.now.input.now) first.old first.new }
    ensures output { IsOnlyMade C.Disk (Some from.now.output.now) out.old out.new }
{
    let file = load(from.alloc, from.input, first)?;
    make(from.alloc, tool, file, from.output, out)
}

/// Gives the line on the file that was made.
fn give_report<K: Sink>(sink: &mut K, report: &Report) -> Result<(), Failed>
    ensures { Gives (report_line report.now) (sink_state K.Sink sink.old) (sink_state K.Sink sink.new) result }
{
    give_line(
        sink,
        &[
            Text(b"groups "),
            Number(u64::from(report.groups)),
            Text(b" samples "),
            Number(report.samples),
            Text(b" dropped "),
            Number(report.dropped),
        ],
    )
}

/// Gives the line on the rest of a file that was completed, and nothing of any other.
fn give_rest<K: Sink>(sink: &mut K, rest: Option<u64>) -> Result<(), Failed>
    ensures { Gives (rest_line rest) (sink_state K.Sink sink.old) (sink_state K.Sink sink.new) result }
{
    match rest {
        None => Ok(()),
        Some(rest) => give_line(sink, &[Text(b"rest "), Number(rest)]),
    }
}

/// Gives both.
fn give_said<K: Sink>(sink: &mut K, said: &Said) -> Result<(), Failed>
    ensures { Gives (said_lines said.now) (sink_state K.Sink sink.old) (sink_state K.Sink sink.new) result }
{
    give_report(sink, &said.report)?;
    give_rest(sink, said.rest)
}

/// Gives the lines with which a command ends.
fn give_end<K: Sink>(sink: &mut K, end: &Result<Said, Fault>) -> Result<(), Failed>
    ensures { Gives (making_text end.now) (sink_state K.Sink sink.old) (sink_state K.Sink sink.new) result }
{
    match end {
        Ok(said) => give_said(sink, said),
        Err(fault) => fault.give(sink),
    }
}

/// Prints how a command ended, and answers the program's status.
pub(crate) fn report<K: Sink>(sink: &mut K, end: &Result<Said, Fault>) -> u8
    ensures { Prints (making_text end.now) (end_status end.now) (sink_state K.Sink sink.old) (sink_state K.Sink sink.new) result }
{
    let given = give_end(sink, end);
    status_after(given, status_of(end))
}

/// Makes a file of another one, and prints what it holds, or why none was made. Answers the program's status.
pub(crate) fn run_tool<T: Tool + Drop, K: Sink, A: Disk, C: Disk>(
    tool: T,
    from: &FromOne<'_>,
    sink: &mut K,
    first: &mut A,
    out: &mut C,
) -> u8
    requires first { A.asked first.old ≡ None }
    requires out { C.asked out.old ≡ None }
    ensures ends { EndsMaking (one_input (state_of A.Disk first.old) (state_of A.Disk first.new)) (T.makes tool) (T.refuses tool) (state_of C.Disk out.old) (state_of C.Disk out.new)
        (sink_state K.Sink sink.old) (sink_state K.Sink sink.new) result }
    ensures any_moment { LeavesOf (IsLoaded (state_of A.Disk first.old)) (λ file. IsImage (T.makes tool file)) (state_of C.Disk out.old) (state_of C.Disk out.new) }
    ensures input { IsOnlyRead A.Disk (Some from.now.input.now) first.old first.new }
    ensures output { IsOnlyMade C.Disk (Some from.now.output.now) out.old out.new }
{
    let end = make_of(tool, from, first, out);
    report(sink, &end)
}
