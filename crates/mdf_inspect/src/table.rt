ghost use Rattle.std.specs.Prelude.{◌≡◌, ◌≤◌, length, true, IfErr, IfSome, Some, None};
ghost use Rattle.mdf_format.specs.Cause.{Rose};
ghost use Rattle.mdf_num.specs.Halt.{HaltReason};
ghost use Rattle.mdf_command.specs.Asked.{IsOnlyRead};
ghost use Rattle.mdf_command.specs.Faults.{READING_LIMIT};
ghost use Rattle.mdf_disk.specs.State.{state_of};
ghost use Rattle.mdf_port.specs.State.{sink_state};
ghost use Rattle.mdf_inspect.specs.Export.{EndsExport, PrintsEnd, TableAnswers, TableComes};

use crate::reading::fault_of_want;
use crate::shown::Shown;
use mdf_command::{Fault, READING_LIMIT, open, status_after};
use mdf_disk::Disk;
use mdf_num::{Bytes, Halt, Stop};
use mdf_pages::{Asked, Kept};
use mdf_port::Sink;
use std::alloc::Global;
use std::marker::Brand;
use tool_export::{ExportFault, export_in};

/// How a table ended.
#[derive(Clone, Copy)]
pub enum TableEnd {
    /// All of it was given, with so many samples.
    Given { rows: u64 },
    /// The sink failed.
    Unwritten,
    /// Why not all of it was given.
    Refused(Fault),
}

/// How the table ended for which this was answered, where the count of faults of the disk was `before` and is `now`.
fn end_of(table: Result<u64, Halt<ExportFault>>, before: u64, now: u64) -> TableEnd
    requires later { before ≤ now }
    requires reason { IfErr table (HaltReason true before now) }
    ensures { TableAnswers before now table result }
{
    match table {
        Ok(rows) => TableEnd::Given { rows },
        Err(Halt::Fault(ExportFault::Read(fault))) => TableEnd::Refused(Fault::Read(fault)),
        Err(Halt::Fault(ExportFault::NoGroup { said, groups })) => {
            TableEnd::Refused(Fault::NoGroup { said, groups })
        }
        Err(Halt::Fault(ExportFault::Failed)) => TableEnd::Unwritten,
        Err(Halt::Fault(ExportFault::Memory)) => TableEnd::Refused(Fault::Memory),
        Err(Halt::Failed) => TableEnd::Refused(Fault::Device),
        Err(Halt::Memory) => TableEnd::Refused(fault_of_want(before, now)),
    }
}

/// Gives the table of a group of the attached file of a disk that was asked for `K`, read through pages. The disk is handed
/// back.
fn give_branded<A: Disk, K: Asked, S: Sink>(
    alloc: Global,
    group: u64,
    sink: &mut S,
    first: A,
) -> (TableEnd, A)
    requires attached { A.attached first ≡ true }
    requires asked { A.asked first ≡ K.asked }
    requires short { IfSome (A.content first) (λ file. length file ≤ READING_LIMIT) }
    ensures comes { TableComes group (state_of A.Disk first) (state_of A.Disk result.1)
        (sink_state S.Sink sink.old) (sink_state S.Sink sink.new) result.0 }
    ensures later { S.faults sink.old ≤ S.faults sink.new }
    ensures asked { A.asked result.1 ≡ K.asked }
    ensures content { A.content result.1 ≡ A.content first }
{
    let before = first.faults();
    match Kept::<A, K>::begin(alloc, first) {
        Ok(kept) => {
            let mut kept = kept;
            let table = export_in(alloc, &mut kept, group, sink);
            let first = kept.into_disk();
            let now = first.faults();
            (end_of(table, before, now), first)
        }
        Err((Stop::Failed, first)) => (TableEnd::Refused(Fault::Device), first),
        Err((Stop::Memory, first)) => (TableEnd::Refused(Fault::Memory), first),
    }
}

/// Gives the table of a group of the attached file of a disk, read through pages. The disk is handed back.
fn give_kept<S: Sink, A: Disk>(alloc: Global, group: u64, sink: &mut S, first: A) -> (TableEnd, A)
    requires attached { A.attached first ≡ true }
    requires short { IfSome (A.content first) (λ file. length file ≤ READING_LIMIT) }
    ensures comes { TableComes group (state_of A.Disk first) (state_of A.Disk result.1)
        (sink_state S.Sink sink.old) (sink_state S.Sink sink.new) result.0 }
    ensures later { S.faults sink.old ≤ S.faults sink.new }
    ensures asked { A.asked result.1 ≡ A.asked first }
    ensures content { A.content result.1 ≡ A.content first }
{
    give_branded::<A, Brand, S>(alloc, group, sink, first)
}

/// Gives the table of a group of the file of this name. The disk is handed back.
fn give_table<S: Sink, A: Disk>(
    alloc: Global,
    input: &Bytes,
    group: u64,
    sink: &mut S,
    first: A,
) -> (TableEnd, A)
    requires { A.asked first ≡ None }
    ensures comes { TableComes group (state_of A.Disk first) (state_of A.Disk result.1)
        (sink_state S.Sink sink.old) (sink_state S.Sink sink.new) result.0 }
    ensures later { S.faults sink.old ≤ S.faults sink.new }
    ensures input { IsOnlyRead A.Disk (Some input.now) first result.1 }
{
    let mut first = first;
    match open(input, &mut first, READING_LIMIT) {
        Ok(()) => give_kept(alloc, group, sink, first),
        Err(fault) => (TableEnd::Refused(fault), first),
    }
}

/// Prints why a table is not whole, if it is not, and answers the program's status.
fn report<K: Sink>(sink: &mut K, end: TableEnd) -> u8
    ensures prints { PrintsEnd end (sink_state K.Sink sink.old) (sink_state K.Sink sink.new) result }
    ensures later { K.faults sink.old ≤ K.faults sink.new }
{
    match end {
        TableEnd::Given { .. } => 0,
        TableEnd::Unwritten => 6,
        TableEnd::Refused(fault) => {
            let given = fault.give(sink);
            status_after(given, fault.status())
        }
    }
}

/// `export IN GROUP`: prints a group of a finalized file, which is read through pages, as a table in CSV, or why not. Answers
/// the program's status, with the disk.
pub fn run_export<K: Sink, A: Disk>(
    alloc: Global,
    input: &Bytes,
    group: u64,
    sink: &mut K,
    first: A,
) -> Shown<A>
    requires { A.asked first ≡ None }
    ensures ends { EndsExport group (state_of A.Disk first) (state_of A.Disk result.first)
        (sink_state K.Sink sink.old) (sink_state K.Sink sink.new) result.status }
    ensures sink_fault { result.status ≡ 6 → Rose (K.faults sink.old) (K.faults sink.new) }
    ensures input { IsOnlyRead A.Disk (Some input.now) first result.first }
{
    let (end, first) = give_table(alloc, input, group, sink, first);
    let status = report(sink, end);
    Shown { status, first }
}
