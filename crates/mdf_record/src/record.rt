ghost use Rattle.std.specs.Prelude.{◌≡◌, ◌≤◌, ◌++◌, [], true, None, Ok, Err, IfOk, IfErr};
ghost use Rattle.mdf_disk.specs.State.{state_of};
ghost use Rattle.book_owned.specs.Begun.{IsNewFile};
ghost use Rattle.acq_script.specs.Script.{script_of};
ghost use Rattle.acq_script.specs.Stage.{IsScript};
ghost use Rattle.acq_script.specs.Generated.{generated_script};
ghost use Rattle.mdf_spell.specs.Recording.{head_file};
ghost use Rattle.mdf_group.specs.Recordable.{AreRecordable};
ghost use Rattle.mdf_record.specs.Script.{IsNoScript, SaysScript, ScriptFaultComes};
ghost use Rattle.mdf_record.specs.Finish.{Finishes, MarksLast, ProblemComes};
ghost use Rattle.mdf_record.specs.Created.{IsCreated, IsNotCreated};
ghost use Rattle.mdf_port.specs.State.{sink_state, source_state};
ghost use Rattle.mdf_command.specs.Texts.{Gives, Prints, numbered};
ghost use Rattle.mdf_record.specs.Record.{fault_text, live_text, outcome, record_status, record_text, source_line, summary_text};
ghost use Rattle.mdf_record.specs.Recorded.{RecordComes, Closes, HasRun};
ghost use Rattle.mdf_record.specs.Recovers.{AreRecovered};

use crate::feeds::{RecordedFeeds, Setting, record_feeds};
use crate::gate::Gate;
use crate::head::head_for;
use crate::lines::{give_accepted, give_totals};
use crate::means::Means;
use crate::sources::{Accepted, End, feeds_of};
use acq_run::{Audience, Seen};
use acq_script::{Script, generated, read_script};
use book_owned::{Book, Flush, Marks};
use book_view::Told;
use mdf_carried::what_is_carried_is_recovered;
use mdf_command::Piece::{Number, Text};
use mdf_command::{Fault, SCRIPT_LIMIT, give_line, status_after};
use mdf_disk::{Disk, Role};
use mdf_format::Form;
use mdf_gate::GatedFile;
use mdf_group::GroupRow;
use mdf_layout::Samples;
use mdf_num::{Bytes, Failed, Rows};
use mdf_port::{Sink, Source, take_all};
use std::alloc::Global;
use std::sync::Wait;
use std::thread::Threads;

/// How a recording ended.
#[derive(Drop)]
pub enum RecordEnd {
    /// No book was begun.
    Refused(Fault),
    /// A book was begun and closed: how many samples of each source it accepted, how many in all, how many of them are
    /// durable, how many a reader finds shown, where they are looked at live and nothing went wrong, what went wrong, if
    /// anything did, and what each source had seen of the history at its last turn.
    Closed {
        accepted: Accepted,
        samples: u64,
        durable: u64,
        live: Option<u64>,
        fault: Option<Fault>,
        seen: Seen,
    },
}

/// What a recording leaves.
pub struct Recorded<C> {
    pub end: RecordEnd,
    pub out: C,
    /// The accepted samples, and the marks.
    pub history: Samples,
    pub marks: Marks,
}

/// A recording that was not begun.
pub fn refused<C>(alloc: Global, fault: Fault, out: C) -> Recorded<C>
    ensures end { result.end ≡ RecordEnd.Refused fault }
    ensures out { result.out ≡ out }
    ensures history { result.history.items ≡ [] }
    ensures marks { result.marks.items ≡ [] }
{
    Recorded {
        end: RecordEnd::Refused(fault),
        out,
        history: Samples::empty(alloc),
        marks: Marks::empty(alloc),
    }
}

/// The script that a text is.
fn script_from(alloc: Global, text: &[u8]) -> Result<Script, Fault>
    ensures says { IfOk result (λ script. script_of text.now ≡ Ok script) }
    ensures script { IfOk result IsScript }
    ensures fault { IfErr result (IsNoScript text.now) }
{
    Ok(read_script(alloc, text)?)
}

/// Reads the script of a source, which is taken whole.
pub fn read_source<S: Source>(alloc: Global, source: &mut S) -> Result<Script, Fault>
    ensures says { IfOk result (SaysScript (source_state S.Source source.old) (source_state S.Source source.new)) }
    ensures script { IfOk result IsScript }
    ensures fault { IfErr result (ScriptFaultComes (source_state S.Source source.old) (source_state S.Source source.new)) }
{
    let text = take_all(alloc, source, SCRIPT_LIMIT)?;
    script_from(alloc, text.as_slice())
}

/// Makes the file, with the head of a recording of these groups in this form and no sample.
///
/// # Errors
/// The fault, with the disk: that of the disk, or want of memory.
pub fn create<C: Disk>(
    alloc: Global,
    name: &Bytes,
    now_ns: u64,
    rows: &Rows<GroupRow>,
    form: Form,
    mut out: C,
) -> Result<GatedFile<C>, (Fault, C)>
    requires asked { C.asked out ≡ None }
    requires rows { AreRecordable rows.now }
    ensures created { IfOk result (IsCreated C.Disk name.now form now_ns rows.now out) }
    ensures refused { IfErr result (λ refused. IsNotCreated C.Disk name.now (head_file form now_ns rows.now) out refused.1 refused.0) }
{
    what_is_carried_is_recovered();
    let Ok(head) = head_for(alloc, now_ns, rows, form) else {
        return Err((Fault::Memory, out));
    };
    let Ok(copy) = name.copy() else {
        return Err((Fault::Memory, out));
    };
    let Ok(()) = out.attach(copy, Role::Create) else {
        return Err((Fault::Device, out));
    };
    let made = GatedFile::create(out, head.as_slice());
    drop(head);
    match made {
        Ok(file) => Ok(file),
        Err((_, out)) => Err((Fault::Device, out)),
    }
}

/// What went wrong where the disk did not fail: what the tasks ended with, or want of memory where not all that is marked is
/// shown to those who look at it live.
fn problem_of(driven: Result<(), End>, live: bool, shown: u64, through: u64) -> Option<Fault>
    ensures { ProblemComes driven live shown through result }
{
    match driven {
        Ok(()) if live && shown < through => Some(Fault::Memory),
        Ok(()) => None,
        Err(End::SessionFull { held, size, limit }) => {
            Some(Fault::SessionFull { held, size, limit })
        }
        Err(End::Stopped) => Some(Fault::Device),
        Err(End::Memory) => Some(Fault::Memory),
    }
}

/// Flushes the book a last time, unless it is stopped, and says what went wrong: a fault of the disk before all else, and want
/// of memory also where not all is shown to those who look at it live. Hands out the note of the flush where nothing did.
pub(crate) fn finish<R: Threads + Wait + Sync, C: Disk>(
    rt: &R,
    book: &mut Book<C, Audience>,
    live: bool,
    driven: Result<(), End>,
) -> (Option<Fault>, Option<Told>)
    requires stopped { IfErr driven (λ end_. end_ ≡ End.Stopped → book.old.stopped ≡ true) }
    ensures finishes { Finishes book.old book.new live driven result.0 result.1 }
    ensures last { MarksLast book.old book.new }
{
    match book.flush(rt) {
        Flush::DiskFault { .. } | Flush::Stopped { .. } => (Some(Fault::Device), None),
        Flush::Done {
            through,
            shown,
            note,
        } => match problem_of(driven, live, shown, through) {
            None => (None, note),
            problem => (problem, None),
        },
    }
}

/// Records the tasks of a script into a file that was just created, and closes the book.
fn record_into<R: Threads + Wait + Sync, C: Disk + Send, G: Gate + Sync>(
    means: &Means<'_, R, G>,
    script: Script,
    file: GatedFile<C>,
) -> Recorded<C>
    requires script { IsScript script }
    requires created { IsNewFile C.Disk file }
    ensures recorded { HasRun C.Disk script file (outcome C.Disk result.out result.history.items result.marks.items) result.end }
{
    let alloc = means.alloc;
    let Script { plan, lists } = script;
    let Ok(feeds) = feeds_of(alloc, lists.into_vec(), means.gate) else {
        return refused(alloc, Fault::Memory, file.into_disk());
    };
    let setting = Setting {
        shapes: plan.shapes,
        owners: plan.owners.as_slice(),
        block: plan.block,
        session: plan.session,
        live: plan.live,
    };
    let RecordedFeeds {
        recorded,
        feeds: _feeds,
        all: _all,
    } = record_feeds(means.rt, alloc, setting, file, feeds);
    recorded
}

/// Closes the book, and ends its view.
pub(crate) fn close<R: Wait, C: Disk>(
    rt: &R,
    book: Book<C, Audience>,
    accepted: Accepted,
    live: Option<u64>,
    fault: Option<Fault>,
    seen: Seen,
) -> Recorded<C>
    ensures closes { Closes C.Disk book accepted live fault seen result }
{
    let samples = book.history_len();
    let durable = book.last_mark().through;
    let _stopped = book.stopped();
    let (out, history, marks, view) = book.close();
    view.end(rt);
    Recorded {
        end: RecordEnd::Closed {
            accepted,
            samples,
            durable,
            live,
            fault,
            seen,
        },
        out,
        history,
        marks,
    }
}

/// Records a script into a new file of this name, unless there was a fault in its place.
pub fn record_script<R: Threads + Wait + Sync, C: Disk + Send, G: Gate + Sync>(
    means: &Means<'_, R, G>,
    output: &Bytes,
    script: Result<Script, Fault>,
    out: C,
) -> Recorded<C>
    requires asked { C.asked out ≡ None }
    requires script { IfOk script IsScript }
    ensures comes { RecordComes (λ said. script ≡ Ok said) (λ fault. script ≡ Err fault) output.now means.now.now_ns (state_of C.Disk out)
        (outcome C.Disk result.out result.history.items result.marks.items) result.end }
    ensures untouched { C.asked result.out ≡ None → result.out ≡ out }
    ensures recovered { AreRecovered (C.moment out) (outcome C.Disk result.out result.history.items result.marks.items) }
{
    what_is_carried_is_recovered();
    let alloc = means.alloc;
    match script {
        Ok(script) => match create(
            alloc,
            output,
            means.now_ns,
            &script.plan.rows,
            script.plan.form,
            out,
        ) {
            Ok(file) => record_into(means, script, file),
            Err((fault, out)) => refused(alloc, fault, out),
        },
        Err(fault) => refused(alloc, fault, out),
    }
}

/// Gives a line for each source: how many of its samples were accepted.
fn give_sources<K: Sink>(sink: &mut K, accepted: &[u64]) -> Result<(), Failed>
    ensures { Gives (numbered source_line 0 accepted.now) (sink_state K.Sink sink.old) (sink_state K.Sink sink.new) result }
{
    for (source, samples) in accepted.iter().enumerate() {
        give_accepted(sink, source as u64, *samples as u128)?;
    }
    Ok(())
}

/// Gives the lines on the recording.
fn give_summary<K: Sink>(
    sink: &mut K,
    accepted: &[u64],
    samples: u64,
    durable: u64,
) -> Result<(), Failed>
    ensures { Gives (summary_text accepted.now samples durable) (sink_state K.Sink sink.old) (sink_state K.Sink sink.new) result }
{
    give_sources(sink, accepted)?;
    give_totals(sink, samples as u128, durable as u128)
}

/// Gives the line on what a reader finds shown, if there is one.
fn give_live<K: Sink>(sink: &mut K, live: &Option<u64>) -> Result<(), Failed>
    ensures { Gives (live_text live.now) (sink_state K.Sink sink.old) (sink_state K.Sink sink.new) result }
{
    match live {
        Some(shown) => give_line(sink, &[Text(b"live "), Number(*shown)]),
        None => Ok(()),
    }
}

/// Gives the line of a fault, if there is one.
fn give_fault<K: Sink>(sink: &mut K, fault: &Option<Fault>) -> Result<(), Failed>
    ensures { Gives (fault_text fault.now) (sink_state K.Sink sink.old) (sink_state K.Sink sink.new) result }
{
    match fault {
        Some(fault) => fault.give(sink),
        None => Ok(()),
    }
}

/// Gives the line on what a reader finds shown, if there is one, and then that of a fault.
pub fn give_rest<K: Sink>(
    sink: &mut K,
    live: &Option<u64>,
    fault: &Option<Fault>,
) -> Result<(), Failed>
    ensures { Gives (live_text live.now ++ fault_text fault.now) (sink_state K.Sink sink.old) (sink_state K.Sink sink.new) result }
{
    give_live(sink, live)?;
    give_fault(sink, fault)
}

/// Gives the lines with which the command ends.
fn give_end<K: Sink>(sink: &mut K, end: &RecordEnd) -> Result<(), Failed>
    ensures { Gives (record_text end.now) (sink_state K.Sink sink.old) (sink_state K.Sink sink.new) result }
{
    match end {
        RecordEnd::Refused(fault) => fault.give(sink),
        RecordEnd::Closed {
            accepted,
            samples,
            durable,
            live,
            fault,
            seen: _,
        } => {
            give_summary(sink, accepted.rest(0), *samples, *durable)?;
            give_rest(sink, live, fault)
        }
    }
}

/// The status with which the command ends.
fn status(end: &RecordEnd) -> u8
    ensures { result ≡ record_status end.now }
{
    match end {
        RecordEnd::Refused(fault) => fault.status(),
        RecordEnd::Closed {
            fault: Some(fault),
            ..
        } => fault.status(),
        RecordEnd::Closed { fault: None, .. } => 0,
    }
}

/// Prints how a recording ended, and answers the program's status.
fn report<K: Sink>(sink: &mut K, end: &RecordEnd) -> u8
    ensures { Prints (record_text end.now) (record_status end.now) (sink_state K.Sink sink.old) (sink_state K.Sink sink.new) result }
{
    let given = give_end(sink, end);
    status_after(given, status(end))
}

/// `record OUT`: records the script of the source into a new file, and prints how many samples it holds. Answers the
/// program's status too.
pub fn run_record<R, S, K, C, G>(
    means: &Means<'_, R, G>,
    output: &Bytes,
    source: &mut S,
    sink: &mut K,
    out: C,
) -> (u8, Recorded<C>)
where
    R: Threads + Wait + Sync,
    S: Source,
    K: Sink,
    C: Disk + Send,
    G: Gate + Sync,
    requires { C.asked out ≡ None }
    ensures comes { RecordComes (SaysScript (source_state S.Source source.old) (source_state S.Source source.new))
        (ScriptFaultComes (source_state S.Source source.old) (source_state S.Source source.new))
        output.now means.now.now_ns (state_of C.Disk out) (outcome C.Disk result.1.out result.1.history.items result.1.marks.items) result.1.end }
    ensures untouched { C.asked result.1.out ≡ None → result.1.out ≡ out }
    ensures recovered { AreRecovered (C.moment out) (outcome C.Disk result.1.out result.1.history.items result.1.marks.items) }
    ensures printed { Prints (record_text result.1.end) (record_status result.1.end)
        (sink_state K.Sink sink.old) (sink_state K.Sink sink.new) result.0 }
{
    let script = read_source(means.alloc, source);
    let recorded = record_script(means, output, script, out);
    let status = report(sink, &recorded.end);
    (status, recorded)
}

/// The generated script of so many samples.
fn generate(alloc: Global, samples: u64) -> Result<Script, Fault>
    requires { samples ≤ 1000000 }
    ensures script { IfOk result IsScript }
    ensures exact { IfOk result (λ script. script ≡ generated_script samples) }
    ensures fault { IfErr result (λ fault. fault ≡ Fault.Memory) }
{
    Ok(generated(alloc, samples)?)
}

/// `gen N OUT`: records the generated script of so many samples, at most 1,000,000, into a new file, and prints how many it
/// holds. Answers the program's status too.
pub fn run_generated<R, K, C, G>(
    means: &Means<'_, R, G>,
    samples: u64,
    output: &Bytes,
    sink: &mut K,
    out: C,
) -> (u8, Recorded<C>)
where
    R: Threads + Wait + Sync,
    K: Sink,
    C: Disk + Send,
    G: Gate + Sync,
    requires asked { C.asked out ≡ None }
    requires samples { samples ≤ 1000000 }
    ensures comes { RecordComes (λ script. script ≡ generated_script samples) (λ fault. fault ≡ Fault.Memory)
        output.now means.now.now_ns (state_of C.Disk out) (outcome C.Disk result.1.out result.1.history.items result.1.marks.items) result.1.end }
    ensures untouched { C.asked result.1.out ≡ None → result.1.out ≡ out }
    ensures recovered { AreRecovered (C.moment out) (outcome C.Disk result.1.out result.1.history.items result.1.marks.items) }
    ensures printed { Prints (record_text result.1.end) (record_status result.1.end)
        (sink_state K.Sink sink.old) (sink_state K.Sink sink.new) result.0 }
{
    let script = generate(means.alloc, samples);
    let recorded = record_script(means, output, script, out);
    let status = report(sink, &recorded.end);
    (status, recorded)
}
