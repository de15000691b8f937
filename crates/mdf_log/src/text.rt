// What a log prints at its end.
ghost use Rattle.std.specs.Prelude.{◌≡◌, ◌++◌};
ghost use Rattle.std.specs.List.{list_any};
ghost use Rattle.mdf_port.specs.State.{sink_state};
ghost use Rattle.mdf_command.specs.Texts.{Gives, Prints, numbered};
ghost use Rattle.mdf_log.specs.Report.{bad_line, has_bad, has_failed, is_cut, is_deaf, log_status, log_text, source_text, sources_status, was_short, word_line};

use crate::{LogEnd, SourceEnd, Stop};
use acq_lines::Halt;
use mdf_command::Piece::{Number, Text};
use mdf_command::{give_line, status_after};
use mdf_num::Failed;
use mdf_port::Sink;
use mdf_record::{give_accepted, give_rest, give_totals};

/// Whether the input of the source failed.
fn has_failed(end: &SourceEnd) -> bool
    ensures { result ≡ has_failed end.now }
{
    matches!(end.stop, Stop::Halted(Halt::Failed))
}

/// Whether the input of the source came to its end, or failed, in the middle of a line.
fn is_cut(end: &SourceEnd) -> bool
    ensures { result ≡ is_cut end.now }
{
    end.cut && matches!(end.stop, Stop::Halted(Halt::Input | Halt::Failed))
}

/// Whether the source stopped though its input was neither at its end nor failed, nor had a line said so.
fn was_short(end: &SourceEnd) -> bool
    ensures { result ≡ was_short end.now }
{
    match end.stop {
        Stop::Halted(Halt::Input | Halt::Line | Halt::Failed) => false,
        Stop::Halted(Halt::Memory | Halt::Count | Halt::Called) | Stop::Refused => true,
    }
}

/// Gives the line on how many lines of a source no rule admits, where there are any.
fn give_bad<K: Sink>(sink: &mut K, source: u64, bad: u64) -> Result<(), Failed>
    ensures { Gives (bad_line source bad) (sink_state K.Sink sink.old) (sink_state K.Sink sink.new) result }
{
    if bad == 0 {
        return Ok(());
    }
    give_line(
        sink,
        &[
            Text(b"source "),
            Number(source),
            Text(b" refused "),
            Number(bad),
        ],
    )
}

/// Gives the line that says this of a source, where it is so.
fn give_word<K: Sink>(sink: &mut K, source: u64, word: &[u8], is_so: bool) -> Result<(), Failed>
    ensures { Gives (word_line source word.now is_so) (sink_state K.Sink sink.old) (sink_state K.Sink sink.new) result }
{
    if !is_so {
        return Ok(());
    }
    give_line(sink, &[Text(b"source "), Number(source), Text(word)])
}

/// Gives the lines of a source.
fn give_source<K: Sink>(sink: &mut K, source: u64, end: &SourceEnd) -> Result<(), Failed>
    ensures { Gives (source_text source end.now) (sink_state K.Sink sink.old) (sink_state K.Sink sink.new) result }
{
    give_accepted(sink, source, end.accepted)?;
    give_bad(sink, source, end.bad)?;
    give_word(sink, source, b" failed", has_failed(end))?;
    give_word(sink, source, b" cut", is_cut(end))
}

/// Gives the lines of the sources.
fn give_sources<K: Sink>(sink: &mut K, sources: &[SourceEnd]) -> Result<(), Failed>
    ensures { Gives (numbered source_text 0 sources.now) (sink_state K.Sink sink.old) (sink_state K.Sink sink.new) result }
{
    for (source, end) in sources.iter().enumerate() {
        give_source(sink, source as u64, end)?;
    }
    Ok(())
}

/// Gives the lines with which a log ends: for each source how many of its samples were accepted, how many of its lines no rule
/// admits, and whether its input failed or ended in the middle of a line; how many samples there are in all and how many of
/// them are durable; how many a reader finds shown; and what went wrong. It takes no memory.
///
/// # Errors
/// `Failed` where the sink failed; then it has a front of the lines.
pub fn give_log<K: Sink>(sink: &mut K, end: &LogEnd) -> Result<(), Failed>
    ensures { Gives (log_text end.now) (sink_state K.Sink sink.old) (sink_state K.Sink sink.new) result }
{
    match end {
        LogEnd::Inputs { sources } => {
            give_line(sink, &[Text(b"sources "), Number(u64::from(*sources))])
        }
        LogEnd::Refused(fault) => fault.give(sink),
        LogEnd::Closed {
            sources,
            samples,
            durable,
            live,
            fault,
        } => {
            give_sources(sink, sources.as_slice())?;
            give_totals(sink, *samples, *durable)?;
            give_rest(sink, live, fault)
        }
    }
}

/// Whether a source stopped before nothing more came.
fn any_short(sources: &[SourceEnd]) -> bool
    ensures { result ≡ list_any was_short sources.now }
{
    sources.iter().any(was_short)
}

/// Whether the input of a source failed.
fn any_failed(sources: &[SourceEnd]) -> bool
    ensures { result ≡ list_any has_failed sources.now }
{
    sources.iter().any(has_failed)
}

/// Whether a source has lines that no rule admits.
fn any_bad(sources: &[SourceEnd]) -> bool
    ensures { result ≡ list_any has_bad sources.now }
{
    sources.iter().any(|end| end.bad != 0)
}

/// Whether the sink of a source failed.
fn any_deaf(sources: &[SourceEnd]) -> bool
    ensures { result ≡ list_any is_deaf sources.now }
{
    sources.iter().any(|end| end.deaf)
}

/// The status of a log where nothing went wrong but at its sources.
fn sources_status(sources: &[SourceEnd]) -> u8
    ensures { result ≡ sources_status sources.now }
{
    if any_short(sources) {
        7
    } else if any_failed(sources) {
        2
    } else if any_bad(sources) {
        8
    } else if any_deaf(sources) {
        6
    } else {
        0
    }
}

/// The status with which a log ends, where all that it prints was written.
pub fn log_status(end: &LogEnd) -> u8
    ensures { result ≡ log_status end.now }
{
    match end {
        LogEnd::Inputs { .. } => 1,
        LogEnd::Refused(fault) => fault.status(),
        LogEnd::Closed {
            fault: Some(fault),
            ..
        } => fault.status(),
        LogEnd::Closed {
            sources,
            fault: None,
            ..
        } => sources_status(sources.as_slice()),
    }
}

/// Prints how a log ended, and answers the program's status.
pub fn report<K: Sink>(sink: &mut K, end: &LogEnd) -> u8
    ensures { Prints (log_text end.now) (log_status end.now) (sink_state K.Sink sink.old) (sink_state K.Sink sink.new) result }
{
    let given = give_log(sink, end);
    status_after(given, log_status(end))
}
