ghost use Rattle.std.specs.Prelude.{◌≡◌, ◌≤◌, ◌++◌, ℕ, List, Some, true, IfOk, IfErr};
ghost use Rattle.mdf_num.specs.Halt.{HaltCause, StopCause};
ghost use Rattle.mdf_port.specs.State.{sink_state};
ghost use Rattle.tool_export.specs.Export.{GivesText, IsOfSink, SinkCause};
ghost use Rattle.tool_export.specs.Table.{line_of, names_line, sample_lines, table_text};

use crate::line::Line;
use crate::samples::SampleList;
use crate::text::push_sample;
use mdf_group::ChannelRow;
use mdf_num::{Failed, Halt, Span, Stop};
use mdf_port::{Sink, give_all};
use std::alloc::Global;

/// How many lines are made at once.
const PAGE: u64 = 2048;

/// Gives a text. The fault is that the sink failed.
fn give_text<K: Sink>(sink: &mut K, text: &[u8]) -> Result<(), Halt<Failed>>
    ensures text { GivesText text.now (sink_state K.Sink sink.old) (sink_state K.Sink sink.new) result }
    ensures sink { SinkCause (K.faults sink.old) (K.faults sink.new) result }
    ensures here { IfErr result IsOfSink }
{
    match give_all(sink, text) {
        Ok(()) => Ok(()),
        Err(failed) => Err(Halt::Fault(failed)),
    }
}

/// Gives a line.
fn give_line<K: Sink>(alloc: Global, sink: &mut K, line: &Line) -> Result<(), Halt<Failed>>
    ensures text { GivesText (line_of line.now) (sink_state K.Sink sink.old) (sink_state K.Sink sink.new) result }
    ensures sink { SinkCause (K.faults sink.old) (K.faults sink.new) result }
    ensures here { IfErr result IsOfSink }
{
    let Ok(bytes) = line.bytes(alloc) else {
        return Err(Halt::Memory);
    };
    give_text(sink, bytes.as_slice())
}

/// Gives the line of the names.
fn give_names<K: Sink>(
    alloc: Global,
    sink: &mut K,
    line: &mut Line,
    channels: &[ChannelRow],
) -> Result<(), Halt<Failed>>
    ensures text { GivesText (names_line channels.now) (sink_state K.Sink sink.old) (sink_state K.Sink sink.new) result }
    ensures sink { SinkCause (K.faults sink.old) (K.faults sink.new) result }
    ensures here { IfErr result IsOfSink }
{
    let Ok(()) = line.set_names(channels) else {
        return Err(Halt::Memory);
    };
    give_line(alloc, sink, line)
}

/// The lines of the samples from one on, up to another.
fn lines_between<L: SampleList, P: Span>(
    alloc: Global,
    span: &mut P,
    list: &L,
    from: u64,
    to: u64,
) -> Result<Vec<u8>, Stop>
    requires needs { L.needs list.now (P.size span.old) }
    requires order { from ≤ to }
    requires within { to ≤ L.count list.now }
    ensures lines { (f : List ℕ) → P.bytes span.old ≡ Some f → L.are_of list.now f
        → IfOk result (λ lines. sample_lines (L.sample list.now f) to ≡ sample_lines (L.sample list.now f) from ++ lines.items) }
    ensures same { P.bytes span.new ≡ P.bytes span.old }
    ensures size { P.size span.new ≡ P.size span.old }
    ensures cause { StopCause true (P.faults span.old) (P.faults span.new) result }
{
    let mut lines = Vec::new(alloc);
    let mut scratch = Vec::new(alloc);
    for index in from..to {
        let entries = list.sample(alloc, span, index, &mut scratch)?;
        push_sample(alloc, &mut lines, index, entries.as_slice())?;
    }
    Ok(lines)
}

/// Gives the lines of all samples, some of them at once.
fn give_samples<L: SampleList, P: Span, K: Sink>(
    alloc: Global,
    span: &mut P,
    sink: &mut K,
    list: &L,
) -> Result<(), Halt<Failed>>
    requires { L.needs list.now (P.size span.old) }
    ensures text { (f : List ℕ) → P.bytes span.old ≡ Some f → L.are_of list.now f
        → GivesText (sample_lines (L.sample list.now f) (L.count list.now)) (sink_state K.Sink sink.old) (sink_state K.Sink sink.new) result }
    ensures sink { SinkCause (K.faults sink.old) (K.faults sink.new) result }
    ensures same { P.bytes span.new ≡ P.bytes span.old }
    ensures size { P.size span.new ≡ P.size span.old }
    ensures cause { HaltCause true (P.faults span.old) (P.faults span.new) result }
{
    let count = list.count();
    let mut index = 0;
    while index < count {
        let to = index + PAGE.min(count - index);
        let lines = lines_between(alloc, span, list, index, to)?;
        give_text(sink, lines.as_slice())?;
        index = to;
    }
    Ok(())
}

/// Gives the table of channels and their samples. The lines are made in memory, some of them at once, and then given.
///
/// # Errors
/// The fault where the sink failed; the span's own; and want of memory. Then the sink has a front of the table.
pub(crate) fn give_table<L: SampleList, P: Span, K: Sink>(
    alloc: Global,
    span: &mut P,
    sink: &mut K,
    channels: &[ChannelRow],
    list: &L,
) -> Result<(), Halt<Failed>>
    requires { L.needs list.now (P.size span.old) }
    ensures text { (f : List ℕ) → P.bytes span.old ≡ Some f → L.are_of list.now f
        → GivesText (table_text channels.now (L.sample list.now f) (L.count list.now)) (sink_state K.Sink sink.old) (sink_state K.Sink sink.new) result }
    ensures sink { SinkCause (K.faults sink.old) (K.faults sink.new) result }
    ensures same { P.bytes span.new ≡ P.bytes span.old }
    ensures size { P.size span.new ≡ P.size span.old }
    ensures cause { HaltCause true (P.faults span.old) (P.faults span.new) result }
{
    let mut line = Line::new(alloc);
    give_names(alloc, sink, &mut line, channels)?;
    give_samples(alloc, span, sink, list)
}
