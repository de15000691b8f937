ghost use Rattle.std.specs.Prelude.{◌≡◌, Some, None};
ghost use Rattle.mdf_disk.specs.State.{state_of};
ghost use Rattle.mdf_port.specs.State.{sink_state};
ghost use Rattle.mdf_command.specs.Asked.{IsOnlyRead};
ghost use Rattle.mdf_command.specs.Texts.{Gives};
ghost use Rattle.mdf_inspect.specs.Reading.{EndsReading, answer_text, reading_end, reading_of};
ghost use Rattle.mdf_inspect.specs.Question.{text_for};

use crate::check::give_verdict;
use crate::info::give_contents;
use crate::reading::{Counted, read_input};
use crate::shown::Shown;
use mdf_command::{Fault, status_after, status_of};
use mdf_disk::Disk;
use mdf_num::{Bytes, Failed};
use mdf_paged::PagedMeasurement;
use mdf_port::Sink;
use std::alloc::Global;

/// What is asked of a finalized file.
#[derive(Clone, Copy)]
pub enum Question {
    /// Whether it is valid.
    Verdict,
    /// What it holds.
    Contents,
}

/// Gives the lines of a file that was read.
fn give_answer<K: Sink>(
    sink: &mut K,
    question: Question,
    found: &PagedMeasurement,
) -> Result<(), Failed>
    ensures { Gives (text_for question (reading_of found.now)) (sink_state K.Sink sink.old) (sink_state K.Sink sink.new) result }
{
    match question {
        Question::Verdict => give_verdict(sink, found.strict()),
        Question::Contents => give_contents(sink, found),
    }
}

/// Gives the lines with which the command ends.
fn give_end<K: Sink>(
    sink: &mut K,
    question: Question,
    end: &Result<PagedMeasurement, Fault>,
) -> Result<(), Failed>
    ensures { Gives (answer_text (text_for question) (reading_end end.now)) (sink_state K.Sink sink.old) (sink_state K.Sink sink.new) result }
{
    match end {
        Ok(found) => give_answer(sink, question, found),
        Err(fault) => fault.give(sink),
    }
}

/// `check IN` and `info IN`: reads a finalized file through pages and prints what is asked of it, or why it is not read. Answers
/// the program's status, with the disk.
pub fn run_reading<K: Sink, A: Disk>(
    alloc: Global,
    question: Question,
    input: &Bytes,
    sink: &mut K,
    first: A,
) -> Shown<A>
    requires { A.asked first ≡ None }
    ensures ends { EndsReading (text_for question) (state_of A.Disk first) (state_of A.Disk result.first)
        (sink_state K.Sink sink.old) (sink_state K.Sink sink.new) result.status }
    ensures input { IsOnlyRead A.Disk (Some input.now) first result.first }
{
    let (end, first) = read_input::<A, Counted>(alloc, input, first);
    let given = give_end(sink, question, &end);
    let status = status_after(given, status_of(&end));
    Shown { status, first }
}
