// What a rotation prints.
ghost use Rattle.std.specs.Prelude.{◌≡◌, Some, None};
ghost use Rattle.book_owned.specs.Marks.{durable};
ghost use Rattle.mdf_port.specs.State.{sink_state};
ghost use Rattle.mdf_command.specs.Texts.{Gives, Prints, numbered};
ghost use Rattle.mdf_rotate.specs.Text.{begun_count, by_marks, end_line, part_line, record_of, records_of, rotate_status, rotate_text, sample_count};

use crate::course::RotateEnd;
use crate::part::Part;
use mdf_command::Piece::{Number, Sum, Text};
use mdf_command::{give_line, status_after};
use mdf_num::Failed;
use mdf_port::Sink;

/// How many samples of a part are durable, if it was begun.
fn durable_of<C>(part: &Part<C>) -> Option<u64>
    ensures { result ≡ by_marks part.now.marks.items (Some (durable part.now.marks.items)) None }
{
    let last = part.marks.rest(0).last()?;
    Some(last.through)
}

/// Gives the line of a part, if it was begun.
pub fn give_part<K: Sink, C>(sink: &mut K, number: u64, part: &Part<C>) -> Result<(), Failed>
    ensures { Gives (part_line number (record_of part.now)) (sink_state K.Sink sink.old) (sink_state K.Sink sink.new) result }
{
    match durable_of(part) {
        Some(durable) => give_line(
            sink,
            &[
                Text(b"part "),
                Number(number),
                Text(b" samples "),
                Number(part.history.len()),
                Text(b" durable "),
                Number(durable),
            ],
        ),
        None => Ok(()),
    }
}

/// Gives the lines of the parts.
fn give_parts<K: Sink, C>(sink: &mut K, parts: &[Part<C>]) -> Result<(), Failed>
    ensures { Gives (numbered part_line 0 (records_of parts.now)) (sink_state K.Sink sink.old) (sink_state K.Sink sink.new) result }
{
    for number in 0..parts.len() {
        give_part(sink, number as u64, &parts[number])?;
    }
    Ok(())
}

/// How many parts were begun, and how many samples they have.
fn counts_of<C>(parts: &[Part<C>]) -> (u64, u128)
    ensures begun { result.0 ≡ begun_count (records_of parts.now) }
    ensures samples { result.1 ≡ sample_count (records_of parts.now) }
{
    let mut begun = 0;
    let mut samples = 0;
    for part in parts {
        if !part.marks.rest(0).is_empty() {
            begun += 1;
        }
        samples += u128::from(part.history.len());
    }
    (begun, samples)
}

/// Gives the last line.
fn give_end<K: Sink, C>(sink: &mut K, parts: &[Part<C>], end: RotateEnd) -> Result<(), Failed>
    ensures { Gives (end_line (records_of parts.now) end) (sink_state K.Sink sink.old) (sink_state K.Sink sink.new) result }
{
    match end {
        RotateEnd::Whole => {
            let (begun, samples) = counts_of(parts);
            give_line(
                sink,
                &[
                    Text(b"parts "),
                    Number(begun),
                    Text(b" samples "),
                    Sum(samples),
                ],
            )
        }
        RotateEnd::Over => give_line(sink, &[Text(b"parts over "), Number(parts.len() as u64)]),
        RotateEnd::Faulted(fault) => fault.give(sink),
    }
}

/// Gives the lines with which the command ends.
fn give_all<K: Sink, C>(sink: &mut K, parts: &[Part<C>], end: RotateEnd) -> Result<(), Failed>
    ensures { Gives (rotate_text (records_of parts.now) end) (sink_state K.Sink sink.old) (sink_state K.Sink sink.new) result }
{
    give_parts(sink, parts)?;
    give_end(sink, parts, end)
}

/// The status with which the command ends.
fn status(end: RotateEnd) -> u8
    ensures { result ≡ rotate_status end }
{
    match end {
        RotateEnd::Whole => 0,
        RotateEnd::Over => 5,
        RotateEnd::Faulted(fault) => fault.status(),
    }
}

/// Prints how a rotation ended, and answers the program's status.
pub(crate) fn report<K: Sink, C>(sink: &mut K, parts: &[Part<C>], end: RotateEnd) -> u8
    ensures { Prints (rotate_text (records_of parts.now) end) (rotate_status end) (sink_state K.Sink sink.old) (sink_state K.Sink sink.new) result }
{
    let given = give_all(sink, parts, end);
    status_after(given, status(end))
}
