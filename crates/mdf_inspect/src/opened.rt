ghost use Rattle.std.specs.Prelude.{◌≡◌, Some, None, Result};
ghost use Rattle.mdf_disk.specs.State.{state_of};
ghost use Rattle.mdf_gate.specs.declared.answer.Opened.{Opened};
ghost use Rattle.mdf_command.specs.Asked.{IsOnlyRead};
ghost use Rattle.mdf_command.specs.declared.fault.Fault.{Fault};
ghost use Rattle.mdf_port.specs.State.{sink_state};
ghost use Rattle.mdf_command.specs.Texts.{Gives};
ghost use Rattle.mdf_inspect.specs.Opened.{OpenedComes, EndsOpened, opened_text};

use mdf_command::Piece::{Number, Text};
use mdf_command::{Fault, give_line, load, status_after, status_of};
use mdf_disk::Disk;
use mdf_gate::{Opened, opened};
use mdf_num::{Bytes, Failed};
use mdf_port::Sink;
use std::alloc::Global;

/// Counts the opened blocks of the file of this name.
fn count<A: Disk>(alloc: Global, input: &Bytes, first: &mut A) -> Result<Opened, Fault>
    requires { A.asked first.old ≡ None }
    ensures comes { OpenedComes (state_of A.Disk first.old) (state_of A.Disk first.new) result }
    ensures input { IsOnlyRead A.Disk (Some input.now) first.old first.new }
{
    let bytes = load(alloc, input, first)?;
    Ok(opened(bytes.as_slice())?)
}

/// Gives the line with which the command ends.
fn give_end<K: Sink>(sink: &mut K, end: &Result<Opened, Fault>) -> Result<(), Failed>
    ensures { Gives (opened_text end.now) (sink_state K.Sink sink.old) (sink_state K.Sink sink.new) result }
{
    match end {
        Ok(count) => give_line(
            sink,
            &[
                Text(b"blocks "),
                Number(count.blocks),
                Text(b" bytes "),
                Number(count.bytes),
            ],
        ),
        Err(fault) => fault.give(sink),
    }
}

/// `opened IN`: prints how many blocks are opened, or why none are.
pub fn run_opened<K: Sink, A: Disk>(alloc: Global, input: &Bytes, sink: &mut K, first: &mut A) -> u8
    requires { A.asked first.old ≡ None }
    ensures ends { EndsOpened (state_of A.Disk first.old) (state_of A.Disk first.new)
        (sink_state K.Sink sink.old) (sink_state K.Sink sink.new) result }
    ensures input { IsOnlyRead A.Disk (Some input.now) first.old first.new }
{
    let end = count(alloc, input, first);
    let given = give_end(sink, &end);
    status_after(given, status_of(&end))
}
