// The commands that show a file: `opened IN`, `check IN`, `info IN`, `export IN GROUP` and `attachments IN`.
ghost use Rattle.std.specs.Prelude.{◌≡◌, Some, None};
ghost use Rattle.mdf_port.specs.State.{sink_state};
ghost use Rattle.mdf_disk.specs.State.{state_of};
ghost use Rattle.mdf_command.specs.Asked.{IsOnlyRead};
ghost use Rattle.mdf_run.specs.Ends.{EndsShow};

use mdf_command::Aspect;
use mdf_disk::Disk;
use mdf_inspect::{Question, Shown, run_attachments, run_export, run_opened, run_reading};
use mdf_num::Bytes;
use mdf_port::Sink;
use std::alloc::Global;

/// Shows the input. Answers the program's status, with the disk.
pub(crate) fn show<K: Sink, A: Disk>(
    alloc: Global,
    aspect: Aspect,
    input: &Bytes,
    sink: &mut K,
    first: A,
) -> Shown<A>
    requires { A.asked first ≡ None }
    ensures ends { EndsShow aspect (state_of A.Disk first) (state_of A.Disk result.first)
        (sink_state K.Sink sink.old) (sink_state K.Sink sink.new) result.status }
    ensures input { IsOnlyRead A.Disk (Some input.now) first result.first }
{
    match aspect {
        Aspect::Opened => {
            let mut first = first;
            let status = run_opened(alloc, input, sink, &mut first);
            Shown { status, first }
        }
        Aspect::Verdict => run_reading(alloc, Question::Verdict, input, sink, first),
        Aspect::Contents => run_reading(alloc, Question::Contents, input, sink, first),
        Aspect::Table { group } => run_export(alloc, input, group, sink, first),
        Aspect::Attachments => run_attachments(alloc, input, sink, first),
    }
}
