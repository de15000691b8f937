ghost use Rattle.std.specs.Prelude.{◌≡◌, Some, None};
ghost use Rattle.mdf_disk.specs.State.{state_of};
ghost use Rattle.mdf_port.specs.State.{sink_state};
ghost use Rattle.mdf_command.specs.Load.{IsLoaded};
ghost use Rattle.mdf_command.specs.Asked.{IsOnlyMade, IsOnlyRead};
ghost use Rattle.mdf_make.specs.Making.{LeavesOf};
ghost use Rattle.mdf_make.specs.Finalize.{EndsFinalize, Finalizes, IsFinalImage, IsNotFinalized};

use crate::by_tool::run_tool;
use crate::from::FromOne;
use crate::said::Said;
use crate::tool::Tool;
use mdf_command::Fault;
use mdf_disk::Disk;
use mdf_num::Bytes;
use mdf_port::Sink;
use std::alloc::Global;
use tool_complete::{complete, unfinished_of};
use tool_final::finalize;

/// Makes the finished file of a recording, or of a file that another tool left unfinished.
#[derive(Clone, Copy)]
struct Finalizing {
    /// The time, in ns since 1970.
    now_ns: u64,
}

impl Tool for Finalizing {
    ghost makes = { λ tool. Finalizes tool.now_ns };

    ghost refuses = { λ _. IsNotFinalized };

    fn make<C: Disk>(self, alloc: Global, file: Bytes, out: &mut C) -> Result<Said, Fault> {
        match unfinished_of(file.as_slice()) {
            Ok(_) => Ok(Said::from(complete(alloc, file, self.now_ns, out)?)),
            Err(_) => Ok(Said::from(finalize(alloc, file, self.now_ns, out)?)),
        }
    }
}

/// `finalize IN OUT`: makes the finished file of a recording, or of a file that another tool left unfinished, and prints what it holds,
/// or why none was made. Answers the program's status.
pub fn run_finalize<K: Sink, A: Disk, C: Disk>(
    from: &FromOne<'_>,
    sink: &mut K,
    first: &mut A,
    out: &mut C,
) -> u8
    requires first { A.asked first.old ≡ None }
    requires out { C.asked out.old ≡ None }
    ensures ends { EndsFinalize from.now.now_ns (state_of A.Disk first.old) (state_of A.Disk first.new) (state_of C.Disk out.old) (state_of C.Disk out.new)
        (sink_state K.Sink sink.old) (sink_state K.Sink sink.new) result }
    ensures any_moment { LeavesOf (IsLoaded (state_of A.Disk first.old)) (λ file. IsFinalImage file from.now.now_ns) (state_of C.Disk out.old) (state_of C.Disk out.new) }
    ensures input { IsOnlyRead A.Disk (Some from.now.input.now) first.old first.new }
    ensures output { IsOnlyMade C.Disk (Some from.now.output.now) out.old out.new }
{
    let now_ns = from.now_ns;
    run_tool(Finalizing { now_ns }, from, sink, first, out)
}
