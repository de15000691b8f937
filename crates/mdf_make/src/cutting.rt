ghost use Rattle.std.specs.Prelude.{◌≡◌, Some, None};
ghost use Rattle.mdf_disk.specs.State.{state_of};
ghost use Rattle.mdf_port.specs.State.{sink_state};
ghost use Rattle.mdf_command.specs.Load.{IsLoaded};
ghost use Rattle.mdf_command.specs.Asked.{IsOnlyMade, IsOnlyRead};
ghost use Rattle.mdf_make.specs.Making.{LeavesOf};
ghost use Rattle.tool_cut.specs.Cut.{IsCutImage};
ghost use Rattle.mdf_make.specs.Sort.{IsNotMeasured};
ghost use Rattle.mdf_make.specs.Cut.{Cuts, EndsCut};

use crate::by_tool::run_tool;
use crate::from::FromOne;
use crate::said::Said;
use crate::tool::Tool;
use mdf_command::Fault;
use mdf_disk::Disk;
use mdf_num::Bytes;
use mdf_port::Sink;
use std::alloc::Global;
use tool_cut::cut;

/// Makes the sorted file of a finished one with those records alone whose master lies in a range.
#[derive(Clone, Copy)]
struct Cutting {
    /// The first number that is kept.
    from: i128,
    /// The first number behind that is not.
    to: i128,
    /// The time, in ns since 1970.
    now_ns: u64,
}

impl Tool for Cutting {
    ghost makes = { λ tool. Cuts (record { from = tool.from; to = tool.to; now = tool.now_ns }) };

    ghost refuses = { λ _. IsNotMeasured };

    fn make<C: Disk>(self, alloc: Global, file: Bytes, out: &mut C) -> Result<Said, Fault> {
        Ok(Said::from(cut(alloc, file, self.from, self.to, self.now_ns, out)?))
    }
}

/// `cut IN OUT FROM TO`: makes the sorted file of a finished one with those records alone whose master has a raw number from
/// `from` on and below `to`, and prints what it holds, or why none was made. Answers the program's status.
pub fn run_cut<K: Sink, A: Disk, C: Disk>(
    of: &FromOne<'_>,
    from: i128,
    to: i128,
    sink: &mut K,
    first: &mut A,
    out: &mut C,
) -> u8
    requires first { A.asked first.old ≡ None }
    requires out { C.asked out.old ≡ None }
    ensures ends { EndsCut (record { from = from; to = to; now = of.now.now_ns }) (state_of A.Disk first.old) (state_of A.Disk first.new) (state_of C.Disk out.old) (state_of C.Disk out.new)
        (sink_state K.Sink sink.old) (sink_state K.Sink sink.new) result }
    ensures any_moment { LeavesOf (IsLoaded (state_of A.Disk first.old)) (λ file. IsCutImage file (record { from = from; to = to; now = of.now.now_ns })) (state_of C.Disk out.old) (state_of C.Disk out.new) }
    ensures input { IsOnlyRead A.Disk (Some of.now.input.now) first.old first.new }
    ensures output { IsOnlyMade C.Disk (Some of.now.output.now) out.old out.new }
{
    let now_ns = of.now_ns;
    run_tool(Cutting { from, to, now_ns }, of, sink, first, out)
}
