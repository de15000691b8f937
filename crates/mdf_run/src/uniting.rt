// The commands that make a file of two others: `concat A B OUT` and `attach A B OUT`.
ghost use Rattle.std.specs.Prelude.{◌≡◌, Some, None};
ghost use Rattle.mdf_port.specs.State.{sink_state};
ghost use Rattle.mdf_disk.specs.State.{state_of};
ghost use Rattle.mdf_command.specs.Asked.{IsOnlyMade, IsOnlyRead};
ghost use Rattle.mdf_run.specs.Ends.{BlamesJoin, EndsJoin, LeavesJoined};

use mdf_command::Union;
use mdf_disk::Disk;
use mdf_make::{FromTwo, Verdict, run_attach, run_concat};
use mdf_port::Sink;

/// Makes the output of both inputs. Answers the program's status, and the input that the fault is of.
pub(crate) fn unite<K: Sink, A: Disk, B: Disk, C: Disk>(
    union: Union,
    from: &FromTwo<'_>,
    sink: &mut K,
    first: &mut A,
    second: &mut B,
    out: &mut C,
) -> Verdict
    requires first { A.asked first.old ≡ None }
    requires second { B.asked second.old ≡ None }
    requires out { C.asked out.old ≡ None }
    ensures ends { EndsJoin union from.now.now_ns (state_of A.Disk first.old) (state_of A.Disk first.new) (state_of B.Disk second.old) (state_of B.Disk second.new)
        (state_of C.Disk out.old) (state_of C.Disk out.new) (sink_state K.Sink sink.old) (sink_state K.Sink sink.new) result.status }
    ensures blames { BlamesJoin union from.now.now_ns (state_of A.Disk first.old) (state_of B.Disk second.old)
        (sink_state K.Sink sink.old) (sink_state K.Sink sink.new) result.status result.blamed }
    ensures any_moment { LeavesJoined union from.now.now_ns (state_of A.Disk first.old) (state_of B.Disk second.old) (state_of C.Disk out.old) (state_of C.Disk out.new) }
    ensures input { IsOnlyRead A.Disk (Some from.now.input.now) first.old first.new }
    ensures other { IsOnlyRead B.Disk (Some from.now.other.now) second.old second.new }
    ensures output { IsOnlyMade C.Disk (Some from.now.output.now) out.old out.new }
{
    match union {
        Union::Concat => run_concat(from, sink, first, second, out),
        Union::Attach => run_attach(from, sink, first, second, out),
    }
}
