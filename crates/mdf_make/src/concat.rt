ghost use Rattle.std.specs.Prelude.{◌≡◌, Some, None};
ghost use Rattle.mdf_disk.specs.State.{state_of};
ghost use Rattle.mdf_port.specs.State.{sink_state};
ghost use Rattle.tool_concat.specs.Concat.{IsConcatImage};
ghost use Rattle.mdf_command.specs.Asked.{IsOnlyMade, IsOnlyRead};
ghost use Rattle.mdf_make.specs.Blamed.{BlamesJoined, IsOfJoining, concat_blamed};
ghost use Rattle.mdf_make.specs.Concat.{AreBothLoaded, AreNotJoined, EndsConcat, Joins, fault_of_concat};
ghost use Rattle.mdf_make.specs.Making.{LeavesOf};

use crate::blamed::{Input, Verdict};
use crate::from::FromTwo;
use crate::joining::{Unjoined, run_pair};
use crate::pair_tool::PairTool;
use crate::said::Said;
use mdf_command::Fault;
use mdf_disk::Disk;
use mdf_num::Bytes;
use mdf_port::Sink;
use std::alloc::Global;
use tool_concat::{ConcatFault, concat};

/// The fault of the command. A fault of the second file is printed as one of the first.
fn fault_of(fault: ConcatFault) -> Fault
    ensures { result ≡ fault_of_concat fault }
{
    match fault {
        ConcatFault::First(fault) | ConcatFault::Second(fault) => Fault::Read(fault),
        ConcatFault::Differs { group } => Fault::Differs { group },
        ConcatFault::Wide { group, channel } => Fault::Wide { group, channel },
        ConcatFault::Failed => Fault::Device,
        ConcatFault::Memory => Fault::Memory,
    }
}

/// The input that such a fault is of.
fn blamed_for(fault: ConcatFault) -> Option<Input>
    ensures { result ≡ concat_blamed fault }
{
    match fault {
        ConcatFault::First(_) => Some(Input::First),
        ConcatFault::Second(_) => Some(Input::Second),
        ConcatFault::Differs { .. } | ConcatFault::Wide { .. } => Some(Input::Both),
        ConcatFault::Failed | ConcatFault::Memory => None,
    }
}

impl From<ConcatFault> for Unjoined {
    ghost from_gives = { λ problem unjoined. unjoined ≡ record { fault = fault_of_concat problem; blamed = concat_blamed problem } };

    fn from(fault: ConcatFault) -> Self {
        Unjoined {
            fault: fault_of(fault),
            blamed: blamed_for(fault),
        }
    }
}

/// Makes the sorted file of two finished ones, the second behind the first.
#[derive(Clone, Copy)]
struct Concatenating;

impl PairTool for Concatenating {
    ghost makes = { λ _. Joins };

    ghost refuses = { λ _. AreNotJoined };

    ghost blames = { λ _. IsOfJoining };

    fn make<C: Disk>(
        self,
        alloc: Global,
        one: Bytes,
        two: Bytes,
        now_ns: u64,
        out: &mut C,
    ) -> Result<Said, Unjoined> {
        Ok(Said::from(concat(alloc, one, two, now_ns, out)?))
    }
}

/// `concat A B OUT`: makes the sorted file of two finished ones, each group with the records of the first and then those of the
/// second, and prints what it holds, or why none was made. Answers the program's status, and the input that the fault is of.
pub fn run_concat<K: Sink, A: Disk, B: Disk, C: Disk>(
    from: &FromTwo<'_>,
    sink: &mut K,
    first: &mut A,
    second: &mut B,
    out: &mut C,
) -> Verdict
    requires first { A.asked first.old ≡ None }
    requires second { B.asked second.old ≡ None }
    requires out { C.asked out.old ≡ None }
    ensures ends { EndsConcat from.now.now_ns (state_of A.Disk first.old) (state_of A.Disk first.new) (state_of B.Disk second.old) (state_of B.Disk second.new)
        (state_of C.Disk out.old) (state_of C.Disk out.new) (sink_state K.Sink sink.old) (sink_state K.Sink sink.new) result.status }
    ensures blames { BlamesJoined from.now.now_ns (state_of A.Disk first.old) (state_of B.Disk second.old)
        (sink_state K.Sink sink.old) (sink_state K.Sink sink.new) result.status result.blamed }
    ensures any_moment { LeavesOf (AreBothLoaded from.now.now_ns (state_of A.Disk first.old) (state_of B.Disk second.old)) IsConcatImage (state_of C.Disk out.old) (state_of C.Disk out.new) }
    ensures input { IsOnlyRead A.Disk (Some from.now.input.now) first.old first.new }
    ensures other { IsOnlyRead B.Disk (Some from.now.other.now) second.old second.new }
    ensures output { IsOnlyMade C.Disk (Some from.now.output.now) out.old out.new }
{
    run_pair(Concatenating, from, sink, first, second, out)
}
