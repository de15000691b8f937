ghost use Rattle.std.specs.Prelude.{◌≡◌, Some, None};
ghost use Rattle.mdf_disk.specs.State.{state_of};
ghost use Rattle.mdf_port.specs.State.{sink_state};
ghost use Rattle.mdf_command.specs.Asked.{IsOnlyMade, IsOnlyRead};
ghost use Rattle.mdf_make.specs.Attach.{AreNotCarried, Carries, EndsAttach, IsAttachImage, IsOfCarrying, carry_blamed, fault_of_carry};
ghost use Rattle.mdf_make.specs.Blamed.{BlamesCarried};
ghost use Rattle.mdf_make.specs.Concat.{AreBothLoaded};
ghost use Rattle.mdf_make.specs.Making.{LeavesOf};

use crate::blamed::{Input, Verdict};
use crate::from::FromTwo;
use crate::joining::{Unjoined, run_pair};
use crate::pair_tool::PairTool;
use crate::said::Said;
use mdf_command::{Fault, attach_fault};
use mdf_disk::Disk;
use mdf_num::Bytes;
use mdf_port::Sink;
use std::alloc::Global;
use tool_attach::{CarryFault, attach};

/// The fault of the command. Of the attachments the file says what is one too many; a fault of the second file is printed as one of
/// the first.
fn fault_of(from: &[u8], fault: CarryFault) -> Fault
    ensures { result ≡ fault_of_carry from.now fault }
{
    match fault {
        CarryFault::From(fault) => attach_fault(from, fault),
        CarryFault::File(fault) => Fault::Read(fault),
        CarryFault::Failed => Fault::Device,
        CarryFault::Memory => Fault::Memory,
    }
}

/// The input that such a fault is of.
fn blamed_for(fault: CarryFault) -> Option<Input>
    ensures { result ≡ carry_blamed fault }
{
    match fault {
        CarryFault::From(_) => Some(Input::First),
        CarryFault::File(_) => Some(Input::Second),
        CarryFault::Failed | CarryFault::Memory => None,
    }
}

/// Makes the sorted file of the second of two files with the attachments of the first.
#[derive(Clone, Copy)]
struct Attaching;

impl PairTool for Attaching {
    ghost makes = { λ _. Carries };

    ghost refuses = { λ _. AreNotCarried };

    ghost blames = { λ _. IsOfCarrying };

    fn make<C: Disk>(
        self,
        alloc: Global,
        one: Bytes,
        two: Bytes,
        now_ns: u64,
        out: &mut C,
    ) -> Result<Said, Unjoined> {
        match attach(alloc, one.as_slice(), two, now_ns, out) {
            Ok(report) => Ok(Said::from(report)),
            Err(fault) => Err(Unjoined {
                fault: fault_of(one.as_slice(), fault),
                blamed: blamed_for(fault),
            }),
        }
    }
}

/// `attach A B OUT`: makes the sorted file of the second of two finished ones with the attachments of the first, and prints what it
/// holds, or why none was made. Answers the program's status, and the input that the fault is of.
pub fn run_attach<K: Sink, A: Disk, B: Disk, C: Disk>(
    from: &FromTwo<'_>,
    sink: &mut K,
    first: &mut A,
    second: &mut B,
    out: &mut C,
) -> Verdict
    requires first { A.asked first.old ≡ None }
    requires second { B.asked second.old ≡ None }
    requires out { C.asked out.old ≡ None }
    ensures ends { EndsAttach from.now.now_ns (state_of A.Disk first.old) (state_of A.Disk first.new) (state_of B.Disk second.old) (state_of B.Disk second.new)
        (state_of C.Disk out.old) (state_of C.Disk out.new) (sink_state K.Sink sink.old) (sink_state K.Sink sink.new) result.status }
    ensures blames { BlamesCarried from.now.now_ns (state_of A.Disk first.old) (state_of B.Disk second.old)
        (sink_state K.Sink sink.old) (sink_state K.Sink sink.new) result.status result.blamed }
    ensures any_moment { LeavesOf (AreBothLoaded from.now.now_ns (state_of A.Disk first.old) (state_of B.Disk second.old)) IsAttachImage (state_of C.Disk out.old) (state_of C.Disk out.new) }
    ensures input { IsOnlyRead A.Disk (Some from.now.input.now) first.old first.new }
    ensures other { IsOnlyRead B.Disk (Some from.now.other.now) second.old second.new }
    ensures output { IsOnlyMade C.Disk (Some from.now.output.now) out.old out.new }
{
    run_pair(Attaching, from, sink, first, second, out)
}
