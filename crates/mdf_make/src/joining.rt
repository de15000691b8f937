// Making a file of two others with a tool.
ghost use Rattle.std.specs.Prelude.{◌≡◌, Some, None, IfErr};
ghost use Rattle.mdf_disk.specs.Crash.{HoldsSince};
ghost use Rattle.mdf_disk.specs.State.{state_of};
ghost use Rattle.mdf_port.specs.State.{sink_state};
ghost use Rattle.mdf_command.specs.declared.fault.Fault.TheVariants as faults;
ghost use Rattle.mdf_command.specs.Asked.{IsOnlyMade, IsOnlyRead};
ghost use Rattle.mdf_make.specs.Blamed.{BlamesOne, IsOfEnd, IsOfLoaded, joining_blamed, joining_end, unread_blamed};
ghost use Rattle.mdf_make.specs.Concat.{AreBothLoaded, two_inputs};
ghost use Rattle.mdf_make.specs.Making.{EndsMaking, LeavesOf, MakeComes, MakingComes};
ghost use Rattle.mdf_make.specs.Tool.{IsImage};

use crate::blamed::{Input, Verdict};
use crate::by_tool::report;
use crate::from::FromTwo;
use crate::pair_tool::PairTool;
use crate::said::Said;
use mdf_command::{Fault, load};
use mdf_disk::{Disk, Role};
use mdf_num::{Bytes, Failed, Memory};
use mdf_port::Sink;

/// Why no file was made of two.
#[derive(Clone, Copy)]
pub(crate) struct Unjoined {
    /// The fault that is printed.
    pub(crate) fault: Fault,
    /// The input that it is of.
    pub(crate) blamed: Option<Input>,
}

impl From<Failed> for Unjoined {
    ghost from_gives = { λ _ unjoined. unjoined ≡ record { fault = faults.Device; blamed = None } };

    fn from(_: Failed) -> Self {
        Unjoined {
            fault: Fault::Device,
            blamed: None,
        }
    }
}

impl From<Memory> for Unjoined {
    ghost from_gives = { λ _ unjoined. unjoined ≡ record { fault = faults.Memory; blamed = None } };

    fn from(_: Memory) -> Self {
        Unjoined {
            fault: Fault::Memory,
            blamed: None,
        }
    }
}

/// Why no file was made of two of which this one was not loaded. It is blamed where it is too long.
fn unread(input: Input, fault: Fault) -> Unjoined
    ensures fault { result.fault ≡ fault }
    ensures blamed { result.blamed ≡ unread_blamed input fault }
{
    let blamed = match fault {
        Fault::InputOver { .. } => Some(input),
        _ => None,
    };
    Unjoined { fault, blamed }
}

/// Makes the file of this name of the bytes of two.
fn make_joined<T: PairTool + Drop, C: Disk>(
    tool: T,
    from: &FromTwo<'_>,
    one: Bytes,
    two: Bytes,
    out: &mut C,
) -> Result<Said, Unjoined>
    requires { C.asked out.old ≡ None }
    ensures comes { MakeComes (T.makes tool (record { first = one; second = two; now = from.now.now_ns })) (T.refuses tool (record { first = one; second = two; now = from.now.now_ns }))
        (state_of C.Disk out.old) (state_of C.Disk out.new) (joining_end result) }
    ensures blames { IfErr result (λ unjoined. IsOfLoaded (T.blames tool) (record { first = one; second = two; now = from.now.now_ns }) unjoined.blamed unjoined.fault) }
    ensures any_moment { HoldsSince (C.story out.new) (C.moment out.old) (IsImage (T.makes tool (record { first = one; second = two; now = from.now.now_ns }))) }
    ensures output { IsOnlyMade C.Disk (Some from.now.output.now) out.old out.new }
{
    out.attach(from.output.copy()?, Role::Create)?;
    tool.make(from.alloc, one, two, from.now_ns, out)
}

/// Makes a file of the files of two names, of a third name.
fn join<T: PairTool + Drop, A: Disk, B: Disk, C: Disk>(
    tool: T,
    from: &FromTwo<'_>,
    first: &mut A,
    second: &mut B,
    out: &mut C,
) -> Result<Said, Unjoined>
    requires first { A.asked first.old ≡ None }
    requires second { B.asked second.old ≡ None }
    requires out { C.asked out.old ≡ None }
    ensures comes { MakingComes (two_inputs from.now.now_ns (state_of A.Disk first.old) (state_of A.Disk first.new) (state_of B.Disk second.old) (state_of B.Disk second.new))
        (T.makes tool) (T.refuses tool) (state_of C.Disk out.old) (state_of C.Disk out.new) (joining_end result) }
    ensures blames { IsOfEnd (T.blames tool) from.now.now_ns (state_of A.Disk first.old) (state_of B.Disk second.old) (joining_blamed result) (joining_end result) }
    ensures any_moment { LeavesOf (AreBothLoaded from.now.now_ns (state_of A.Disk first.old) (state_of B.Disk second.old)) (λ asked. IsImage (T.makes tool asked)) (state_of C.Disk out.old) (state_of C.Disk out.new) }
    ensures input { IsOnlyRead A.Disk (Some from.now.input.now) first.old first.new }
    ensures other { IsOnlyRead B.Disk (Some from.now.other.now) second.old second.new }
    ensures output { IsOnlyMade C.Disk (Some from.now.output.now) out.old out.new }
{
    let one = match load(from.alloc, from.input, first) {
        Ok(one) => one,
        Err(fault) => return Err(unread(Input::First, fault)),
    };
    let two = match load(from.alloc, from.other, second) {
        Ok(two) => two,
        Err(fault) => return Err(unread(Input::Second, fault)),
    };
    make_joined(tool, from, one, two, out)
}

/// How the command ends.
fn end_of(joined: Result<Said, Unjoined>) -> Result<Said, Fault>
    ensures { result ≡ joining_end joined }
{
    match joined {
        Ok(report) => Ok(report),
        Err(unjoined) => Err(unjoined.fault),
    }
}

/// The input that it ends for.
fn blamed_of(joined: Result<Said, Unjoined>) -> Option<Input>
    ensures { result ≡ joining_blamed joined }
{
    match joined {
        Ok(_) => None,
        Err(unjoined) => unjoined.blamed,
    }
}

/// Makes a file of two others, and prints what it holds, or why none was made. Answers the program's status, and the input that the
/// fault is of.
pub(crate) fn run_pair<T: PairTool + Drop, K: Sink, A: Disk, B: Disk, C: Disk>(
    tool: T,
    from: &FromTwo<'_>,
    sink: &mut K,
    first: &mut A,
    second: &mut B,
    out: &mut C,
) -> Verdict
    requires first { A.asked first.old ≡ None }
    requires second { B.asked second.old ≡ None }
    requires out { C.asked out.old ≡ None }
    ensures ends { EndsMaking (two_inputs from.now.now_ns (state_of A.Disk first.old) (state_of A.Disk first.new) (state_of B.Disk second.old) (state_of B.Disk second.new))
        (T.makes tool) (T.refuses tool) (state_of C.Disk out.old) (state_of C.Disk out.new) (sink_state K.Sink sink.old) (sink_state K.Sink sink.new) result.status }
    ensures blames { BlamesOne (T.blames tool) from.now.now_ns (state_of A.Disk first.old) (state_of B.Disk second.old)
        (sink_state K.Sink sink.old) (sink_state K.Sink sink.new) result.status result.blamed }
    ensures any_moment { LeavesOf (AreBothLoaded from.now.now_ns (state_of A.Disk first.old) (state_of B.Disk second.old)) (λ asked. IsImage (T.makes tool asked)) (state_of C.Disk out.old) (state_of C.Disk out.new) }
    ensures input { IsOnlyRead A.Disk (Some from.now.input.now) first.old first.new }
    ensures other { IsOnlyRead B.Disk (Some from.now.other.now) second.old second.new }
    ensures output { IsOnlyMade C.Disk (Some from.now.output.now) out.old out.new }
{
    let joined = join(tool, from, first, second, out);
    let status = report(sink, &end_of(joined));
    Verdict {
        status,
        blamed: blamed_of(joined),
    }
}
