// How a command ends.
ghost use Rattle.std.specs.Prelude.{◌≡◌};
ghost use Rattle.mdf_command.specs.Faults.{end_status, fault_line, fault_status};
ghost use Rattle.mdf_command.specs.Texts.{Prints};
ghost use Rattle.mdf_command.specs.declared.fault.Fault.TheVariants.{Memory};
ghost use Rattle.mdf_port.specs.State.{sink_state};

use crate::fault::Fault;
use crate::report::status_after;
use mdf_port::Sink;

/// The status of a command that ended so, if its lines were printed: 0, or that of the fault.
pub fn status_of<T>(end: &Result<T, Fault>) -> u8
    ensures { result ≡ end_status end.now }
{
    match end {
        Ok(_) => 0,
        Err(fault) => fault.status(),
    }
}

/// Ends a program that ran out of memory before it did anything: it prints the line of that, and answers the program's status. It
/// takes no memory.
pub fn run_unread<K: Sink>(sink: &mut K) -> u8
    ensures { Prints (fault_line Memory) (fault_status Memory) (sink_state K.Sink sink.old) (sink_state K.Sink sink.new) result }
{
    let fault = Fault::Memory;
    let given = fault.give(sink);
    status_after(given, fault.status())
}
