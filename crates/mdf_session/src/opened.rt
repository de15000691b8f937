ghost use Rattle.std.specs.Prelude.{◌≡◌, true, IfOk};
ghost use Rattle.mdf_block.specs.Reads.{Reads};
ghost use Rattle.mdf_stream.specs.Parts.{AreBehind, ArePartsInside};
ghost use Rattle.mdf_content.specs.Fault.{read_refusal};
ghost use Rattle.mdf_gate.specs.Fault.{gate_refusal};
ghost use Rattle.mdf_gate.specs.Units.{opened_parts};

use mdf_content::ReadFault;
use mdf_format::Form;
use mdf_gate::{GateFault, opened_in};
use mdf_num::{Halt, Span};
use mdf_stream::DataView;
use std::alloc::Global;

/// The fault of a file that has no opened blocks, as one of its readers.
fn fault_of(fault: GateFault) -> ReadFault
    ensures { read_refusal result ≡ gate_refusal fault }
{
    match fault {
        GateFault::NotMdf => ReadFault::NotMdf,
        GateFault::Version { ver } => ReadFault::Version { ver },
        GateFault::NotRecording { std, custom } => ReadFault::NotRecording { std, custom },
        GateFault::Bad { at, want } => ReadFault::Block { at, want },
    }
}

/// The bodies of the opened blocks of a recording of this form whose first place is this one, as one stream.
///
/// # Errors
/// Those of `opened_in`.
pub(crate) fn opened_stream_in<P: Span>(
    alloc: Global,
    span: &mut P,
    form: Form,
    first: u64,
) -> Result<DataView, Halt<ReadFault>>
    ensures reads { Reads P.Span span.old span.new true read_refusal result (λ file. opened_parts form file first) }
    ensures inside { IfOk result (ArePartsInside (P.size span.old)) }
    ensures behind { IfOk result (AreBehind 0) }
{
    match opened_in(alloc, span, form, first) {
        Ok(view) => Ok(view),
        Err(Halt::Fault(fault)) => Err(Halt::Fault(fault_of(fault))),
        Err(Halt::Failed) => Err(Halt::Failed),
        Err(Halt::Memory) => Err(Halt::Memory),
    }
}
