ghost use Rattle.std.specs.Prelude.{IfOk, IfErr};
ghost use Rattle.mdf_attach.specs.Listed.{attachments, GivesList};
ghost use Rattle.mdf_attach.specs.Lacks.{LacksAttachments};
ghost use Rattle.tool_sort.specs.Kept.{StandsIn};
ghost use Rattle.tool_attach.specs.Making.{AreTaken, FromRead, FileRead};

use crate::fault::CarryFault;
use mdf_attach::{AttachFault, Attachment, read_attachments};
use mdf_content::ReadFault;
use mdf_model::Measurement;
use mdf_num::{Bytes, Rows};
use std::alloc::Global;
use tool_sort::take_standing;

/// The attachments of a file. What is read of bytes can be written.
fn taken(alloc: Global, bytes: &[u8]) -> Result<Rows<Attachment>, AttachFault>
    ensures exact { GivesList result (attachments bytes.now) }
    ensures taken { IfOk result (AreTaken bytes.now) }
    ensures refused { IfErr result (LacksAttachments bytes.now) }
{
    read_attachments(alloc, bytes)
}

/// The attachments of the first file.
pub(crate) fn attachments_from(alloc: Global, from: &[u8]) -> Result<Rows<Attachment>, CarryFault>
    ensures { FromRead from.now result }
{
    match taken(alloc, from) {
        Ok(rows) => Ok(rows),
        Err(AttachFault::Memory) => Err(CarryFault::Memory),
        Err(fault) => Err(CarryFault::From(fault)),
    }
}

/// The measurement of the file that they are carried into, which is handed over.
pub(crate) fn measurement_of(alloc: Global, file: Bytes) -> Result<Measurement, CarryFault>
    ensures read { FileRead file result }
    ensures stands { IfOk result (StandsIn file) }
{
    match take_standing(alloc, file) {
        Ok(found) => Ok(found),
        Err(ReadFault::Memory) => Err(CarryFault::Memory),
        Err(fault) => Err(CarryFault::File(fault)),
    }
}
