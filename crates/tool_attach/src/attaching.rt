ghost use Rattle.std.specs.Prelude.{◌≡◌, true, IfErr, IfOk};
ghost use Rattle.mdf_disk.specs.Crash.{Adds};
ghost use Rattle.mdf_disk.specs.Goes.{GoesOn};
ghost use Rattle.mdf_disk.specs.State.{state_of};
ghost use Rattle.mdf_seal.specs.Seal.{IsBlank};
ghost use Rattle.tool_attach.specs.Carry.{CarryEnds, IsCarryImage};
ghost use Rattle.tool_attach.specs.Making.{IsMadeOf, IsRefusal, unwritten};

use crate::fault::CarryFault;
use crate::made::make_attached;
use crate::read::{attachments_from, measurement_of};
use mdf_disk::Disk;
use mdf_num::Bytes;
use mdf_tool::{Made, Report, ToolFault, write_made};
use std::alloc::Global;

/// The sorted file of the one file with the attachments of the other, with what is told of it.
fn made_from(alloc: Global, from: &[u8], file: Bytes, now_ns: u64) -> Result<Made, CarryFault>
    ensures made { IfOk result (IsMadeOf (record { from = from.now; file = file; now = now_ns })) }
    ensures refused { IfErr result (IsRefusal (record { from = from.now; file = file; now = now_ns })) }
{
    let rows = attachments_from(alloc, from)?;
    let found = measurement_of(alloc, file)?;
    let made = make_attached(alloc, found, rows, now_ns)?;
    Ok(made)
}

/// The fault of a file that was made and is not written.
fn unwritten(fault: ToolFault) -> CarryFault
    ensures { result ≡ unwritten fault }
{
    match fault {
        ToolFault::Failed => CarryFault::Failed,
        ToolFault::Memory | ToolFault::Read(_) => CarryFault::Memory,
    }
}

/// Writes the sorted file of a finished file at `now_ns` (ns since 1970) with the attachments of another one, under a seal, on a
/// disk that is attached with an empty file, and answers what is told of it. The header's link to its first attachment names the
/// end of the sorted file, and each attachment follows with its name, its MIME type and its comment. Flags, number of the entry of the
/// history, MD5, sizes and embedded data are written as they were read, compressed data too. What is told is of the file that they
/// are carried into, which is handed over: its own attachments are among the links that were passed over.
///
/// # Errors
/// Of all but `Failed` no call of the disk was made. `From` where the attachments are refused, with the first fault of
/// `read_attachments`; otherwise `File` where the file that they are carried into is, with the first fault of `read_measurement`.
/// `Failed` where the disk failed. `Memory` where memory runs out, or where there are more samples than a u64 counts.
pub fn attach<C: Disk>(
    alloc: Global,
    from: &[u8],
    file: Bytes,
    now_ns: u64,
    out: &mut C,
) -> Result<Report, CarryFault>
    requires attached { C.attached out.old ≡ true }
    requires blank { IsBlank (C.content out.old) (C.story out.old) }
    ensures ends { CarryEnds (record { from = from.now; file = file; now = now_ns }) (state_of C.Disk out.old) (state_of C.Disk out.new) result }
    ensures any_moment { Adds (C.story out.old) (C.story out.new) (IsCarryImage (record { from = from.now; file = file; now = now_ns })) }
    ensures goes_on { GoesOn C.Disk out.old out.new }
{
    let made = made_from(alloc, from, file, now_ns)?;
    match write_made(out, made) {
        Ok(report) => Ok(report),
        Err(fault) => Err(unwritten(fault)),
    }
}
