ghost use Rattle.std.specs.Prelude.{◌≡◌, ◌+◌, ◌≤◌, length, true, IfSome};
ghost use Rattle.mdf_format.specs.Identification.{IsFinalized};
ghost use Rattle.mdf_disk.specs.Crash.{Adds};
ghost use Rattle.mdf_disk.specs.Goes.{GoesOn};
ghost use Rattle.mdf_disk.specs.State.{state_of};
ghost use Rattle.mdf_seal.specs.Seal.{IsBlank};
ghost use Rattle.mdf_tool.specs.Tool.{IsToolImage, WriteEnds};

use crate::{Made, Report, ToolFault};
use mdf_disk::Disk;
use mdf_seal::write_sealed;

/// Writes the file that a tool made under a seal, on a disk that is attached with an empty file, and answers what is told
/// of it. It takes no memory, and makes no calls but those of the seal. Whatever a crash leaves is the whole file, or has at
/// most one byte or a first byte other than `M`. As the file is marked as finalized, that is no MDF file.
///
/// # Errors
/// `Failed` where the disk failed.
pub fn write_made<C: Disk>(out: &mut C, made: Made) -> Result<Report, ToolFault>
    requires attached { C.attached out.old ≡ true }
    requires blank { IsBlank (C.content out.old) (C.story out.old) }
    requires marked { IsFinalized made.bytes }
    ensures ends { WriteEnds made (state_of C.Disk out.old) (state_of C.Disk out.new) result }
    ensures any_moment { Adds (C.story out.old) (C.story out.new) (IsToolImage made.bytes) }
    ensures calls { IfSome (C.story out.old) (λ _. C.moment out.new ≤ C.moment out.old + (length made.bytes + 4)) }
    ensures goes_on { GoesOn C.Disk out.old out.new }
{
    let Made { bytes, report } = made;
    write_sealed(out, &bytes)?;
    Ok(report)
}
