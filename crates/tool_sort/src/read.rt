ghost use Rattle.std.specs.Prelude.{IfOk, IfErr, IfNone};
ghost use Rattle.mdf_block.specs.Refusal.{GivesOf};
ghost use Rattle.mdf_content.specs.Fault.{read_refusal};
ghost use Rattle.mdf_model.specs.Identified.{IsIdentified};
ghost use Rattle.mdf_model.specs.Measurement.{measurement};
ghost use Rattle.mdf_spell.specs.Standing.{AreBytes};
ghost use Rattle.tool_sort.specs.Kept.{StandsIn};

use mdf_model::{Measurement, ReadFault, take_file};
use mdf_num::Bytes;
use std::alloc::Global;

/// The items of a slice of bytes are bytes.
fn are_bytes(bytes: &[u8])
    ensures { AreBytes bytes.now }
{
    let _bytes = bytes;
}

/// The measurement of a finalized file that is handed over, as `take_file` of `mdf_model`. It stands in the file, so a sorted file that
/// is made of it keeps it.
///
/// # Errors
/// As `read_measurement` of `mdf_model`.
pub fn take_standing(alloc: Global, file: Bytes) -> Result<Measurement, ReadFault>
    ensures exact { GivesOf read_refusal result (measurement file) }
    ensures first { IfErr result (λ fault. IfNone (read_refusal fault) (IsIdentified file)) }
    ensures stands { IfOk result (StandsIn file) }
{
    are_bytes(file.as_slice());
    take_file(alloc, file)
}
