ghost use Rattle.std.specs.Prelude.{◌≡◌, ◌↔◌, IsTrue, Ok, IfOk, IfErr, IfSome, IfNone};
ghost use Rattle.mdf_block.specs.Refusal.{GivesOf};
ghost use Rattle.mdf_head.specs.declared.identity.Ident.{Ident};
ghost use Rattle.mdf_content.specs.Fault.{read_refusal};
ghost use Rattle.mdf_model.specs.Tree.{finalized};
ghost use Rattle.mdf_model.specs.Measurement.{measurement};
ghost use Rattle.mdf_model.specs.InWords.{IsMeasurement, IsValidFile};
ghost use Rattle.mdf_model.specs.Truth.{IsTrueOfFile};

use crate::{Measurement, ReadFault, read_measurement, take_measurement};
use mdf_num::Bytes;
use std::alloc::Global;

/// The measurement of a finalized file, as `read_measurement`, with what it is in the standard's words: it
/// is strict exactly where the file is valid, and a refusal is true of the file.
///
/// # Errors
/// As `read_measurement`.
pub fn read_file(alloc: Global, bytes: &[u8]) -> Result<Measurement, ReadFault>
    ensures exact { GivesOf read_refusal result (measurement bytes.now) }
    ensures first { IfErr result (λ fault. IfNone (read_refusal fault) ((id : Ident) × (finalized bytes.now ≡ Ok id))) }
    ensures measurement { IfOk result (λ m. IsMeasurement bytes.now m.head m.history m.groups) }
    ensures strict { IfOk result (λ m. IsTrue m.strict ↔ IsValidFile bytes.now) }
    ensures refused { IfErr result (λ fault. IfSome (read_refusal fault) (IsTrueOfFile bytes.now)) }
{
    read_measurement(alloc, bytes)
}

/// The measurement of a finalized file that is handed over, as `take_measurement`, with what `read_file` says of it.
///
/// # Errors
/// As `read_measurement`.
pub fn take_file(alloc: Global, file: Bytes) -> Result<Measurement, ReadFault>
    ensures exact { GivesOf read_refusal result (measurement file) }
    ensures first { IfErr result (λ fault. IfNone (read_refusal fault) ((id : Ident) × (finalized file ≡ Ok id))) }
    ensures measurement { IfOk result (λ m. IsMeasurement file m.head m.history m.groups) }
    ensures strict { IfOk result (λ m. IsTrue m.strict ↔ IsValidFile file) }
    ensures refused { IfErr result (λ fault. IfSome (read_refusal fault) (IsTrueOfFile file)) }
{
    take_measurement(alloc, file)
}
