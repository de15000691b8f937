ghost use Rattle.std.specs.Prelude.{ℕ, List};
ghost use Rattle.mdf_record.specs.Recoverable.{IsRecoverable};
ghost use Rattle.mdf_record.specs.Recovers.{IsFinalizable};

use mdf_carried::what_is_recovered_is_read;

/// A law: a file that holds a recording, within the limits of the reader, is finalized where it is the input of a command,
/// whoever wrote it.
pub fn what_is_recoverable_is_finalizable()
    ensures { (file : List ℕ) → IsRecoverable file → IsFinalizable file }
{
    what_is_recovered_is_read();
}
