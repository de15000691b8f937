ghost use Rattle.std.specs.Prelude.{◌≡◌, ◌+◌, ◌-◌, ◌≤◌, ◌<◌, ◌^◌, [], length, true, IfSome, OnOk, OnErr};
ghost use Rattle.std.specs.List.{concat};
ghost use Rattle.mdf_format.specs.Cause.{HasCause};
ghost use Rattle.mdf_disk.specs.Crash.{Adds};
ghost use Rattle.mdf_disk.specs.Goes.{GoesOn};
ghost use Rattle.mdf_seal.specs.Images.{IsClosed, IsSealedImage, IsUnopened};
ghost use Rattle.mdf_seal.specs.Seal.{Seals, IsBlank, IsKept, synced};

use crate::Sealed;
use mdf_disk::Disk;
use mdf_num::{Bytes, Failed, Pieces};

/// Gives these pieces, one behind the other, to a file of which nothing was given yet. For an empty one it makes no call.
fn give_all<D: Disk>(seal: &mut Sealed, disk: &mut D, pieces: &[Bytes]) -> Result<(), Failed>
    requires attached { D.attached disk.old ≡ true }
    requires begun { Seals seal.old (D.content disk.old) (D.story disk.old) [] }
    requires short { length (concat pieces.now) < 2 ^ 62 }
    ensures ok { OnOk result (Seals seal.new (D.content disk.new) (D.story disk.new) (concat pieces.now)) }
    ensures any_moment { Adds (D.story disk.old) (D.story disk.new) IsClosed }
    ensures unsynced { synced (D.story disk.new) ≡ synced (D.story disk.old) }
    ensures calls { IfSome (D.story disk.old) (λ _. D.moment disk.new ≤ D.moment disk.old + (length (concat pieces.now) - 1)) }
    ensures cause { HasCause (D.faults disk.old) (D.faults disk.new) result }
    ensures goes_on { GoesOn D.Disk disk.old disk.new }
{
    for piece in pieces {
        seal.give(disk, piece.as_slice())?;
    }
    Ok(())
}

/// Writes a whole file under a seal, piece by piece, on a disk that is attached with an empty file. It makes five calls, and one for
/// each piece that has more than the first byte.
///
/// # Errors
/// `Failed` where the disk failed. Then a disk that tells its story keeps no byte, a closed one, or all but the first
/// byte behind a closed one.
pub fn write_sealed<D: Disk>(disk: &mut D, file: &Pieces) -> Result<(), Failed>
    requires attached { D.attached disk.old ≡ true }
    requires blank { IsBlank (D.content disk.old) (D.story disk.old) }
    requires some { 1 ≤ length file.now }
    ensures ok { OnOk result (IsKept (D.content disk.new) (D.story disk.new) file.now) }
    ensures any_moment { Adds (D.story disk.old) (D.story disk.new) (IsSealedImage file.now) }
    ensures unopened { OnErr result (IfSome (synced (D.story disk.new)) (IsUnopened file.now)) }
    ensures calls { IfSome (D.story disk.old) (λ _. D.moment disk.new ≤ D.moment disk.old + (length file.now + 4)) }
    ensures cause { HasCause (D.faults disk.old) (D.faults disk.new) result }
    ensures goes_on { GoesOn D.Disk disk.old disk.new }
{
    let mut seal = Sealed::begin(disk)?;
    give_all(&mut seal, disk, file.as_slice())?;
    seal.finish(disk)
}
