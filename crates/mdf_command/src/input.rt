ghost use Rattle.std.specs.Prelude.{◌≡◌, ◌≤◌, Some, None, true, length, IsOk, OnOk, IfErr, IfSome};
ghost use Rattle.mdf_disk.specs.State.{state_of};
ghost use Rattle.mdf_disk.specs.declared.role.Role.TheVariants.{Read};
ghost use Rattle.mdf_command.specs.Asked.{IsOnlyRead};
ghost use Rattle.mdf_command.specs.Load.{IsCalm, LoadComes, LoadFaultOf};

use crate::fault::Fault;
use mdf_disk::{Disk, Role, read_whole};
use mdf_num::Bytes;
use std::alloc::Global;

/// How many bytes a script has at most.
pub const SCRIPT_LIMIT: u64 = 67_108_864;

/// How many bytes an input file has at most that is held whole.
pub const INPUT_LIMIT: u64 = 536_870_912;

/// How many bytes an input file has at most that is read piece by piece.
pub const READING_LIMIT: u64 = 1_099_511_627_776;

/// Loads the file of this name.
///
/// # Errors
/// `Device` where the disk failed, `InputOver` where the file has more than 536,870,912 bytes, and `Memory` where memory
/// runs out.
pub fn load<A: Disk>(alloc: Global, input: &Bytes, first: &mut A) -> Result<Bytes, Fault>
    requires { A.asked first.old ≡ None }
    ensures comes { LoadComes (state_of A.Disk first.old) (state_of A.Disk first.new) result }
    ensures attached { IsOk result → A.attached first.new ≡ true }
    ensures calm { OnOk result (IsCalm (state_of A.Disk first.old) (state_of A.Disk first.new)) }
    ensures input { IsOnlyRead A.Disk (Some input.now) first.old first.new }
{
    first.attach(input.copy()?, Role::Read)?;
    Ok(read_whole(alloc, first, INPUT_LIMIT)?)
}

/// Attaches the file of this name, to be read piece by piece.
///
/// # Errors
/// `Device` where the disk failed, `InputOver` where the file has more than `most` bytes, and `Memory` where memory runs out for its
/// name.
pub fn open<A: Disk>(input: &Bytes, first: &mut A, most: u64) -> Result<(), Fault>
    requires { A.asked first.old ≡ None }
    ensures short { OnOk result (IfSome (A.content first.old) (λ file. length file ≤ most)) }
    ensures fault { IfErr result (LoadFaultOf most (state_of A.Disk first.old) (state_of A.Disk first.new)) }
    ensures attached { IsOk result → A.attached first.new ≡ true }
    ensures calm { OnOk result (IsCalm (state_of A.Disk first.old) (state_of A.Disk first.new)) }
    ensures named { OnOk result (A.asked first.new ≡ Some (input.now, Read)) }
    ensures input { IsOnlyRead A.Disk (Some input.now) first.old first.new }
{
    let name = input.copy()?;
    first.attach(name, Role::Read)?;
    let size = first.size()?;
    if size > most {
        return Err(Fault::InputOver { size, limit: most });
    }
    Ok(())
}
