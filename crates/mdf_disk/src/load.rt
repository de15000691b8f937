ghost use Rattle.std.specs.Prelude.{◌≡◌, ◌≤◌, ◌<◌, true, IfSome, IfOk, IfErr, OnOk, length};
ghost use Rattle.mdf_disk.specs.declared.load.LoadFault.TheVariants.{Failed as DeviceFailed, Memory as NoMemory};
ghost use Rattle.mdf_disk.specs.Goes.{OnlyRead};
ghost use Rattle.mdf_disk.specs.Load.{LoadCause};

use crate::Disk;
use mdf_num::{Bytes, Failed};
use std::alloc::{AllocError, Global};
use thiserror::Error;

/// Why a file could not be read whole.
#[derive(Clone, Copy, Debug, Error)]
pub enum LoadFault {
    /// The disk failed.
    #[error("the device failed")]
    Failed,
    /// The file has more bytes than the limit.
    #[error("{size} bytes are over the limit of {limit}")]
    TooLong { size: u64, limit: u64 },
    /// Want of memory.
    #[error("want of memory")]
    Memory,
}

impl From<Failed> for LoadFault {
    ghost from_gives = { λ _ fault. fault ≡ DeviceFailed };

    fn from(_: Failed) -> Self {
        LoadFault::Failed
    }
}

impl From<AllocError> for LoadFault {
    ghost from_gives = { λ _ fault. fault ≡ NoMemory };

    fn from(_: AllocError) -> Self {
        LoadFault::Memory
    }
}

/// Reads the whole file.
///
/// # Errors
/// `TooLong` only where the size answered is over the limit. `Failed` where the disk failed.
/// `Memory` for want of memory, of a file within the limit, where the disk did not fail.
pub fn read_whole<D: Disk>(alloc: Global, disk: &mut D, limit: u64) -> Result<Bytes, LoadFault>
    requires { D.attached disk.old ≡ true }
    ensures bytes { IfOk result (λ bytes. IfSome (D.content disk.old) (λ file. bytes ≡ file)) }
    ensures short { IfOk result (λ bytes. length bytes ≤ limit) }
    ensures cause { IfErr result (LoadCause (D.content disk.old) (D.faults disk.old) (D.faults disk.new) limit) }
    ensures calm { OnOk result (D.faults disk.new ≡ D.faults disk.old) }
    ensures later { D.faults disk.old ≤ D.faults disk.new }
    ensures only_read { OnlyRead D.Disk disk.old disk.new }
{
    let size = disk.size()?;
    if size > limit {
        return Err(LoadFault::TooLong { size, limit });
    }
    let mut bytes = vec![in alloc; 0u8; size as usize]?;
    disk.read_at(0, &mut bytes)?;
    Ok(Bytes::from_vec(bytes))
}
