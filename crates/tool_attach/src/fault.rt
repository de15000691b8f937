ghost use Rattle.std.specs.Prelude.{◌≡◌};
ghost use Rattle.tool_attach.specs.declared.fault.CarryFault.TheVariants as faults;

use mdf_attach::AttachFault;
use mdf_content::ReadFault;
use mdf_num::Memory;
use thiserror::Error;

/// Why no attachments were carried.
#[derive(Clone, Copy, Debug, Error)]
pub enum CarryFault {
    /// The attachments of the first file are refused. Want of memory is never in it.
    #[error("the attachments are refused")]
    From(AttachFault),
    /// The file that they are carried into is refused. Want of memory is never in it.
    #[error("the input is refused")]
    File(ReadFault),
    /// The output's disk failed.
    #[error("a device failed")]
    Failed,
    /// Want of memory.
    #[error("want of memory")]
    Memory,
}

impl From<Memory> for CarryFault {
    ghost from_gives = { λ _ fault. fault ≡ faults.Memory };

    fn from(_: Memory) -> Self {
        CarryFault::Memory
    }
}
