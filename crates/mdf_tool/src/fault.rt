ghost use Rattle.std.specs.Prelude.{◌≡◌};
ghost use Rattle.mdf_tool.specs.Tool.{fault_of_read};
ghost use Rattle.mdf_tool.specs.declared.fault.ToolFault.TheVariants.{Failed as DeviceFailed, Memory as NoMemory};

use mdf_content::ReadFault;
use mdf_num::{Failed, Memory};
use thiserror::Error;

/// Why a tool made no file.
#[derive(Clone, Copy, Debug, Error)]
pub enum ToolFault {
    /// The input is refused. Want of memory is never in it.
    #[error("the input is refused")]
    Read(ReadFault),
    /// The output's disk failed.
    #[error("a device failed")]
    Failed,
    /// Want of memory.
    #[error("want of memory")]
    Memory,
}

impl From<ReadFault> for ToolFault {
    ghost from_gives = { λ read fault. fault ≡ fault_of_read read };

    fn from(fault: ReadFault) -> Self {
        match fault {
            ReadFault::Memory => ToolFault::Memory,
            fault => ToolFault::Read(fault),
        }
    }
}

impl From<Failed> for ToolFault {
    ghost from_gives = { λ _ fault. fault ≡ DeviceFailed };

    fn from(_: Failed) -> Self {
        ToolFault::Failed
    }
}

impl From<Memory> for ToolFault {
    ghost from_gives = { λ _ fault. fault ≡ NoMemory };

    fn from(_: Memory) -> Self {
        ToolFault::Memory
    }
}
