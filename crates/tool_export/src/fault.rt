ghost use Rattle.std.specs.Prelude.{◌≡◌};
ghost use Rattle.tool_export.specs.Export.{fault_of_halt, fault_of_read};

use mdf_content::ReadFault;
use mdf_num::{Failed, Halt};
use thiserror::Error;

/// Why no table, or not all of it, was given.
#[derive(Clone, Copy, Debug, Error)]
pub enum ExportFault {
    /// The file is refused. Want of memory is never in it.
    #[error("the file is refused")]
    Read(ReadFault),
    /// The file has no group of the number that was said.
    #[error("no group {said} of {groups}")]
    NoGroup {
        /// The number, counted from 0.
        said: u64,
        /// How many groups with samples the file has.
        groups: u32,
    },
    /// The sink failed.
    #[error("the sink failed")]
    Failed,
    /// Want of memory.
    #[error("want of memory")]
    Memory,
}

impl From<ReadFault> for ExportFault {
    ghost from_gives = { λ read fault. fault ≡ fault_of_read read };

    fn from(fault: ReadFault) -> Self {
        match fault {
            ReadFault::Memory => ExportFault::Memory,
            fault => ExportFault::Read(fault),
        }
    }
}

impl From<Halt<Failed>> for ExportFault {
    ghost from_gives = { λ halt fault. fault ≡ fault_of_halt halt };

    fn from(halt: Halt<Failed>) -> Self {
        match halt {
            Halt::Fault(_) | Halt::Failed => ExportFault::Failed,
            Halt::Memory => ExportFault::Memory,
        }
    }
}
