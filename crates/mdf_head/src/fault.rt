use mdf_block::{Kind, NoteFault, What};
use thiserror::Error;

/// Why the first 64 bytes of a file are refused.
#[derive(Clone, Copy, Debug, Error)]
pub enum IdentFault {
    /// They are no identification of an MDF file.
    #[error("no MDF file")]
    NotMdf,
    /// The version is not one of 4.00 to 4.19.
    #[error("version {ver} is not read")]
    Version { ver: u16 },
}

/// Why the header or the file history is refused.
#[derive(Clone, Copy, Debug, Error)]
pub enum HeadFault {
    /// No block of that kind stands whole at the address; for a text the kind is Tx.
    #[error("no whole block of the kind that is wanted at {at}")]
    Bad { at: u64, want: Kind },
    /// The FHBLOCK or the text at the address is one too many.
    #[error("too many at {at}")]
    TooMany { what: What, at: u64 },
    /// Want of memory. A reader over a span never has it in a fault.
    #[error("want of memory")]
    Memory,
}

impl From<NoteFault> for HeadFault {
    ghost use Rattle.mdf_block.specs.Refusal.{Renames};
    ghost use Rattle.mdf_block.specs.Text.{note_refusal};
    ghost use Rattle.mdf_head.specs.Head.{head_refusal};

    ghost from_gives = { Renames note_refusal head_refusal };

    fn from(fault: NoteFault) -> HeadFault {
        match fault {
            NoteFault::Bad { at } => HeadFault::Bad { at, want: Kind::Tx },
            NoteFault::TooMany { at } => HeadFault::TooMany {
                what: What::Text,
                at,
            },
            NoteFault::Memory => HeadFault::Memory,
        }
    }
}
