use mdf_block::{Kind, NoteFault, What};
use thiserror::Error;

/// Why a conversion or a source is refused.
#[derive(Clone, Copy, Debug, Error)]
pub enum ConvFault {
    /// No block of that kind stands whole at the address; for a text the kind is Tx.
    #[error("no whole block of the kind that is wanted at {at}")]
    Bad { at: u64, want: Kind },
    /// The conversion at the address is the fifth that is open at once.
    #[error("a conversion too deep at {at}")]
    Deep { at: u64 },
    /// The conversion or the text at the address is one too many.
    #[error("too many at {at}")]
    TooMany { what: What, at: u64 },
    /// Want of memory. A reader over a span never has it in a fault.
    #[error("want of memory")]
    Memory,
}

impl From<NoteFault> for ConvFault {
    ghost use Rattle.mdf_block.specs.Refusal.{Renames};
    ghost use Rattle.mdf_block.specs.Text.{note_refusal};
    ghost use Rattle.mdf_conv.specs.Conv.{conv_refusal};

    ghost from_gives = { Renames note_refusal conv_refusal };

    fn from(fault: NoteFault) -> ConvFault {
        match fault {
            NoteFault::Bad { at } => ConvFault::Bad { at, want: Kind::Tx },
            NoteFault::TooMany { at } => ConvFault::TooMany {
                what: What::Text,
                at,
            },
            NoteFault::Memory => ConvFault::Memory,
        }
    }
}
