use mdf_block::{Kind, What};
use mdf_conv::ConvFault;
use thiserror::Error;

/// Why the groups of a file are refused.
#[derive(Clone, Copy, Debug, Error)]
pub enum GroupFault {
    /// No block of that kind stands whole at the address; for a text the kind is Tx.
    #[error("no whole block of the kind that is wanted at {at}")]
    Bad { at: u64, want: Kind },
    /// The block or the text at the address is one too many.
    #[error("too many at {at}")]
    TooMany { what: What, at: u64 },
    /// The channel at the address is of a kind that is not read: 4, 5 or over 6.
    #[error("channel kind {kind} at {at}")]
    ChannelKind { at: u64, kind: u8 },
    /// The channel at the address has a data type that is not read: over 14.
    #[error("channel type {value} at {at}")]
    ChannelType { at: u64, value: u8 },
    /// The conversion at the address is the fifth that is open at once.
    #[error("a conversion too deep at {at}")]
    Deep { at: u64 },
    /// Want of memory. A reader over a span never has it in a fault.
    #[error("want of memory")]
    Memory,
}

impl From<ConvFault> for GroupFault {
    ghost use Rattle.mdf_block.specs.Refusal.{Renames};
    ghost use Rattle.mdf_conv.specs.Conv.{conv_refusal};
    ghost use Rattle.mdf_group.specs.Link.{group_refusal};

    ghost from_gives = { Renames conv_refusal group_refusal };

    fn from(fault: ConvFault) -> GroupFault {
        match fault {
            ConvFault::Bad { at, want } => GroupFault::Bad { at, want },
            ConvFault::Deep { at } => GroupFault::Deep { at },
            ConvFault::TooMany { what, at } => GroupFault::TooMany { what, at },
            ConvFault::Memory => GroupFault::Memory,
        }
    }
}
