use mdf_format::Kind;
use thiserror::Error;

/// Why a block is refused.
#[derive(Clone, Copy, Debug, Error)]
pub enum BlockFault {
    /// No block of that kind stands whole at the address.
    #[error("no whole block of the kind that is wanted at {at}")]
    Bad { at: u64, want: Kind },
    /// A DZBLOCK or an HLBLOCK stands where plain data is wanted.
    #[error("compressed data at {at}")]
    Compressed { at: u64 },
}

/// Why a text is refused.
#[derive(Clone, Copy, Debug, Error)]
pub enum NoteFault {
    /// Neither a TXBLOCK nor an MDBLOCK stands whole at the address.
    #[error("no whole text at {at}")]
    Bad { at: u64 },
    /// The text is longer than the bytes that texts may still have.
    #[error("too many bytes of texts at {at}")]
    TooMany { at: u64 },
    /// Want of memory. A reader over a span never has it in a fault.
    #[error("want of memory")]
    Memory,
}
