use mdf_block::BlockFault;
use mdf_format::Kind;
use thiserror::Error;

/// Why a data link is refused.
#[derive(Clone, Copy, Debug, Error)]
pub enum DataFault {
    /// No block of that kind stands whole at the address.
    #[error("no whole block of the kind that is wanted at {at}")]
    Bad { at: u64, want: Kind },
    /// A DZBLOCK or an HLBLOCK stands where plain data is wanted.
    #[error("compressed data at {at}")]
    Compressed { at: u64 },
    /// The block at the address would be number 1,048,577, the DLBLOCKs counted.
    #[error("too many blocks of data at {at}")]
    TooMany { at: u64 },
    /// Want of memory. A reader over a span never has it in a fault.
    #[error("want of memory")]
    Memory,
}

impl From<BlockFault> for DataFault {
    ghost use Rattle.mdf_block.specs.Block.{block_refusal};
    ghost use Rattle.mdf_block.specs.Refusal.{Renames};
    ghost use Rattle.mdf_stream.specs.Link.{data_refusal};

    ghost from_gives = { Renames block_refusal data_refusal };

    fn from(fault: BlockFault) -> DataFault {
        match fault {
            BlockFault::Bad { at, want } => DataFault::Bad { at, want },
            BlockFault::Compressed { at } => DataFault::Compressed { at },
        }
    }
}
