ghost use Rattle.mdf_block.specs.Block.{block_refusal};
ghost use Rattle.mdf_block.specs.Refusal.{Renames};
ghost use Rattle.mdf_stream.specs.Link.{data_refusal};
ghost use Rattle.mdf_data.specs.Record.{split_refusal};
ghost use Rattle.mdf_head.specs.Head.{head_refusal};
ghost use Rattle.mdf_group.specs.Link.{group_refusal};
ghost use Rattle.mdf_content.specs.Fault.{read_refusal};

use mdf_block::{BlockFault, Kind, What};
use mdf_data::{DataFault, SplitFault};
use mdf_group::GroupFault;
use mdf_head::HeadFault;
use std::error::Error;
use std::fmt;

/// Why a file has no measurement. Addresses and places are in bytes.
#[derive(Clone, Copy, Debug)]
pub enum ReadFault {
    /// The first 64 bytes are no identification of an MDF file.
    NotMdf,
    /// The file says that it is not finalized; these are its flags.
    Unfinalized { std: u16, custom: u16 },
    /// The version is not one of 4.00 to 4.19.
    Version { ver: u16 },
    /// No block of that kind stands whole at the address. For a text the kind is Tx; for a reference of a conversion it is
    /// Cc where `##CC` stands there, else Tx; for a data link it is Dl where `##DL` stands there, else Dt or Sd.
    Block { at: u64, want: Kind },
    /// A DZBLOCK or an HLBLOCK stands where plain data is wanted.
    Compressed { at: u64 },
    /// The block or the text at the address is one too many; for samples it is their CGBLOCK.
    TooMany { what: What, at: u64 },
    /// The channel at the address is of a kind that is not read: 4, 5 or over 6.
    ChannelKind { at: u64, kind: u8 },
    /// The channel at the address has a data type that is not read: over 14.
    ChannelType { at: u64, value: u8 },
    /// The channel (CNBLOCK) at the address has no place in its record; or the data group (DGBLOCK) at the address has an
    /// id size that is none of 0, 1, 2, 4 and 8, or 0 with more than one channel group.
    Layout { at: u64 },
    /// A whole record id stands at the place of the stream, and no group has it.
    UnknownId { id: u64, at: u64 },
    /// No whole record begins at the place of the stream, and something is left there.
    Cut { at: u64 },
    /// The group, counted over the file among those that hold no values of variable length, says to have more records
    /// than are found.
    Cycles { group: u32, said: u64, found: u64 },
    /// The offset of a record meets no value in the stream of the channel.
    Offset { channel: u32, row: u64, offset: u64 },
    /// The conversion at the address is the fifth that is open at once.
    Deep { at: u64 },
    /// The file is no recording; these are its flags.
    NotRecording { std: u16, custom: u16 },
    /// Want of memory. A reader over a span never has it in a fault.
    Memory,
}

impl ReadFault {
    /// What is told of it.
    fn text(&self) -> &'static str {
        match self {
            ReadFault::NotMdf => "no MDF file",
            ReadFault::Unfinalized { .. } => "an unfinalized file",
            ReadFault::Version { .. } => "a version that is not read",
            ReadFault::Block { .. } => "no whole block of the kind that is wanted",
            ReadFault::Compressed { .. } => "compressed data",
            ReadFault::TooMany { .. } => "too many blocks, texts or samples",
            ReadFault::ChannelKind { .. } => "a kind of channel that is not read",
            ReadFault::ChannelType { .. } => "a data type that is not read",
            ReadFault::Layout { .. } => "no layout of records",
            ReadFault::UnknownId { .. } => "an unknown record id",
            ReadFault::Cut { .. } => "no whole record",
            ReadFault::Cycles { .. } => "fewer records than a group says",
            ReadFault::Offset { .. } => "an offset that meets no value",
            ReadFault::Deep { .. } => "a conversion too deep",
            ReadFault::NotRecording { .. } => "no recording",
            ReadFault::Memory => "want of memory",
        }
    }
}

impl fmt::Display for ReadFault {
    fn fmt<W: fmt::Write>(&self, f: &mut fmt::Formatter<W>) -> fmt::Result {
        f.write_str(self.text())
    }
}

impl Error for ReadFault {}

impl From<BlockFault> for ReadFault {
    ghost from_gives = { Renames block_refusal read_refusal };

    fn from(fault: BlockFault) -> ReadFault {
        match fault {
            BlockFault::Bad { at, want } => ReadFault::Block { at, want },
            BlockFault::Compressed { at } => ReadFault::Compressed { at },
        }
    }
}

impl From<HeadFault> for ReadFault {
    ghost from_gives = { Renames head_refusal read_refusal };

    fn from(fault: HeadFault) -> ReadFault {
        match fault {
            HeadFault::Bad { at, want } => ReadFault::Block { at, want },
            HeadFault::TooMany { what, at } => ReadFault::TooMany { what, at },
            HeadFault::Memory => ReadFault::Memory,
        }
    }
}

impl From<GroupFault> for ReadFault {
    ghost from_gives = { Renames group_refusal read_refusal };

    fn from(fault: GroupFault) -> ReadFault {
        match fault {
            GroupFault::Bad { at, want } => ReadFault::Block { at, want },
            GroupFault::TooMany { what, at } => ReadFault::TooMany { what, at },
            GroupFault::ChannelKind { at, kind } => ReadFault::ChannelKind { at, kind },
            GroupFault::ChannelType { at, value } => ReadFault::ChannelType { at, value },
            GroupFault::Deep { at } => ReadFault::Deep { at },
            GroupFault::Memory => ReadFault::Memory,
        }
    }
}

impl From<DataFault> for ReadFault {
    ghost from_gives = { Renames data_refusal read_refusal };

    fn from(fault: DataFault) -> ReadFault {
        match fault {
            DataFault::Bad { at, want } => ReadFault::Block { at, want },
            DataFault::Compressed { at } => ReadFault::Compressed { at },
            DataFault::TooMany { at } => ReadFault::TooMany {
                what: What::Block,
                at,
            },
            DataFault::Memory => ReadFault::Memory,
        }
    }
}

impl From<SplitFault> for ReadFault {
    ghost from_gives = { Renames split_refusal read_refusal };

    fn from(fault: SplitFault) -> ReadFault {
        match fault {
            SplitFault::UnknownId { id, at } => ReadFault::UnknownId { id, at },
            SplitFault::Cut { at } => ReadFault::Cut { at },
        }
    }
}
