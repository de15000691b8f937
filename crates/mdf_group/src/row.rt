ghost use Rattle.std.specs.Prelude.{◌≡◌};
ghost use Rattle.mdf_group.specs.Group.{is_variable};
ghost use Rattle.mdf_group.specs.Recordable.{is_of_values};

use mdf_block::Note;
use mdf_conv::{Conversion, SourceInfo};
use mdf_num::Rows;

/// A channel (CNBLOCK).
#[derive(Debug, Drop)]
pub struct ChannelRow {
    /// The address of the block.
    pub at: u64,
    /// 0 fixed length, 1 variable length, 2 master, 3 virtual master, 6 virtual data.
    pub kind: u8,
    /// What a master counts: 1 time, 2 angle, 3 distance, 4 index.
    pub sync: u8,
    /// The data type, 0 to 14.
    pub data_type: u8,
    /// The first bit in the first byte.
    pub bit: u8,
    /// The first byte in the data bytes of a record.
    pub byte: u32,
    /// How many bits.
    pub bits: u32,
    /// Bit 0: all values are invalid. Bit 1: the position of the invalidation bit is used.
    pub flags: u32,
    /// The position of the invalidation bit.
    pub inval: u32,
    /// How many decimal places to show; 255 for no limit.
    pub precision: u8,
    /// The bits of six numbers: the least and the greatest raw value, and two limits and two extended limits.
    pub ranges: [u64; 6],
    /// The name.
    pub name: Note,
    /// Where it comes from, if it says so.
    pub source: Option<SourceInfo>,
    /// How raw values become physical ones, if it says so.
    pub conv: Option<Conversion>,
    /// The unit.
    pub unit: Note,
    /// The comment.
    pub comment: Note,
    /// The address of its own data, as the values of a channel of variable length; 0 for none.
    pub values: u64,
    /// How many links after the eighth name something. They are passed over.
    pub extra: u64,
}

impl ChannelRow {
    /// Whether its values are of variable length: a record then has an offset, and the value stands there in the channel's own data.
    pub fn is_of_values(&self) -> bool
        ensures { result ≡ is_of_values self.now }
    {
        self.kind == 1
    }
}

/// A channel group (CGBLOCK): records of one form.
#[derive(Debug, Drop)]
pub struct GroupRow {
    /// The address of the block.
    pub at: u64,
    /// The record id.
    pub id: u64,
    /// How many records it says to have.
    pub cycles: u64,
    /// Bit 0: the records hold the values of a channel of variable length (VLSD).
    pub flags: u16,
    /// The character that separates the parts of a path.
    pub separator: u16,
    /// How many data bytes a record has.
    pub data_bytes: u32,
    /// How many invalidation bytes a record has.
    pub inval_bytes: u32,
    /// The name of the acquisition.
    pub name: Note,
    /// Where it comes from, if it says so.
    pub source: Option<SourceInfo>,
    /// The comment.
    pub comment: Note,
    /// The channels in the order of their links.
    pub channels: Rows<ChannelRow>,
}

impl GroupRow {
    /// Whether its records hold the values of a channel of variable length.
    pub fn is_variable(&self) -> bool
        ensures { result ≡ is_variable self.now }
    {
        self.flags % 2 == 1
    }
}

/// A data group (DGBLOCK): channel groups whose records stand in one stream.
#[derive(Debug, Drop)]
pub struct DataRow {
    /// The address of the block.
    pub at: u64,
    /// How many bytes the id before each record has.
    pub id_size: u8,
    /// The comment.
    pub comment: Note,
    /// The address of the data; 0 for none.
    pub content: u64,
    /// The channel groups in the order of their links.
    pub groups: Rows<GroupRow>,
}
