use crate::row::{ChannelRow, GroupRow};
use mdf_block::Note;
use mdf_conv::{Budget, Conversion, SourceInfo};
use mdf_num::Rows;

/// What may still come inside a channel group.
#[derive(Clone, Copy)]
pub(crate) struct Room {
    /// How many channels.
    pub(crate) channels: u64,
    /// Texts and conversions, and the links that were passed over.
    pub(crate) budget: Budget,
}

/// What may still come inside a data group.
#[derive(Clone, Copy)]
pub(crate) struct DataRoom {
    /// How many channel groups.
    pub(crate) groups: u64,
    /// What may come inside them.
    pub(crate) room: Room,
}

/// The numbers in the body of a channel.
#[derive(Clone, Copy)]
pub(crate) struct ChannelFront {
    pub(crate) kind: u8,
    pub(crate) sync: u8,
    pub(crate) data_type: u8,
    pub(crate) bit: u8,
    pub(crate) byte: u32,
    pub(crate) bits: u32,
    pub(crate) flags: u32,
    pub(crate) inval: u32,
    pub(crate) precision: u8,
    pub(crate) ranges: [u64; 6],
}

/// The links of a channel that are not followed inside it.
#[derive(Clone, Copy)]
pub(crate) struct Passed {
    /// The address of the next channel.
    pub(crate) next: u64,
    /// The address of its own data.
    pub(crate) values: u64,
    /// How many compositions it names, one at most.
    pub(crate) composed: u64,
    /// How many links after the eighth name something.
    pub(crate) extra: u64,
}

/// The numbers in the body of a channel group.
#[derive(Clone, Copy)]
pub(crate) struct GroupFront {
    pub(crate) id: u64,
    pub(crate) cycles: u64,
    pub(crate) flags: u16,
    pub(crate) separator: u16,
    pub(crate) data_bytes: u32,
    pub(crate) inval_bytes: u32,
}

/// The numbers of a channel group, in its links and in its body.
#[derive(Clone, Copy)]
pub(crate) struct GroupNumbers {
    /// The address of the next channel group.
    pub(crate) next: u64,
    /// How many sample reductions it names, one at most.
    pub(crate) reduced: u64,
    /// Those in its body.
    pub(crate) front: GroupFront,
}

/// The numbers of a data group, in its links and in its body.
#[derive(Clone, Copy)]
pub(crate) struct DataNumbers {
    /// The address of the next data group.
    pub(crate) next: u64,
    /// The address of its data.
    pub(crate) content: u64,
    /// How many bytes the id before each record has.
    pub(crate) id_size: u8,
}

/// What the links to a name and to a source lead to, which a channel and a channel group have alike.
#[derive(Drop)]
pub(crate) struct Label {
    pub(crate) name: Note,
    pub(crate) source: Option<SourceInfo>,
}

/// What the first links of a channel lead to.
#[derive(Drop)]
pub(crate) struct ChannelOrigin {
    pub(crate) name: Note,
    pub(crate) source: Option<SourceInfo>,
    pub(crate) conv: Option<Conversion>,
}

/// What the last links of a channel lead to.
#[derive(Drop)]
pub(crate) struct ChannelTexts {
    pub(crate) unit: Note,
    pub(crate) comment: Note,
}

/// What the links of a channel (CNBLOCK) lead to: its name, its source, its conversion, its unit and its comment.
#[derive(Drop)]
pub struct ChannelLinks {
    /// The name.
    pub name: Note,
    /// Where it comes from, if it says so.
    pub source: Option<SourceInfo>,
    /// How raw values become physical ones, if it says so.
    pub conv: Option<Conversion>,
    /// The unit.
    pub unit: Note,
    /// The comment.
    pub comment: Note,
}

/// What the links of a channel group (CGBLOCK) lead to, the channels left out.
#[derive(Drop)]
pub struct GroupLinks {
    /// The name of the acquisition.
    pub name: Note,
    /// Where it comes from, if it says so.
    pub source: Option<SourceInfo>,
    /// The comment.
    pub comment: Note,
}

/// What a channel group holds.
#[derive(Drop)]
pub(crate) struct GroupContents {
    pub(crate) links: GroupLinks,
    pub(crate) rows: Rows<ChannelRow>,
}

/// What a data group holds.
#[derive(Drop)]
pub(crate) struct DataContents {
    pub(crate) comment: Note,
    pub(crate) rows: Rows<GroupRow>,
}
