/// The numbers of the blocks of a channel's parts, and of the block behind it.
#[derive(Clone, Copy)]
pub(crate) struct ChannelPlaces {
    /// The source.
    pub source: u32,
    /// The conversion.
    pub conv: u32,
    /// The unit.
    pub unit: u32,
    /// The comment.
    pub comment: u32,
    /// The block behind the channel.
    pub past: u32,
}

/// The numbers of the blocks of a channel group's parts, and of the block behind it.
#[derive(Clone, Copy)]
pub struct GroupPlaces {
    /// The source.
    pub source: u32,
    /// The comment.
    pub comment: u32,
    /// The first channel.
    pub channels: u32,
    /// The block behind the group.
    pub past: u32,
}

/// What a written file says anew of a channel group (CGBLOCK): its record id and what is counted of its records.
#[derive(Clone, Copy)]
pub struct Counted {
    /// The record id.
    pub id: u64,
    /// How many records there are.
    pub cycles: u64,
    /// How many data bytes a record has; of a group of values, the low 32 bits of how many bytes its values have in all.
    pub data_bytes: u32,
    /// How many invalidation bytes a record has; of a group of values, the high 32 bits of that sum.
    pub inval_bytes: u32,
}
