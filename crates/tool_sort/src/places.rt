/// The numbers of the blocks of a data group's parts in a sorted file, and of the block behind it.
#[derive(Clone, Copy)]
pub(crate) struct PartPlaces {
    /// The channel group.
    pub group: u32,
    /// The records.
    pub records: u32,
    /// The values of the first channel of variable length, if there is one.
    pub values: u32,
    /// The block behind all of these.
    pub past: u32,
}
