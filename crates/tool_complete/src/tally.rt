use mdf_num::Rows;

/// What is counted of the whole records of a data group.
#[derive(Drop)]
pub(crate) struct Tally {
    /// How many each channel group has.
    pub counts: Rows<u64>,
    /// How many bytes they have in all.
    pub whole: u64,
}
