use mdf_group::DataRow;
use mdf_head::{Head, History};
use mdf_vlsd::ValueStream;

/// What was read of a recording, of which the finalized file is made.
#[derive(Clone, Copy)]
pub struct Recovered<'a> {
    /// The header.
    pub head: &'a Head,
    /// The file history.
    pub history: &'a [History],
    /// The first data group.
    pub row: &'a DataRow,
    /// How many records each of its channel groups has.
    pub counts: &'a [u64],
    /// How many bytes the values of each of its channel groups have in all; 0 where a group is not one of values.
    pub totals: &'a [u64],
    /// The records of the data group, one behind the other, each with its record id.
    pub content: &'a [u8],
    /// The values of each channel of variable length of the groups that are not of values, in order.
    pub streams: &'a [ValueStream],
}
