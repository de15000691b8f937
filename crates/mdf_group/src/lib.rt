//! Data groups, channel groups and channels of an MDF 4 file, read along their links.
#![tactic(auto)]

mod channel;
mod data;
mod extra;
mod fault;
mod field;
mod group;
mod lower;
mod named;
mod read;
mod room;
mod row;

pub use fault::GroupFault;
pub use mdf_block::What;
pub use read::{read_groups, read_groups_in};
pub use room::{ChannelLinks, GroupLinks};
pub use row::{ChannelRow, DataRow, GroupRow};
