//! Finalizes a file that another tool left unfinished: completes it in its own memory, and writes the sorted file of that.
//!
//! Completing sets what the standard flags say is to be updated, the length of the last block of data and the cycle counts, and
//! marks the file as finalized.
#![tactic(auto)]

mod completed;
mod completing;
mod cut;
mod ended;
mod flags;
mod headed;
mod identified;
mod law;
mod mended;
mod names;
mod records;
mod setting;
mod split;
mod tally;
mod told;

pub use completed::{Whole, completed_of};
pub use completing::complete;
pub use identified::unfinished_of;
pub use law::{what_is_completed, what_is_the_last_block};
pub use mdf_tool::{Report, ToolFault};
pub use told::Completed;
