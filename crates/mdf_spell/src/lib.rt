//! The files that this program writes as block trees: the head of a recording, and the finalized file of one.
#![tactic(auto)]

mod data;
mod finalized;
mod groups;
mod history;
mod names;
mod recording;
mod recovered;
mod variable;

pub use data::{place_data, place_data_group};
pub use finalized::{FINALIZED_IDENT, Front, finalized_front, with_data};
pub use history::place_head;
pub use recording::recording_head;
pub use recovered::Recovered;
pub use variable::block_links;
