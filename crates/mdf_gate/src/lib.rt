//! Data blocks behind gates. A recording holds units one behind the other, each at a multiple of 8. A unit is a data block
//! (DTBLOCK), and in form 2 a list block (DLBLOCK) before it, which names it and the next place. The first byte of a unit is
//! its gate, which is opened last. The blocks up to the first closed gate are the opened ones. `opened` counts them.
//! `GatedFile` makes a recording and appends blocks to it, so that a crash leaves all blocks that were appended, and of the
//! one that is being appended all or nothing.
#![tactic(auto)]

mod answer;
mod buffer;
mod gated;
mod law;
mod recording;
mod scan;
mod stage;
mod unit;

pub use answer::{GateFault, Opened};
pub use buffer::Block;
pub use gated::GatedFile;
pub use law::{carries_one_list, lists_lead_to_each_block};
pub use mdf_format::Form;
pub use scan::opened;
pub use unit::opened_in;
