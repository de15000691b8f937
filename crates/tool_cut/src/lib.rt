//! Cuts the groups of a finalized MDF 4 file to a range of their masters.
#![tactic(auto)]

mod cutting;
mod kept;
mod master;
mod measure;

pub use cutting::cut;
pub use mdf_tool::{Report, ToolFault};
