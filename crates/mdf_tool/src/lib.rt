//! What the tools that make a file have in common: what is told of a file, why none was made, and the writing of it under
//! a seal.
#![tactic(auto)]

mod fault;
mod made;
mod write;

pub use fault::ToolFault;
pub use made::{Made, Report};
pub use write::write_made;
