//! A script in parts: each has as many samples as a session has room for, cut off the front of each source's tasks.
//!
//! What stands in a part follows from the script alone: each source has its share of the session, and what of that some do not
//! need the others take, in order. Samples are moved into the parts, so all parts together take the memory of the script.
#![tactic(auto)]

mod fault;
mod fill;
mod large;
mod plan;
mod rotation;

pub use fault::RotateFault;
pub use plan::shapes_like;
pub use rotation::Rotation;
