//! The command `rotate`: one script is recorded into several files, one behind the other, each within the session limit.
//!
//! Each part of the script is recorded as `record` does. The next is begun where the last was recorded whole and samples are left.
#![tactic(auto)]

mod course;
mod part;
mod report;
mod rotate;
mod words;

pub use course::RotateEnd;
pub use part::Part;
pub use report::give_part;
pub use rotate::{Rotated, run_rotate};
pub use words::part_name;
