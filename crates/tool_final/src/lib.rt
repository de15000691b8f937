//! Finalizes a recording: makes the finished MDF 4.1 file that any reader of the format can open.
#![tactic(auto)]

mod making;
mod report;
mod spell;

pub use making::finalize;
pub use mdf_tool::{Report, ToolFault};
pub use report::report_of;
pub use spell::spell_session;
