//! Joins two finalized MDF 4 files: each group has the records of the first and behind them those of the second.
#![tactic(auto)]

mod conversion;
mod difference;
mod fault;
mod group;
mod joined;
mod joining;
mod moved;
mod record;
mod text;
mod wide;

pub use fault::ConcatFault;
pub use joining::concat;
pub use mdf_tool::Report;
