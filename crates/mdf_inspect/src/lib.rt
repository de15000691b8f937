//! The commands that print what a file is or holds: `opened`, of a recording, and `check`, `info`,
//! `export` and `attachments`, of a finalized file.
#![tactic(auto)]

mod answer;
mod attachments;
mod check;
mod info;
mod opened;
mod reading;
mod shown;
mod table;

pub use answer::{Question, run_reading};
pub use attachments::run_attachments;
pub use opened::run_opened;
pub use shown::Shown;
pub use table::run_export;
