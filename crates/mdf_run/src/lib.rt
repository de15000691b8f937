//! The program: `run` calls the command that the words name.
//!
//! The sources, sinks and disks are handed in, so the program's `main` gives the real ones and a test those over memory.
//! Each command has a call of its own in the crates below, whose contract says what that command prints and leaves. The words are
//! sorted by what they ask for, and each kind has a function: to show a file, to make one of another or of two, and to record.
#![tactic(auto)]

mod answer;
mod finished;
mod making;
mod program;
mod recording;
mod showing;
mod uniting;

pub use finished::Finished;
pub use mdf_command::run_unread;
pub use mdf_make::{Input, Verdict};
pub use mdf_record::{Gate, Open};
pub use program::run;
