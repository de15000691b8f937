//! The program `mdf4log`: it hands the command words, the time, the inputs, standard output and the files of the machine to `run_log`, and
//! says on standard error why one of them failed. A `main` calls it with its runtime, and opens the inputs.
#![tactic(auto)]

mod files;
mod program;

pub use files::FileDisks;
pub use program::start;
