//! The program: it hands the command words, the time, the standard streams and the files of the machine to `run`, or to `run_rotate`
//! where a recording in parts is asked for, and says on standard error why a device failed, and which file is refused. A `main` calls
//! it with its runtime.
#![tactic(auto)]

mod parts;
mod program;
mod told;

pub use parts::disks;
pub use program::start;
