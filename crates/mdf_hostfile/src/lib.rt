//! What a program has of the machine: a disk over a real file, the time, its command words, and what it says on standard error. The
//! disk makes only the calls of the system that are asked of it. What is trusted of a real file stands in one place, a line for each call.
#![tactic(auto)]

mod clock;
mod file;
mod streams;
mod system;
mod told;
mod words;

pub use clock::now_ns;
pub use file::FileDisk;
pub use streams::hold_streams;
pub use system::{FileCalls, SystemFile};
pub use told::{Named, Told, name_of, tell, tell_file};
pub use words::read_words;
