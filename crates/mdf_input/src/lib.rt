//! Sources that bytes come from while one waits for them: a FIFO, a device, standard input, or a file that lies there.
//!
//! A thread of its own opens and reads each, so that who waits for bytes that do not come waits a tenth of a second at most, and then looks
//! whether it is to go on.
#![tactic(auto)]

mod file;
mod input;
mod reading;

pub use file::{InputFile, Reading};
pub use input::Input;
