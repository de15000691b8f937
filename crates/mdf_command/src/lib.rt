//! What the commands of the program have in common: the words that each is asked for by, the lines that are printed, and
//! the faults with their lines and statuses.
#![tactic(auto)]

mod attached;
mod bound;
mod command;
mod end;
mod fault;
mod input;
mod parts;
mod report;
mod room;
mod usage;

pub use attached::attach_fault;
pub use command::{Aspect, Command, Origin, Product, Union, command_of};
pub use end::{run_unread, status_of};
pub use fault::Fault;
pub use input::{INPUT_LIMIT, READING_LIMIT, SCRIPT_LIMIT, load, open};
pub use report::{Piece, give_line, status_after};
pub use usage::run_usage;
