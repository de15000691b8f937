//! A recording that is made while its inputs say what is recorded, and that acknowledges what is durable.
//!
//! The setup is the front of a script, up to its `begin`. Each source of its plan has an input, whose lines are those that a script has
//! behind `begin`, and a sink: after each flush of the source that was done a line there tells how many of its samples are durable.
//! Such a number stands: whatever happens then, at least so many samples of the source are recovered. Where a session is full the log
//! goes on in the next part, unless the sample that had no room costs more than a session.
#![tactic(auto)]

mod end;
mod floats;
mod log;
mod logging;
mod part;
mod parts;
mod setup;
mod tally;
mod tap;
mod text;
mod words;

pub use end::{LogEnd, SourceEnd, Stop};
pub use floats::{floats_of, rules_of};
pub use log::{Logged, run_log};
pub use logging::Logging;
pub use part::log_part;
pub use setup::read_setup;
pub use tap::Tap;
pub use text::{give_log, log_status, report};
pub use words::{LogWords, is_standard, log_words, run_log_usage};
