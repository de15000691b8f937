//! The lines of an input as the samples and the flushes of a source, while they come.
//!
//! A read ends anywhere, so lines come in pieces. A line ends with LF, and has at most 65,536 bytes with it. Of a longer one
//! nothing is handed out, and it counts as one line. What stands after the last LF is no line.
//!
//! A line is one that a script has after its `begin`: a sample of one of the source's groups, a flush of the source, a comment, or
//! `end`. Any other is bad: it is counted, and the next is looked at. When all that a read brought is handled, the source flushes
//! before it reads again.
#![tactic(auto)]

mod feed;
mod rules;
mod said;
mod source;
mod told;

pub use feed::{Halt, LineFeed};
pub use rules::LineRules;
pub use said::{LineFault, said_by};
pub use source::{LINE_LIMIT, LineSource};
pub use told::give_durable;
