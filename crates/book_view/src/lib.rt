//! Live views of a recording: readers look at the samples that are shown, while a writer shows more. A reader takes no lock
//! and waits for nobody.
//!
//! There are two copies of what is shown (of the kit's `left_right`): readers enter one, while the writer changes the other.
//! A copy is a list of chunks, which the history and the other copy hold too: no sample is copied.
//! Which list begins which is told by a log of all samples that the copies were handed (of the kit's `logbook`). The log
//! itself is in the proofs alone: what the code has is the length of a beginning of it, a front.
#![tactic(auto)]

mod copies;
mod front;
mod handing;
mod live;
mod reader;
mod store;
mod told;
mod view;

pub use live::LiveView;
pub use reader::LiveReader;
pub use told::Told;
pub use view::View;
