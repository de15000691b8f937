//! The book of a recording: the samples that were accepted, and the file that holds them, on one thread.
//!
//! A book has a front, which holds the history, the marks, the records that are not written yet and the view, and a
//! back, which is the gated file. An append puts a sample into the front, and hands the pending records over to the back
//! where they would pass the block limit; a flush hands over what is pending. Each hand-over that succeeds makes a mark:
//! from its moment on each crash leaves a file with at least so many samples.
//!
//! A book can be split into these two halves, so that the front takes samples while the back writes the block that was
//! handed over, and it can be joined again.
#![tactic(auto)]

mod answer;
mod back_half;
mod book;
mod fault;
mod flushing;
mod front;
mod front_half;
mod handed;
mod handing;
mod in_memory;
mod law;
mod mark;
mod splitting;
mod view;
mod written;

pub use answer::{Append, Flush};
pub use back_half::Back;
pub use book::Book;
pub use front_half::Front;
pub use handed::Handed;
pub use law::keeps_law;
pub use mark::{Mark, Marks};
pub use view::{NoView, Shown};
pub use written::Written;
