//! One book that the seats of several sources share, each in a thread of its own, under a turn.
#![tactic(auto)]

mod answer;
mod appends;
mod calls;
mod closing;
mod fixed;
mod half;
mod halves;
mod opening;
mod rounds;
mod rule;
mod seat;
mod shared;
mod view;

pub use answer::Try;
pub use seat::SourceSeat;
pub use shared::SharedBook;
