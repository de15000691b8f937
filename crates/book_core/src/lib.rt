//! The book of a recording as a machine: how each event changes what it accepted, what is durable, what is shown, and
//! whether it is stopped.
//!
//! The machine has no disk, no view and no threads, and takes no memory. The books of the crates above do on disks and
//! in views what it says, so its law holds of each of them.
#![tactic(auto)]

mod event;
mod law;
mod state;

pub use event::Event;
pub use law::machine_law;
pub use state::{State, run_events, step};
