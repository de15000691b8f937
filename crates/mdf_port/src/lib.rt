//! The streams of a program: a source that bytes are taken from, and a sink that bytes are given to.
//!
//! Each counts its own faults, so that an answer `Failed` has a cause that no caller can make. What a source has left
//! and what a sink holds is known of those over memory, and of no real stream.
#![tactic(auto)]

mod memory;
mod sink;
mod source;

pub use memory::{MemorySink, MemorySource};
pub use sink::{Sink, StdSink, give_all};
pub use source::{Source, StdSource, TakeFault, take_all};
