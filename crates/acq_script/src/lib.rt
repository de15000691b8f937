//! The script of a recording: its groups with their channels, and what its sources do, in order.
//!
//! A script is lines, each ended by LF, of words with one blank between them. Its channels are numbers of 1 to 64 bits,
//! signed or not, of both byte orders, floats, and bytes of fixed or variable length, and can have invalidation bits; its
//! groups belong to up to 16 sources. The generated script has samples that follow from their numbers, for recordings of any
//! length.
#![tactic(auto)]

mod draft;
mod fault;
mod generate;
mod law;
mod read;
mod script;
mod sketch;
mod stage;
mod task;

pub use fault::ScriptFault;
pub use generate::generated;
pub use law::spelled_is_read;
pub use read::read_script;
pub use script::{Plan, Script, Task};
pub use task::sample_of;
