//! Writes a whole file under a seal: its first byte stays closed (0) on the disk until the rest is kept. So a crash
//! at any moment leaves nothing, a file that no tool takes for one of its own, or the whole.
#![tactic(auto)]

mod sealed;
mod write;

pub use sealed::Sealed;
pub use write::write_sealed;
