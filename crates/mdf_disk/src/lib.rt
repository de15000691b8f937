//! A disk with one file, the model of what a crash may leave on it, and a disk in memory that keeps to the model.
//!
//! A disk counts its own faults. Where it tells its content, calls say what they do to it; where it tells its story,
//! one can say of each moment, during a call or between two, what a crash then may leave. A real file tells neither.
//! The trait `Disks` hands out a disk for each part of a recording, and takes them back.
#![tactic(auto)]

mod call;
mod disk;
mod disks;
mod fuse;
mod image;
mod load;
mod memory;
mod role;
mod tape;

pub use disk::Disk;
pub use disks::Disks;
pub use fuse::Fuse;
pub use load::{LoadFault, read_whole};
pub use memory::MemoryDisk;
pub use role::Role;
