//! Numbers in bytes, and small lists that contracts see as what they hold.
//!
//! Every number of an MDF file is little-endian. What allocates takes the allocator first and keeps it.
#![tactic(auto)]

mod bytes;
mod failure;
mod fault;
mod halt;
mod number;
mod pieces;
mod rows;
mod span;
mod system;

pub use bytes::Bytes;
pub use failure::{Failed, Memory};
pub use fault::{FaultCount, FaultPlan};
pub use halt::{Halt, Stop};
pub use number::{align8, has_bits, number_of, put_u16, put_u32, put_u64, u16_at, u32_at, u64_at};
pub use pieces::Pieces;
pub use rows::{Numbers, Rows};
pub use span::{SliceSpan, Span};
pub use system::SystemFaults;
