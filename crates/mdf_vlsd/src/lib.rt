//! Streams of values of variable length.
//!
//! A channel of variable length has in its records the offset of its value in a stream of bytes, the signal data of
//! MDF 4 (SDBLOCK). At the offset stand the length of the value, 4 bytes and little-endian, and then its bytes.
#![tactic(auto)]

mod stream;

pub use stream::{Streams, ValueStream};
