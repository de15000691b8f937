//! Fields of bits in a record, and the invalidation bits behind it.
//!
//! A channel of MDF 4 names the first byte of its value in the record (`cn_byte_offset`), the first bit in that byte
//! (`cn_bit_offset`, 0 to 7), its number of bits (`cn_bit_count`), and by its data type the order of the bytes. The
//! value is the number of those bits in the list of bits of the bytes that they touch, the lowest byte first and each
//! byte's lowest bit first. So nine bytes can be touched, by 64 bits that begin at bit 7. Nothing here takes memory.
#![tactic(auto)]

mod bit;
mod invalidation;
mod number;
mod place;
mod word;

pub use invalidation::{is_invalid, mark_invalid};
pub use number::{covers, get, pattern_of, put, signed};
pub use place::Field;
