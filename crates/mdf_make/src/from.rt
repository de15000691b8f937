// What a file is made from.
use mdf_num::Bytes;
use std::alloc::Global;

/// What a file is made from, if it is made of another one.
#[derive(Clone, Copy)]
pub struct FromOne<'a> {
    pub alloc: Global,
    /// The name of the input.
    pub input: &'a Bytes,
    /// The name of the file that is made.
    pub output: &'a Bytes,
    /// The time, in nanoseconds since 1970.
    pub now_ns: u64,
}

/// What a file is made from, if it is made of two others.
#[derive(Clone, Copy)]
pub struct FromTwo<'a> {
    pub alloc: Global,
    /// The name of the first input.
    pub input: &'a Bytes,
    /// The name of the second input.
    pub other: &'a Bytes,
    /// The name of the file that is made.
    pub output: &'a Bytes,
    /// The time, in nanoseconds since 1970.
    pub now_ns: u64,
}
