/// A part of a file: bytes that stand one behind the other.
#[derive(Clone, Copy, Debug)]
pub struct Part {
    /// The address of its first byte.
    pub at: u64,
    /// How many bytes it has.
    pub len: u64,
}
