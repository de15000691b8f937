/// What may still be read of a file, over all of it, and how many links were dropped so far.
#[derive(Clone, Copy, Debug, PartialEq, Eq)]
pub struct Budget {
    /// How many bytes texts may still have.
    pub text: u64,
    /// How many conversions (CCBLOCKs) may still come.
    pub conversions: u64,
    /// How many bytes these blocks may still have, each with its links and its body. What has more is want of memory.
    pub conversion_bytes: u64,
    /// How many links that name something were passed over. It stays at the last u64.
    pub dropped: u64,
}
