use mdf_format::Kind;

/// Where a block stands in a file: a header of 24 bytes, the links, and then the body.
#[derive(Clone, Copy, Debug)]
pub struct BlockAt {
    /// The address of its first byte.
    pub at: u64,
    /// What the first four bytes say.
    pub kind: Kind,
    /// How many links of 8 bytes it has.
    pub links: u64,
    /// The address of the first byte behind the links.
    pub body_at: u64,
    /// How many bytes follow the links.
    pub body_len: u64,
}
