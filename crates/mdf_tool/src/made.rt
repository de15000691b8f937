use mdf_num::Pieces;

/// What is told of a file that was made.
#[derive(Clone, Copy, Debug)]
pub struct Report {
    /// How many groups it has, without those of values of variable length.
    pub groups: u32,
    /// How many samples these have.
    pub samples: u64,
    /// How many links of the input were passed over.
    pub dropped: u64,
}

/// What a tool made: the bytes of a file, in pieces, and what is told of it.
#[derive(Debug, Drop)]
pub struct Made {
    pub bytes: Pieces,
    pub report: Report,
}
