use book_owned::Append;
use mdf_layout::Sample;

/// The answer of an append that waits for nothing.
#[derive(Debug, Drop)]
pub enum Try {
    /// Another seat has the turn, or had it since the call looked: `word` is the turn word that was met. The sample comes back.
    Busy {
        word: u64,
        sample: Sample,
    },
    /// The pending records have `held` bytes and that of the sample `size`, which pass the block limit. The sample comes back.
    NeedsFlush {
        held: u64,
        size: u64,
        limit: u64,
        sample: Sample,
    },
    /// What the book answered. It is no fault of the disk, since no call of the disk was made.
    Answered(Append),
}
