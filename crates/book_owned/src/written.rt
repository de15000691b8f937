use crate::Mark;
use mdf_gate::Block;

/// What became of a block that a front handed over.
#[derive(Drop)]
pub enum Written {
    /// It is in the file, and the mark holds. The block is empty.
    Done {
        mark: Mark,
        block: Block,
    },
    /// The disk failed: its count of faults rose, or stands at its last value. The block is as it was.
    DiskFault {
        before: u64,
        after: u64,
        block: Block,
    },
    /// There was none. This answer is made by who was told that nothing is pending.
    Nothing,
}
