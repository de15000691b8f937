//! What the table of a shared book is told once.
use std::snapshot::Snapshot;

/// The halves of the book at its beginning, as contracts see them, the source that owns each group, and how many sources there are.
pub struct Fixed<F, B> {
    pub front: Snapshot<F>,
    pub back: Snapshot<B>,
    /// By the number of the group; 0 for a group that is not there.
    pub owners: [u8; 64],
    pub sources: u8,
}

impl<F, B> Drop for Fixed<F, B> {
    fn drop(self) {
        let Self {
            front: _,
            back: _,
            owners: _,
            sources: _,
        } = self;
    }
}
