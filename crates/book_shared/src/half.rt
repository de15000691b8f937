//! What lies in the slots of a shared book.
use book_owned::Mark;
use mdf_layout::Sample;
use std::snapshot::Snapshot;

/// What a write of the device led to.
#[derive(Clone, Copy)]
pub enum Answer {
    /// The mark of the samples that were written.
    Marked(Mark),
    /// The count of the device's faults before and after it.
    Faulted { before: u64, after: u64 },
}

/// A half of a book, in its slot.
pub enum Half<F, B> {
    TheFront(F),
    TheBack(B),
    /// What a seat announces when it takes the turn after a write. It lies in no slot.
    Told(Answer),
    /// What a seat announces that takes the device for it: the sample that it has to append. It has no bytes, and lies in no slot.
    Due(Snapshot<Sample>),
    /// Nothing.
    Out,
}
