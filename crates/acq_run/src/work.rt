use book_owned::Mark;
use book_shared::SourceSeat;

/// How a source's work ended.
#[derive(Clone, Copy, Debug)]
pub enum Ended {
    /// It has not.
    Running,
    /// Nothing is left of its feed.
    Done,
    /// Its next sample would have passed the session limit: what the history costs, what the sample costs, and the limit,
    /// in bytes.
    SessionFull { held: u64, size: u64, limit: u64 },
    /// An earlier call of the book, of this source or of another, was answered by a fault of the disk. The mark is the last.
    Stopped { mark: Mark },
    /// The disk failed in a call of this source, and its count of faults rose, or stands at its last value.
    DiskFault { before: u64, after: u64 },
    /// Want of memory.
    Memory,
}

/// What a source did: how many of its samples were accepted, and how its work ended.
#[derive(Clone, Copy, Debug)]
pub struct Driven {
    pub accepted: u64,
    pub ended: Ended,
}

/// A source at work: its seat at the book, its feed, who is told of its flushes, and what it did.
#[derive(Drop)]
pub struct Worker<F, L> {
    pub seat: SourceSeat,
    pub feed: F,
    pub follower: L,
    pub accepted: u64,
    pub ended: Ended,
}
