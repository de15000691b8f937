use crate::Mark;

/// The answer of an append.
#[derive(Debug, Drop)]
pub enum Append {
    /// The history has grown by the sample, which stands at this place.
    Accepted { place: u64 },
    /// The cost of the history and of the sample are over the session limit, all in bytes.
    SessionFull { held: u64, size: u64, limit: u64 },
    /// An earlier call met a fault of the disk. The last mark still holds.
    Stopped { mark: Mark },
    /// The disk failed in this call: its count of faults rose, or stands at its last value. The book is stopped.
    DiskFault { before: u64, after: u64 },
    /// Want of memory.
    Memory,
}

/// The answer of a flush, with the note of the view.
#[derive(Debug, Drop)]
pub enum Flush<N: Drop> {
    /// Each crash from now on leaves a file with `through` samples, which is all of the history; `shown` of them are
    /// published, and less than all only where sealing or the view found no memory.
    Done { through: u64, shown: u64, note: N },
    /// The disk failed in this call: its count of faults rose, or stands at its last value. The book is stopped.
    DiskFault { before: u64, after: u64 },
    /// An earlier call met a fault of the disk. The last mark still holds.
    Stopped { mark: Mark },
}
