use thiserror::Error;

/// Why a stream has no further record.
#[derive(Clone, Copy, Debug, Error)]
pub enum SplitFault {
    /// A whole id stands at the place, and no group has it.
    #[error("unknown record id {id} at {at}")]
    UnknownId { id: u64, at: u64 },
    /// Fewer bytes than an id has are left at the place, or the record of a known id is not whole.
    #[error("no whole record at {at}")]
    Cut { at: u64 },
}
