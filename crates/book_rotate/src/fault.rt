use thiserror::Error;

/// Why a script is recorded in no parts.
#[derive(Clone, Copy, Debug, Error)]
pub enum RotateFault {
    /// A sample costs so many bytes, more than a session has room for.
    #[error("a sample of {size} bytes is over the session limit of {limit}")]
    Large { size: u64, limit: u64 },
    #[error("want of memory")]
    Memory,
}
