use mdf_block::{Kind, What};
use thiserror::Error;

/// Why the attachments of a file are not read.
#[derive(Clone, Copy, Debug, Error)]
pub enum AttachFault {
    /// The first 64 bytes are no identification of an MDF file.
    #[error("no MDF file")]
    NotMdf,
    /// The version is not one of 4.00 to 4.19.
    #[error("version {ver} is not read")]
    Version { ver: u16 },
    /// The file says that it is not finalized; these are its flags.
    #[error("an unfinalized file")]
    Unfinalized { std: u16, custom: u16 },
    /// No whole header (Hd), attachment (At) or text (Tx) stands at the address.
    #[error("no whole block of the kind that is wanted at {at}")]
    Bad { at: u64, want: Kind },
    /// The attachment or the text at the address is one too many.
    #[error("too many at {at}")]
    TooMany { at: u64 },
    /// Want of memory.
    #[error("want of memory")]
    Memory,
}

/// Why the list of the attachments is refused.
#[derive(Clone, Copy, Debug, Error)]
pub enum ListFault {
    /// No block of that kind stands whole at the address; for a text the kind is Tx.
    #[error("no whole block of the kind that is wanted at {at}")]
    Bad { at: u64, want: Kind },
    /// The attachment or the text at the address is one too many; an attachment counts as a block.
    #[error("too many at {at}")]
    TooMany { what: What, at: u64 },
}
