//! The identification, the header and the file history of an MDF 4 file.
#![tactic(auto)]

mod chain;
mod entry;
mod fault;
mod field;
mod header;
mod identify;
mod identity;
mod lower;

pub use entry::{Head, History};
pub use fault::{HeadFault, IdentFault};
pub use header::{read_head, read_head_in};
pub use identify::ident;
pub use identity::Ident;
pub use mdf_block::What;
