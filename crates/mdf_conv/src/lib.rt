//! Conversions and sources of an MDF 4 file, each with its texts and, of a conversion, all that it refers to.
#![tactic(auto)]

mod budget;
mod convert;
mod fault;
mod field;
mod front;
mod limits;
mod link;
mod lower;
mod read;
mod row;
mod source;
mod texts;

pub use budget::link_count;
pub use convert::conv_in;
pub use fault::ConvFault;
pub use limits::Budget;
pub use link::{conv_at, source_at, words_at};
pub use lower::{block_with, words_in};
pub use mdf_block::What;
pub use read::{read_conv, read_conv_in, read_source, read_source_in};
pub use row::{Conversion, Ref, SourceInfo};
pub use source::source_in;
pub use texts::Texts;
