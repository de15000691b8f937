//! The attachments of a finalized MDF 4 file: their list, and whether the MD5 of the embedded data is right.
#![tactic(auto)]

mod answer;
mod attachment;
mod budget;
mod check;
mod digest;
mod entry;
mod fault;
mod field;
mod list;
mod lower;
mod make;
mod read;
mod texts;

pub use answer::Verdict;
pub use attachment::Attachment;
pub use check::verdict;
pub use entry::Entry;
pub use fault::{AttachFault, ListFault};
pub use list::list_in;
pub use read::read_attachments;
