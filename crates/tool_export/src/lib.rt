//! Prints a channel group of a finalized file as a table: a line with the names of its channels, and a line for each sample.
#![tactic(auto)]

mod fault;
mod give;
mod line;
mod paged;
mod samples;
mod table;
mod text;

pub use fault::ExportFault;
pub use paged::export_in;
pub use table::export;
pub use text::name_text;
