//! Carries attachments: writes the sorted file of a finalized MDF 4 file with the attachments of another one behind it.
#![tactic(auto)]

mod attaching;
mod draft;
mod fault;
mod law;
mod made;
mod place;
mod read;

pub use attaching::attach;
pub use fault::CarryFault;
pub use law::{attachments_stand_behind_the_sorted_file, none_is_the_sorted_file};
pub use mdf_tool::Report;
