//! Sorts a finished file: writes each of its channel groups into a data group of its own, without record ids. The sorted file of
//! a measurement, which `sort` writes, is that of `cut` and `concat` too.
#![tactic(auto)]

mod group;
mod law;
mod made;
mod places;
mod read;
mod sorted;
mod sorting;

pub use law::{a_measurement_stands, one_sorted_file, other_records_stand};
pub use made::{make_sorted, report_of};
pub use mdf_tool::{Report, ToolFault};
pub use read::take_standing;
pub use sorted::{sorted_draft, spell_sorted};
pub use sorting::sort;
