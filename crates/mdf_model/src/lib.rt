//! The measurement of a finalized MDF 4 file: its header, its file history, and its channel groups with their records. What the
//! measurement of a file is, and what makes the file valid, is said in the standard's words too, with the laws on what is read.
#![tactic(auto)]

mod identity;
mod law;
mod lower;
mod measurement;
mod part;
mod read;
mod strict;
mod tree;
mod wanted;
mod whole;

pub use identity::{finalized_in, identity_in, identity_of};
pub use law::{
    a_refusal_is_true, links_passed_over_are_counted, measurements_agree,
    refused_data_has_no_measurement, strict_is_valid, what_is_found_is_read,
    what_is_measured_is_read, what_is_placed_anew_is_the_same, what_is_read_is_the_measurement,
};
pub use mdf_content::ReadFault;
pub use measurement::{Measurement, read_measurement, take_measurement};
pub use part::{GroupPart, Measure};
pub use read::{read_file, take_file};
pub use strict::{Strict, are_strict};
pub use tree::{Tree, tree_in};
pub use whole::{Whole, WholeFound, whole_for_in, whole_found_in, whole_in, whole_kept_in};
