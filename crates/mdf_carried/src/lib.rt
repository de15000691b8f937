//! What an unfinalized MDF 4 file of this project's form is found to hold, in the standard's words, with the laws on what
//! `mdf_session` reads; and that what a recording carries by the layouts of its groups is what is recovered of it by its own
//! tree.
#![tactic(auto)]

mod law;
mod recovered;

pub use law::{
    recovered_ids_are_apart, recovered_is_carried, what_is_carried_is_read,
    what_is_carried_is_recovered,
};
pub use recovered::{
    groups_have_their_samples, recordings_have_samples, recoveries_agree,
    what_is_read_is_recovered, what_is_recovered_is_read,
};
