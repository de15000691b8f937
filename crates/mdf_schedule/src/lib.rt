//! However the sources of a script were served, its recording gives one sorted file: the records of a recording, group by
//! group, follow from the samples of each group, and so recordings whose histories agree group by group give one sorted file,
//! however the groups were mixed. And recordings whose opened blocks have the same data give one finalized file, in whatever form they
//! are. Recordings of the same groups that are finished and joined, one behind the other, have the samples of all histories.
#![tactic(auto)]

mod forms;
mod histories;
mod joined;
mod law;
mod records;

pub use forms::{
    one_finalized_file_of_both_forms, one_finalized_file_of_what_record_leaves, what_record_leaves,
};
pub use histories::{one_measurement_of_each_schedule, one_sorted_file_of_each_schedule};
pub use joined::{
    durable_recordings_are_joined_whole, joined_recordings_have_the_whole_history,
    recordings_of_one_plan_are_joined_whole,
};
pub use law::{
    recordings_that_agree_give_one_sorted_file, scripts_that_agree_give_one_sorted_file,
};
pub use records::{a_sample_has_one_record, groups_have_one_content};
