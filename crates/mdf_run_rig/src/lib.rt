//! Runs of the program's commands over disks and streams in memory, for the tests of them: what a run is given and leaves, the files
//! that commands are asked about, and the rows of tables.
//!
//! It promises nothing and has no tests of its own. What is not as it is wanted is an error, which fails the test that meets it.
#![tactic(auto)]

mod asked;
mod files;
mod foreign;
mod left;
mod parts;
mod runs;
mod table;

pub use asked::{Asked, all_are_told};
pub use files::{
    COUNTING, EMPTY, FINALIZE, FINALIZE_WORDS, FLAGS, File, LISTED, MARK, SORT, THREE_TEXTS,
    bytes_of, finalized, finished, recorded, sorted, sorted_from,
};
pub use left::{
    Kept, Left, file_made, left_by, left_under, made_of, over_taken, record_told, said, told,
};
pub use parts::{Part, all_stand, changed, listed_recording, put, recording, stands};
pub use runs::{Ended, Given, asking, disk_with, failing_disk, ran, record};
pub use table::is_status;
pub use test_rig::is_told;
