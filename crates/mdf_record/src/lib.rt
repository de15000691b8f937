//! The command `record`: the tasks of a script are recorded into a new file, each source in a thread of its own. A recording of feeds
//! is one of a script that nobody wrote down.
#![tactic(auto)]

mod feeds;
mod gate;
mod head;
mod law;
mod lines;
mod means;
mod record;
mod sources;

pub use feeds::{RecordedFeeds, Setting, record_feeds};
pub use gate::{Gate, Open};
pub use law::what_is_recoverable_is_finalizable;
pub use lines::{give_accepted, give_totals};
pub use means::Means;
pub use record::{
    RecordEnd, Recorded, create, give_rest, read_source, record_script, refused, run_generated,
    run_record,
};
pub use sources::{Accepted, End};
