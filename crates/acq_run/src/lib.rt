//! The sources of a recording at work: each hands its samples and its flushes to the shared book, in a thread of its own.
//!
//! A feed says what a source hands in next. `drive` does it over the source's seat, up to the feed's end or to the first
//! answer of the book that is neither an acceptance nor a flush that was done, and a follower is told of each flush of its
//! source that was done. `drive_all` drives all workers at once, and `record_live` is a recording with all sources at work. A
//! recording has an audience: nobody, or a reader for each source. After each flush of its source the reader learns the note of
//! the flush, takes a view and leaves it.
#![tactic(auto)]

mod audience;
mod driving;
mod feed;
mod following;
mod record;
mod script;
mod seen;
mod watcher;
mod whole;
mod work;

pub use audience::Audience;
pub use driving::{drive, drive_with};
pub use feed::{Fed, Feed};
pub use following::Follower;
pub use record::{Gathered, Unshared, drive_all, record_live};
pub use script::ScriptFeed;
pub use seen::Seen;
pub use watcher::{Watcher, last_look, look};
pub use whole::{part_all, seat_all};
pub use work::{Driven, Ended, Worker};
