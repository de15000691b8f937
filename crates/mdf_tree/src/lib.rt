//! Block trees of an MDF 4 file, placed in one stated order: texts, sources and conversions, channels, channel groups, the
//! header and the entries of the file history.
#![tactic(auto)]

mod channel;
mod conv;
mod count;
mod group;
mod head;
mod number;
mod places;
mod source;
mod text;
mod value;

pub use group::{group_places, group_values_behind, past_groups, place_group};
pub use head::{place_entry, place_header};
pub use number::{joined, next_number, plus};
pub use places::{Counted, GroupPlaces};
pub use text::{note_count, note_link, place_note, place_notes};
pub use value::next_if;
