//! What the data groups of an MDF 4 file hold: the layouts of their records, the places of the records in the data
//! stream, and the values of channels of variable length.
//!
//! Everything is read through a span. The first fault in the order of the links is answered.
#![tactic(auto)]

mod contents;
mod fault;
mod found;
mod layouts;
mod lower;
mod records;
mod room;
mod streams;
mod taken;
mod values;
mod wanted;

pub use contents::{Contents, DataContents, fetch_in};
pub use fault::ReadFault;
pub use found::{DataFound, Found, data_found_in};
pub use layouts::{layout_in, layouts_in};
pub use mdf_block::{Kind, What};
pub use records::{count_at, counted_in, known_groups, record_size, records_in};
pub use room::Room;
pub use streams::streams_in;
pub use taken::fetch_from;
pub use values::{Held, Records, place_at, places_or, values_table};
pub use wanted::Wanted;
