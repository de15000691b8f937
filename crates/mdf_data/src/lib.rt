//! The records in the data of an MDF 4 file: each a place in the stream of a data link.
//!
//! Nothing is copied. The stream and its reading are those of `mdf_stream`, whose names stand here too.
#![tactic(auto)]

mod fault;
mod known;
mod law;
mod listed;
mod places;
mod record;
mod splitter;
mod spread;
mod table;

pub use fault::SplitFault;
pub use known::{Known, Piece, Size};
pub use law::{
    a_refusal_leaves_the_rest, places_alone_are_the_split, record_splits_agree,
    records_are_the_split,
};
pub use mdf_stream::{DataFault, DataView, Kind, Part, view_data, view_data_in};
pub use places::Places;
pub use splitter::Splitter;
pub use spread::{places_alone, places_in};
