//! Samples of channel groups, the layout of their records, and lists of both.
//!
//! A record of a channel group (CGBLOCK) holds the values of its channels (CNBLOCK) in its data bytes, and a bit for
//! each channel that can be invalid in its invalidation bytes. The rules of layouts, and how a record is written and
//! read, are here for channels of all kinds, over rows and for a `Shape`, which is a layout that keeps the rules.
#![tactic(auto)]

mod chunk;
mod chunks;
mod field;
mod fitting;
mod law;
mod long;
mod next;
mod reading;
mod reserved;
mod row;
mod rule;
mod runs;
mod sample;
mod samples;
mod shape;
mod shapes;
mod writing;

pub use chunk::Chunk;
pub use chunks::Chunks;
pub use field::{FieldKind, FieldRow};
pub use fitting::{are_apart, entries_fit};
pub use law::records_are_of_one_list;
pub use next::NextValues;
pub use reading::{DecodeFault, Missing, Values, decode, decode_in};
pub use reserved::Reserved;
pub use row::{ChannelNumbers, field_row, rules_are_tested};
pub use rule::{first_bad, is_variable};
pub use sample::{Entries, Entry, Sample, Value};
pub use samples::Samples;
pub use shape::{Shape, ShapeFault, shape_of};
pub use shapes::Shapes;
