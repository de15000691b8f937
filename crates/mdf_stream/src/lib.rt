//! The data stream of a link in an MDF 4 file: the parts of the file that it leads to, read one behind the other.
//!
//! Nothing is copied. A place of the stream is found by a search over the parts.
#![tactic(auto)]

mod fault;
mod law;
mod link;
mod moved;
mod part;
mod stretch;
mod view;

pub use fault::DataFault;
pub use law::{a_range_has_its_bytes, streams_agree};
pub use link::{MOST_BLOCKS, add_part, view_data, view_data_in};
pub use mdf_format::Kind;
pub use moved::moved_front;
pub use part::Part;
pub use view::DataView;
