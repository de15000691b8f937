//! Blocks and texts of an MDF 4 file, read from bytes in memory or through a span.
//!
//! Every address and length comes from the file, so each is tested before it is used, and no sum of them can wrap.
#![tactic(auto)]

mod block;
mod draft;
mod every;
mod fault;
mod field;
mod item;
mod link;
mod name;
mod named;
mod note;
mod place;
mod places;
mod text;
mod walk;
mod what;
mod word;
mod work;
mod writing;

pub use block::{block_at, block_in};
pub use draft::Draft;
pub use every::{Visit, every_in};
pub use fault::{BlockFault, NoteFault};
pub use field::{u16_field, u32_field, u64_field};
pub use link::Link;
pub use mdf_format::Kind;
pub use name::{kind_at, kind_in, name_of};
pub use named::is_named_in;
pub use note::Note;
pub use place::BlockAt;
pub use text::{note_at, note_in, noted_in};
pub use walk::{Walk, chain_in};
pub use what::What;
pub use word::{body_in, link_in, link_of};
