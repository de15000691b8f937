//! A file on a disk, read through pages: at most 256 of them are in memory, each of 65,536 bytes, and a page that is there
//! is read no second time.
#![tactic(auto)]

mod cache;
mod kept;
mod pages;
mod read;

pub use kept::{Asked, Kept};
pub use pages::Pages;
