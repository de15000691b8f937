//! What the crates of tests share: tables of rows that tell as text what comes of them, and small files made of blocks.
//!
//! It promises nothing and has no tests of its own.
#![tactic(auto)]

mod files;
mod told;

pub use files::{Piece, file_of, marked_file, put, put_block, put_number, put_numbers, set_link};
pub use told::{
    Stopped, Told, all_are_told, both_shown, is_told, shown, stops_are_told, three_shown,
};
