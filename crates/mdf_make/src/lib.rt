//! The commands that make a file of others: `finalize`, `sort` and `cut` of one, `concat` and `attach` of two.
//!
//! Each has a call of its own, whose contract says what it prints, and what is left of the output at any moment. The first three are
//! one step over a tool on one input (`run_tool`), the other two over one on two (`run_pair`), which also tells the input that
//! is refused.
#![tactic(auto)]

mod attach;
mod blamed;
mod by_tool;
mod concat;
mod cutting;
mod finalize;
mod from;
mod joining;
mod pair_tool;
mod said;
mod sort;
mod tool;

pub use attach::run_attach;
pub use blamed::{Input, Verdict};
pub use concat::run_concat;
pub use cutting::run_cut;
pub use finalize::run_finalize;
pub use from::{FromOne, FromTwo};
pub use said::Said;
pub use sort::run_sort;
