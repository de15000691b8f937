//! The measurement of an MDF 4 file that need not be in memory: where its records stand, and its samples one by one.
//!
//! It says what `mdf_model` says of a file in memory, through any span. No records are kept.
#![tactic(auto)]

mod index;
mod measurement;
mod sample;
mod values;

pub use measurement::PagedMeasurement;
