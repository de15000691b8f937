//! The words of ASAM MDF 4.1 that the contracts of all crates cite: numbers and ranges in bytes, the general
//! block, fields of bits, values in a stream, and the causes of answers. All of them stand in `specs/`.
//!
//! The types of code are the kind of a block and the form of a recording. The two forms are this project's own forms of an
//! unfinalized MDF 4 file: the custom word of the identification names the form, and the form says what stands at each place.
#![tactic(auto)]

mod form;
mod kind;

pub use form::Form;
pub use kind::Kind;
