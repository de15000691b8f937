//! The lines of a script, each by itself: words with one blank between them, and what they say.
//!
//! A line is empty or a comment, or it names a limit, a group, a channel or a unit, or it is a sample of a group or a flush
//! of a source. Which line may stand behind which is no matter of this crate.
#![tactic(auto)]

mod first;
mod float;
mod front;
mod kind;
mod line;
mod number;
mod sample;
mod text;
mod value;

pub use float::{Width, float_bits};
pub use kind::ValueType;
pub use line::{ChannelForm, Line, Marks, line_of};
pub use number::number_of;
pub use sample::entries_of;
pub use text::cut;
