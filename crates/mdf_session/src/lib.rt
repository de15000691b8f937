//! The recording that an unfinalized MDF 4 file of this project's form is: its header, its file history, its groups and
//! channels, and the records of its opened blocks.
#![tactic(auto)]

mod counted;
mod opened;
mod session;
mod standing;

pub use mdf_content::ReadFault;
pub use session::{Session, read_session, session_in, session_of};
