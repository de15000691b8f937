use crate::Verdict;
use mdf_block::Note;

/// What is listed of an attachment.
#[derive(Debug, Drop)]
pub struct Entry {
    /// The name of its file.
    pub name: Note,
    /// How many bytes the data has outside of the file.
    pub original: u64,
    /// How many bytes the embedded data has.
    pub embedded: u64,
    /// What is said of the MD5.
    pub verdict: Verdict,
}
