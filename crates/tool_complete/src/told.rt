use mdf_tool::Report;

/// What is told of a file that was completed.
#[derive(Clone, Copy, Debug)]
pub struct Completed {
    /// What is told of the file that was made.
    pub report: Report,
    /// How many bytes at the end of the last block of data were no whole record.
    pub rest: u64,
}
