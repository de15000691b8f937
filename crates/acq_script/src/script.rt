use mdf_format::Form;
use mdf_group::GroupRow;
use mdf_layout::{Sample, Shapes};
use mdf_num::{Bytes, Rows};

/// What a script says before its samples.
#[derive(Debug, Drop)]
pub struct Plan {
    /// The layouts of the groups, in the order of their numbers: those of the rows.
    pub shapes: Shapes,
    /// The groups with their channels, in the order of their numbers.
    pub rows: Rows<GroupRow>,
    /// The source of each group.
    pub owners: Bytes,
    /// The number of sources.
    pub sources: u8,
    /// How many data bytes a block of records has at most.
    pub block: u32,
    /// What the samples of the recording cost in all at most.
    pub session: u64,
    /// The form of the recording.
    pub form: Form,
    /// Whether samples are shown while the recording is made.
    pub live: bool,
}

/// What a source does.
#[derive(Debug, Drop)]
pub enum Task {
    /// It hands in a sample.
    Sample(Sample),
    /// It wants all samples so far to be durable.
    Flush,
}

/// A script: its plan, and for each source what it does, in order.
#[derive(Debug, Drop)]
pub struct Script {
    pub plan: Plan,
    pub lists: Rows<Rows<Task>>,
}
