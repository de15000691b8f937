use crate::Marks;
use mdf_gate::Block;
use mdf_layout::{NextValues, Samples, Shapes};

/// What a front holds.
pub struct InMemory<V> {
    /// The layouts of the groups.
    pub(crate) shapes: Shapes,
    /// The accepted samples.
    pub(crate) history: Samples,
    pub(crate) marks: Marks,
    /// What the history costs, in bytes.
    pub(crate) held: u64,
    /// The records of the samples behind the last hand-over.
    pub(crate) block: Block,
    /// The block that takes records next, which is away while its records are written.
    pub(crate) spare: Option<Block>,
    /// How many samples were handed over.
    pub(crate) from: u64,
    /// Whether the disk failed.
    pub(crate) stopped: bool,
    /// Where the next values of variable length go.
    pub(crate) next: NextValues,
    /// What a history may cost at most, in bytes.
    pub(crate) session_limit: u64,
    pub(crate) view: V,
}
