use crate::Mark;
use mdf_gate::Block;

/// What a front hands over.
#[derive(Drop)]
pub enum Handed {
    /// An earlier answer was a fault of the disk. The last mark still holds.
    Stopped { mark: Mark },
    /// Nothing is pending.
    Nothing,
    /// The pending records, with the number of samples that are durable once they are written.
    Given { through: u64, block: Block },
}
