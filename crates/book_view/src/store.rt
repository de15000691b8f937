//! The copies of what is shown, and what they take in.
use crate::front::Front;
use left_right::Absorb;
use mdf_layout::{Chunk, Chunks};
use std::alloc::AllocError;
use std::sync::Arc;

/// A copy of what is shown: the chunks, and the beginning of the log that their samples are.
#[derive(Drop)]
pub(crate) struct Store {
    pub(crate) chunks: Chunks,
    pub(crate) front: Front,
}

/// What a copy takes in: a chunk behind the first so many, and the beginning of the log that ends with it.
#[derive(Drop)]
pub(crate) struct Addition {
    pub(crate) keep: u64,
    pub(crate) chunk: Arc<Chunk>,
    pub(crate) front: Front,
}

impl Absorb<Addition> for Store {
    ghost use Rattle.book_view.specs.Copies.{added};

    type State = Store;

    ghost state = { λ store. store };

    ghost applied = { added };

    fn absorb_first(&mut self, operation: &Addition, _other: &Store) -> Result<(), AllocError> {
        let Ok(()) = self.chunks.put_behind(operation.keep, &operation.chunk) else {
            return Err(AllocError);
        };
        self.front = operation.front.again();
        Ok(())
    }
}
