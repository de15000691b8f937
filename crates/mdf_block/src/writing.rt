ghost use Rattle.std.specs.Prelude.{◌≡◌, ◌++◌, IfOk, OnOk};

use mdf_num::{Bytes, Memory, Pieces};
use std::alloc::Global;
use std::marker::Model;
use std::mem::replace;

/// A body of so many bytes or more is not copied.
const LONG: usize = 4096;

/// A file that is being written: its pieces, and what is joined into the next one. Contracts see it as the list of its
/// bytes.
#[derive(Drop)]
pub(crate) struct Writing {
    alloc: Global,
    pieces: Pieces,
    next: Bytes,
}

impl Model for Writing {
    ghost use Rattle.std.specs.Prelude.{List, ℕ, ◌++◌};

    ghost Value = { List ℕ };

    ghost view = { λ w. w.pieces ++ w.next };
}

impl Writing {
    /// A file that begins with these bytes.
    pub(crate) fn begin(alloc: Global, bytes: &[u8]) -> Result<Writing, Memory>
        ensures { IfOk result (λ file. file ≡ bytes.now) }
    {
        let next = Bytes::from_slice(alloc, bytes)?;
        Ok(Writing {
            alloc,
            pieces: Pieces::empty(alloc),
            next,
        })
    }

    /// Adds bytes at the end, which are copied.
    pub(crate) fn push_slice(&mut self, bytes: &[u8]) -> Result<(), Memory>
        ensures { OnOk result (self.new ≡ self.old ++ bytes.now) }
    {
        self.next.push_slice(bytes)
    }

    /// Adds a body at the end. A long one becomes a piece of its own.
    pub(crate) fn push_body(&mut self, body: Bytes) -> Result<(), Memory>
        ensures { OnOk result (self.new ≡ self.old ++ body) }
    {
        if body.as_slice().len() < LONG {
            return self.next.push_slice(body.as_slice());
        }
        let next = replace(&mut self.next, Bytes::empty(self.alloc));
        self.pieces.push(next)?;
        self.pieces.push(body)
    }

    /// The whole file.
    pub(crate) fn finish(self) -> Result<Pieces, Memory>
        ensures { IfOk result (λ pieces. pieces ≡ self) }
    {
        let Writing {
            alloc: _,
            pieces,
            next,
        } = self;
        let mut pieces = pieces;
        pieces.push(next)?;
        Ok(pieces)
    }
}
