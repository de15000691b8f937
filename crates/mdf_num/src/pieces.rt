ghost use Rattle.std.specs.Prelude.{◌≡◌, ◌<◌, ◌^◌, [], ◌++◌, length, IfOk, OnOk, OnErr};
ghost use Rattle.std.specs.List.{concat};

use crate::{Bytes, Memory};
use std::alloc::Global;
use std::marker::Model;

/// `push` answers want of memory where all pieces together would be so many bytes or more.
const TOO_LONG: u64 = 1 << 62;

/// Bytes in pieces, one behind the other, so that a long piece need not be copied. Contracts see the list of all bytes.
#[derive(Debug, Drop)]
pub struct Pieces {
    items: Vec<Bytes>,
    count: u64,
}

impl Model for Pieces {
    ghost use Rattle.std.specs.Prelude.{List, ℕ, ◌≡◌, ◌<◌, ◌^◌, length};
    ghost use Rattle.std.specs.List.{concat};

    ghost Value = { List ℕ };

    ghost view = { λ p. concat p.items.items };

    ghost invariant = { λ p. (p.count ≡ length (concat p.items.items)) × (p.count < 2 ^ 62) };
}

impl Pieces {
    /// No piece. It takes no memory.
    pub fn empty(alloc: Global) -> Pieces
        ensures { result ≡ [] }
    {
        Pieces {
            items: Vec::new(alloc),
            count: 0,
        }
    }

    /// Adds a piece at the end, which is not copied. It wants memory where all would be 2^62 bytes or more. After an error
    /// the bytes are as before, and the piece is dropped.
    pub fn push(&mut self, piece: Bytes) -> Result<(), Memory>
        ensures ok { OnOk result (self.new ≡ self.old ++ piece) }
        ensures err { OnErr result (self.new ≡ self.old) }
    {
        let count = self.count + piece.as_slice().len() as u64;
        if count >= TOO_LONG {
            return Err(Memory);
        }
        self.items.push(piece)?;
        self.count = count;
        Ok(())
    }

    /// How many bytes there are.
    pub fn len(&self) -> u64
        ensures len { result ≡ length self.now }
        ensures short { result < 2 ^ 62 }
    {
        self.count
    }

    /// The pieces in order.
    pub fn as_slice(&self) -> &[Bytes]
        ensures all { concat result.now ≡ self.now }
        ensures short { length self.now < 2 ^ 62 }
    {
        self.items.as_slice()
    }

    /// The bytes in one piece. Its room is found at once, so that they are copied once.
    pub fn joined(&self) -> Result<Bytes, Memory>
        ensures { IfOk result (λ bytes. bytes ≡ self.now) }
    {
        let room = Vec::with_capacity(*self.items.allocator(), self.count as usize)?;
        let mut bytes = Bytes::from_vec(room);
        for piece in self.items.as_slice() {
            bytes.push_slice(piece.as_slice())?;
        }
        Ok(bytes)
    }
}
