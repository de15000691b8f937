ghost use Rattle.std.specs.Prelude.{◌≡◌, ◌≤◌, [], Some, take};

use mdf_num::{Failed, FaultCount};
use mdf_port::Sink;

/// How many bytes a line may have that is given at once.
pub(crate) const ROOM: usize = 256;

/// A sink with room for so many bytes, which fails where it is full.
#[derive(Drop)]
pub(crate) struct Room {
    bytes: [u8; ROOM],
    len: usize,
    faults: FaultCount,
    ghost within: { len ≤ 256 },
}

impl Room {
    /// Without a byte.
    pub(crate) fn new() -> Room
        ensures { ⟦<Room as Sink>⟧.held result ≡ Some [] }
    {
        Room {
            bytes: [0; ROOM],
            len: 0,
            faults: FaultCount::zero(),
        }
    }

    /// What it holds.
    pub(crate) fn bytes(&self) -> &[u8]
        ensures { ⟦<Room as Sink>⟧.held self.now ≡ Some result.now }
    {
        &self.bytes[..self.len]
    }
}

impl Sink for Room {
    ghost use Rattle.std.specs.Prelude.{Some, take};

    ghost held = { λ room. Some (take room.len room.bytes) };

    ghost faults = { λ room. room.faults };

    fn give(&mut self, bytes: &[u8]) -> Result<usize, Failed> {
        let count = bytes.len().min(ROOM - self.len);
        if count == 0 {
            return Err(self.faults.fail());
        }
        let end = self.len + count;
        self.bytes[self.len..end].copy_from_slice(&bytes[..count]);
        self.len = end;
        Ok(count)
    }

    fn faults(&self) -> u64 {
        self.faults.get()
    }
}
