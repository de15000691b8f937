ghost use Rattle.std.specs.Prelude.{◌≡◌};

use mdf_num::Bytes;

/// A call that a disk in memory recorded. A write and a sync keep whether they were done.
#[derive(Drop)]
pub enum Call {
    Attach,
    Size,
    Read,
    /// A write into a file that is there to be read.
    Refused,
    Write { at: u64, bytes: Bytes, done: bool },
    Sync { done: bool },
}

impl Call {
    ghost use Rattle.mdf_disk.specs.Tape.{ticks_of};

    /// How many moments the call adds.
    pub fn ticks(&self) -> u64
        ensures { result ≡ ticks_of self.now }
    {
        match self {
            Call::Write { .. } | Call::Sync { .. } => 1,
            Call::Attach | Call::Size | Call::Read | Call::Refused => 0,
        }
    }
}
