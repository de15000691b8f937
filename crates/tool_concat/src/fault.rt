ghost use Rattle.std.specs.Prelude.{◌≡◌};
ghost use Rattle.tool_concat.specs.declared.fault.ConcatFault.TheVariants as faults;

use mdf_content::ReadFault;
use mdf_num::Memory;
use std::fmt;
use thiserror::Error;

/// Why two files were not joined.
#[derive(Clone, Copy, Debug, Error)]
pub enum ConcatFault {
    /// The first file is refused. Want of memory is never in it.
    #[error("the first file is refused")]
    First(ReadFault),
    /// The second file is refused. Want of memory is never in it.
    #[error("the second file is refused")]
    Second(ReadFault),
    /// This group, counted from 0, is not the same in both files, or one of the files has no such group.
    #[error(fmt = fmt_differs)]
    Differs { group: u32 },
    /// An offset of this channel of this group, both counted from 0, is not held by its bits once it is moved.
    #[error(fmt = fmt_wide)]
    Wide { group: u32, channel: u32 },
    /// The output's disk failed.
    #[error("a device failed")]
    Failed,
    /// Want of memory.
    #[error("want of memory")]
    Memory,
}

/// Prints which group differs.
fn fmt_differs<W: fmt::Write>(group: &u32, f: &mut fmt::Formatter<W>) -> fmt::Result {
    write!(f, "group {group} differs")
}

/// Prints which channel of which group is too narrow.
fn fmt_wide<W: fmt::Write>(group: &u32, channel: &u32, f: &mut fmt::Formatter<W>) -> fmt::Result {
    write!(f, "channel {channel} of group {group} is too narrow")
}

impl From<Memory> for ConcatFault {
    ghost from_gives = { λ _ fault. fault ≡ faults.Memory };

    fn from(_: Memory) -> Self {
        ConcatFault::Memory
    }
}
