ghost use Rattle.std.specs.Prelude.{◌≡◌, true};
ghost use Rattle.mdf_disk.specs.Crash.{Adds};
ghost use Rattle.mdf_disk.specs.Goes.{GoesOn};
ghost use Rattle.mdf_disk.specs.State.{state_of};
ghost use Rattle.mdf_seal.specs.Seal.{IsBlank};
ghost use Rattle.tool_sort.specs.Sort.{SortEnds, IsSortImage};

use crate::{make_sorted, take_standing};
use mdf_disk::Disk;
use mdf_num::Bytes;
use mdf_tool::{Report, ToolFault, write_made};
use std::alloc::Global;

/// Writes the sorted file of a finished file at `now_ns` (ns since 1970) under a seal, on a disk that is attached with an empty
/// file, and answers what is told of it. The records of each group keep their order. The input is handed over: it is given
/// back to the allocator before the output is made, or its memory holds records that the output is made of.
///
/// # Errors
/// `Read` where the file is refused, with the first fault of `read_measurement`; `Memory` where memory runs out: of both no
/// call of the disk was made. `Failed` where the disk failed.
pub fn sort<C: Disk>(
    alloc: Global,
    file: Bytes,
    now_ns: u64,
    out: &mut C,
) -> Result<Report, ToolFault>
    requires attached { C.attached out.old ≡ true }
    requires blank { IsBlank (C.content out.old) (C.story out.old) }
    ensures ends { SortEnds file now_ns (state_of C.Disk out.old) (state_of C.Disk out.new) result }
    ensures any_moment { Adds (C.story out.old) (C.story out.new) (IsSortImage file now_ns) }
    ensures goes_on { GoesOn C.Disk out.old out.new }
{
    let found = take_standing(alloc, file)?;
    let made = make_sorted(alloc, found, "sort", now_ns)?;
    write_made(out, made)
}
