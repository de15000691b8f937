ghost use Rattle.std.specs.Prelude.{◌≡◌, true};
ghost use Rattle.mdf_disk.specs.Crash.{Adds};
ghost use Rattle.mdf_disk.specs.Goes.{GoesOn};
ghost use Rattle.mdf_disk.specs.State.{state_of};
ghost use Rattle.mdf_seal.specs.Seal.{IsBlank};
ghost use Rattle.tool_complete.specs.Complete.{CompleteEnds, IsCompleteImage};

use crate::told::Completed;
use crate::{completed_of, unfinished_of};
use mdf_disk::Disk;
use mdf_num::Bytes;
use mdf_tool::{ToolFault, write_made};
use std::alloc::Global;
use tool_sort::{make_sorted, take_standing};

/// Writes the sorted file of the completed file of an unfinished one at `now_ns` (ns since 1970) under a seal, on a disk that is
/// attached with an empty file, and answers what is told of it. The input is handed over: it is completed in its own memory, which
/// then holds the records that the output is made of, or is given back to the allocator before the output is made.
///
/// # Errors
/// `Read` where the file is refused: `NotMdf`, `Version` and `NotRecording` as `unfinished_of`, and then with the first fault of
/// the completed file; `Memory` where memory runs out: of both no call of the disk was made. `Failed` where the disk failed.
pub fn complete<C: Disk>(
    alloc: Global,
    file: Bytes,
    now_ns: u64,
    out: &mut C,
) -> Result<Completed, ToolFault>
    requires attached { C.attached out.old ≡ true }
    requires blank { IsBlank (C.content out.old) (C.story out.old) }
    ensures ends { CompleteEnds file now_ns (state_of C.Disk out.old) (state_of C.Disk out.new) result }
    ensures any_moment { Adds (C.story out.old) (C.story out.new) (IsCompleteImage file now_ns) }
    ensures goes_on { GoesOn C.Disk out.old out.new }
{
    unfinished_of(file.as_slice())?;
    let whole = completed_of(alloc, file)?;
    let rest = whole.rest;
    let found = take_standing(alloc, whole.file)?;
    let made = make_sorted(alloc, found, "finalize", now_ns)?;
    let report = write_made(out, made)?;
    Ok(Completed { report, rest })
}
