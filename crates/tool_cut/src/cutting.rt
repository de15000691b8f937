ghost use Rattle.std.specs.Prelude.{◌≡◌, true};
ghost use Rattle.std.specs.List.{AllByRecursion};
ghost use Rattle.mdf_disk.specs.Crash.{Adds};
ghost use Rattle.mdf_disk.specs.Goes.{GoesOn};
ghost use Rattle.mdf_disk.specs.State.{state_of};
ghost use Rattle.mdf_model.specs.Measurement.{HasSamples};
ghost use Rattle.mdf_seal.specs.Seal.{IsBlank};
ghost use Rattle.tool_cut.specs.Cut.{CutEnds, IsCutImage};
ghost use Rattle.tool_cut.specs.Kept.{cut_of};

use crate::master::Range;
use crate::measure::cut_all;
use mdf_disk::Disk;
use mdf_model::Measurement;
use mdf_num::Bytes;
use mdf_tool::{Report, ToolFault, write_made};
use std::alloc::Global;
use tool_sort::{make_sorted, take_standing};

/// The measurement with those records alone whose master lies in the range. It takes no memory.
fn cut_in(alloc: Global, found: Measurement, range: Range) -> Measurement
    requires samples { AllByRecursion HasSamples found.groups }
    ensures { result ≡ cut_of range.from range.to found }
{
    let mut cut = found;
    cut_all(alloc, &mut cut, range);
    cut
}

/// Writes the sorted file of a finalized file at `now_ns` (ns since 1970) with those records alone whose master has a raw
/// number from `from` on and below `to`, under a seal, on a disk that is attached with an empty file, and answers what is told
/// of it. The master of a group is its first channel of kind 2 with data type 0 to 5 (CNBLOCK); its number counts whether it
/// is valid or not, and that of a float is the number that its bits are. A group without a master is kept whole, and so are
/// the values of variable length. The input is handed over: it is given back to the allocator before the output is made, or its memory holds
/// records that the output is made of.
///
/// # Errors
/// `Read` where the file is refused, with its first fault; `Memory` where memory runs out: of both no call of the disk was
/// made. `Failed` where the disk failed.
pub fn cut<C: Disk>(
    alloc: Global,
    file: Bytes,
    from: i128,
    to: i128,
    now_ns: u64,
    out: &mut C,
) -> Result<Report, ToolFault>
    requires attached { C.attached out.old ≡ true }
    requires blank { IsBlank (C.content out.old) (C.story out.old) }
    ensures ends { CutEnds file (record { from = from; to = to; now = now_ns }) (state_of C.Disk out.old) (state_of C.Disk out.new) result }
    ensures any_moment { Adds (C.story out.old) (C.story out.new) (IsCutImage file (record { from = from; to = to; now = now_ns })) }
    ensures goes_on { GoesOn C.Disk out.old out.new }
{
    let found = take_standing(alloc, file)?;
    let range = Range::new(from, to);
    let cut = cut_in(alloc, found, range);
    let made = make_sorted(alloc, cut, "cut", now_ns)?;
    write_made(out, made)
}
