ghost use Rattle.std.specs.Prelude.{◌≡◌, true, IfErr, IfOk, OnOk};
ghost use Rattle.std.specs.List.{AllByRecursion};
ghost use Rattle.mdf_disk.specs.Crash.{Adds};
ghost use Rattle.mdf_disk.specs.Goes.{GoesOn};
ghost use Rattle.mdf_disk.specs.State.{state_of};
ghost use Rattle.mdf_seal.specs.Seal.{IsBlank};
ghost use Rattle.tool_sort.specs.Kept.{StandsIn};
ghost use Rattle.tool_concat.specs.Concat.{ConcatEnds, IsConcatImage};
ghost use Rattle.tool_concat.specs.Making.{CanJoin, FirstRead, IsLaid, IsMadeFrom, IsMadeOf, IsRefusal, IsRefused, SecondRead, unwritten};
ghost use Rattle.tool_concat.specs.Joined.{IsJoined};

use crate::difference::first_difference;
use crate::fault::ConcatFault;
use crate::joined::join_all;
use crate::wide::first_wide;
use mdf_content::ReadFault;
use mdf_disk::Disk;
use mdf_model::Measurement;
use mdf_num::{Bytes, Memory};
use mdf_tool::{Made, Report, ToolFault, write_made};
use std::alloc::Global;
use tool_sort::{make_sorted, take_standing};

/// The measurement of the first file, which is handed over.
fn first_of(alloc: Global, file: Bytes) -> Result<Measurement, ConcatFault>
    ensures read { FirstRead file result }
    ensures stands { IfOk result (StandsIn file) }
{
    match take_standing(alloc, file) {
        Ok(found) => Ok(found),
        Err(ReadFault::Memory) => Err(ConcatFault::Memory),
        Err(fault) => Err(ConcatFault::First(fault)),
    }
}

/// The measurement of the second file, which is handed over.
fn second_of(alloc: Global, file: Bytes) -> Result<Measurement, ConcatFault>
    ensures read { SecondRead file result }
    ensures stands { IfOk result (StandsIn file) }
{
    match take_standing(alloc, file) {
        Ok(found) => Ok(found),
        Err(ReadFault::Memory) => Err(ConcatFault::Memory),
        Err(fault) => Err(ConcatFault::Second(fault)),
    }
}

/// Whether measurements can be joined.
fn can_join(one: &Measurement, other: &Measurement) -> Result<(), ConcatFault>
    requires one { AllByRecursion IsLaid one.now.groups }
    requires other { AllByRecursion IsLaid other.now.groups }
    ensures can { OnOk result (CanJoin one.now other.now) }
    ensures refused { IfErr result (IsRefused one.now other.now) }
{
    if let Some(group) = first_difference(one, other) {
        return Err(ConcatFault::Differs { group });
    }
    if let Some(place) = first_wide(one, other) {
        return Err(ConcatFault::Wide {
            group: place.group,
            channel: place.channel,
        });
    }
    Ok(())
}

/// Joins the second measurement behind the first.
fn join(alloc: Global, one: &mut Measurement, other: &Measurement) -> Result<(), ConcatFault>
    requires one { AllByRecursion IsLaid one.old.groups }
    requires other { AllByRecursion IsLaid other.now.groups }
    ensures can { OnOk result (CanJoin one.old other.now) }
    ensures joined { OnOk result (IsJoined one.old other.now one.new) }
    ensures refused { IfErr result (IsRefused one.old other.now) }
{
    can_join(one, other)?;
    join_all(alloc, one, other)?;
    Ok(())
}

/// The joined measurement.
fn joined_of(
    alloc: Global,
    one: Measurement,
    other: Measurement,
) -> Result<Measurement, ConcatFault>
    requires one { AllByRecursion IsLaid one.groups }
    requires other { AllByRecursion IsLaid other.groups }
    ensures can { OnOk result (CanJoin one other) }
    ensures joined { IfOk result (IsJoined one other) }
    ensures refused { IfErr result (IsRefused one other) }
{
    let mut joined = one;
    join(alloc, &mut joined, &other)?;
    Ok(joined)
}

/// The sorted file of the joined measurement, with what is told of it.
fn made_of(
    alloc: Global,
    one: Measurement,
    other: Measurement,
    now_ns: u64,
) -> Result<Made, ConcatFault>
    requires one { AllByRecursion IsLaid one.groups }
    requires other { AllByRecursion IsLaid other.groups }
    ensures made { IfOk result (IsMadeFrom one other now_ns) }
    ensures refused { IfErr result (IsRefused one other) }
{
    let dropped = one.dropped().saturating_add(other.dropped());
    let joined = joined_of(alloc, one, other)?;
    let Made { bytes, report } = make_sorted(alloc, joined, "concat", now_ns)?;
    let report = Report {
        groups: report.groups,
        samples: report.samples,
        dropped,
    };
    Ok(Made { bytes, report })
}

/// The sorted file of the joined measurement of two files, with what is told of it.
fn made_from(alloc: Global, first: Bytes, second: Bytes, now_ns: u64) -> Result<Made, ConcatFault>
    ensures made { IfOk result (IsMadeOf (record { first = first; second = second; now = now_ns })) }
    ensures refused { IfErr result (IsRefusal (record { first = first; second = second; now = now_ns })) }
{
    let one = first_of(alloc, first)?;
    let other = second_of(alloc, second)?;
    made_of(alloc, one, other, now_ns)
}

/// The fault of a file that was made and is not written.
fn unwritten(fault: ToolFault) -> ConcatFault
    ensures { result ≡ unwritten fault }
{
    match fault {
        ToolFault::Failed => ConcatFault::Failed,
        ToolFault::Memory | ToolFault::Read(_) => ConcatFault::Memory,
    }
}

/// Joins two finalized files: writes the sorted file of their joined measurement at `now_ns` (ns since 1970) under a seal, on a
/// disk that is attached with an empty file, and answers what is told of it. Each group has the records of the first file and
/// then those of the second. The stream of each channel of variable length (SDBLOCK) is that of the first with that of the
/// second behind it, and the offsets in the second's records rise by how many bytes the first has; no other bit of a record
/// changes. All else is as in the first file. The inputs are given back to the allocator before anything is joined.
///
/// # Errors
/// Of all but `Failed` no call of the disk was made, and they come in this order. `First` and `Second` where that file is
/// refused, with its first fault. `Differs` exactly where the files do not have the same groups: names of acquisitions, sizes of
/// records, and channels with their kind, sync, data type, place, bits, flags, position of the invalidation bit, name, unit and
/// conversion; with the first group that differs, or the smaller number of groups. `Wide` exactly where a moved offset is not
/// held by the bits of its channel, with the first such group and its first such channel. `Failed` where the disk failed.
/// `Memory` where memory runs out, or where there are more samples than a u64 counts.
pub fn concat<C: Disk>(
    alloc: Global,
    first: Bytes,
    second: Bytes,
    now_ns: u64,
    out: &mut C,
) -> Result<Report, ConcatFault>
    requires attached { C.attached out.old ≡ true }
    requires blank { IsBlank (C.content out.old) (C.story out.old) }
    ensures ends { ConcatEnds (record { first = first; second = second; now = now_ns }) (state_of C.Disk out.old) (state_of C.Disk out.new) result }
    ensures any_moment { Adds (C.story out.old) (C.story out.new) (IsConcatImage (record { first = first; second = second; now = now_ns })) }
    ensures goes_on { GoesOn C.Disk out.old out.new }
{
    let made = made_from(alloc, first, second, now_ns)?;
    match write_made(out, made) {
        Ok(report) => Ok(report),
        Err(fault) => Err(unwritten(fault)),
    }
}
