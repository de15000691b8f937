ghost use Rattle.std.specs.Prelude.{ℕ, ◌≡◌, ◌≤◌, ◌<◌, List, length, slice_index_or, true, Ok, IfOk, IfErr};
ghost use Rattle.mdf_num.specs.Halt.{HaltCause};
ghost use Rattle.mdf_model.specs.declared.part.Measure.{Measure};
ghost use Rattle.mdf_model.specs.Measurement.{measurement};
ghost use Rattle.mdf_model.specs.InWords.{IsMeasurement};
ghost use Rattle.mdf_port.specs.State.{sink_state};
ghost use Rattle.tool_export.specs.Export.{ExportEnds, GivesText, NamesNone, SinkCause};
ghost use Rattle.tool_export.specs.Table.{table_of};

use crate::ExportFault;
use crate::give::give_table;
use crate::samples::GroupSamples;
use mdf_model::{Measurement, take_file};
use mdf_num::{Bytes, Failed, Halt, SliceSpan};
use mdf_port::Sink;
use std::alloc::Global;

/// The number of a group, where there is one among so many.
pub(crate) fn group_in(groups: u32, said: u64) -> Result<u32, ExportFault>
    ensures there { IfOk result (λ group. (group ≡ said) × (group < groups)) }
    ensures none { IfErr result (NamesNone said groups) }
{
    if said >= u64::from(groups) {
        return Err(ExportFault::NoGroup { said, groups });
    }
    Ok(said as u32)
}

/// Gives the table of a group.
fn give_group<K: Sink>(
    alloc: Global,
    sink: &mut K,
    found: &Measurement,
    group: u32,
) -> Result<(), Halt<Failed>>
    requires { group < length found.now.groups }
    ensures text { (d : Measure) → GivesText (table_of (slice_index_or found.now.groups group d)) (sink_state K.Sink sink.old) (sink_state K.Sink sink.new) result }
    ensures sink { SinkCause (K.faults sink.old) (K.faults sink.new) result }
    ensures cause { HaltCause true 0 0 result }
{
    let channels = found.part(group).row.channels.as_slice();
    let list = GroupSamples::new(found, group);
    let mut none = SliceSpan::new(&[]);
    give_table(alloc, &mut none, sink, channels, &list)
}

/// Gives the table of the group of this number, if there is one. It answers how many samples it has.
fn give_numbered<K: Sink>(
    alloc: Global,
    sink: &mut K,
    found: &Measurement,
    said: u64,
) -> Result<u64, ExportFault>
    ensures ends { (file : List ℕ) → measurement file ≡ Ok found.now → IsMeasurement file found.now.head found.now.history found.now.groups
        → ExportEnds file said (sink_state K.Sink sink.old) (sink_state K.Sink sink.new) result }
    ensures later { K.faults sink.old ≤ K.faults sink.new }
{
    let group = group_in(found.groups(), said)?;
    give_group(alloc, sink, found, group)?;
    Ok(found.samples(group))
}

/// Prints a channel group of a finalized file, counted from 0 over the groups whose records are samples, as a table in CSV.
/// Its first line is `index` and the names of the channels. Then each sample has a line: its index, and its values, numbers
/// in decimal and bytes as `x` and two digits for each, with `?` behind an invalid one. It answers how many samples there are.
///
/// # Errors
/// `Read` where the file is refused, with its first fault, and then `NoGroup` exactly where the file has no such group: of
/// both nothing was given. `Failed` where the sink failed, and `Memory` where memory runs out; then the sink has a front of
/// the table.
pub fn export<K: Sink>(
    alloc: Global,
    file: Bytes,
    group: u64,
    sink: &mut K,
) -> Result<u64, ExportFault>
    ensures ends { ExportEnds file group (sink_state K.Sink sink.old) (sink_state K.Sink sink.new) result }
    ensures later { K.faults sink.old ≤ K.faults sink.new }
{
    let found = take_file(alloc, file)?;
    give_numbered(alloc, sink, &found, group)
}
