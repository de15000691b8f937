ghost use Rattle.std.specs.Prelude.{◌≡◌, ◌<◌, ℕ, List, Some, Ok, true, length, slice_index_or, IfErr};
ghost use Rattle.std.specs.List.{AllByRecursion};
ghost use Rattle.mdf_num.specs.Halt.{HaltCause};
ghost use Rattle.mdf_content.specs.Found.{IsFoundInside};
ghost use Rattle.mdf_model.specs.declared.part.Measure.{Measure};
ghost use Rattle.mdf_model.specs.Kept.{found_for};
ghost use Rattle.mdf_model.specs.Measurement.{Measured, measurement};
ghost use Rattle.mdf_paged.specs.Groups.{groups_of};
ghost use Rattle.mdf_port.specs.State.{sink_state};
ghost use Rattle.tool_export.specs.Export.{ExportCause, ExportHalts, GivesText, IsPlainExport, SinkCause, halt_of_read, halt_of_table};
ghost use Rattle.tool_export.specs.Table.{count_at, sample_read, table_of};

use crate::ExportFault;
use crate::give::give_table;
use crate::samples::SampleList;
use crate::table::group_in;
use mdf_content::ReadFault;
use mdf_layout::Entries;
use mdf_num::{Failed, Halt, Span, Stop};
use mdf_paged::PagedMeasurement;
use mdf_port::Sink;
use std::alloc::Global;

/// The samples of a group of a measurement that is in the file of a span, where its places were wanted.
#[derive(Drop)]
struct PagedSamples<'a> {
    found: &'a PagedMeasurement,
    group: u32,
    ghost there: { group < length (groups_of found.now) },
}

impl<'a> PagedSamples<'a> {
    /// Those of the group of this number, counted from 0.
    fn new(found: &'a PagedMeasurement, group: u32) -> PagedSamples<'a>
        requires { group < length (groups_of found.now) }
        ensures found { result.found.now ≡ found.now }
        ensures group { result.group ≡ group }
    {
        PagedSamples { found, group }
    }
}

impl SampleList for PagedSamples<'_> {
    ghost are_of = { λ list f. found_for list.group f ≡ Ok list.found.now };

    ghost sample = { λ list f. sample_read (measurement f) list.group };

    ghost needs = { λ list size. AllByRecursion (IsFoundInside size) list.found.now.found };

    ghost count = { λ list. count_at list.found.now list.group };

    fn count(&self) -> u64 {
        self.found.samples(self.group)
    }

    fn sample<P: Span>(
        &self,
        alloc: Global,
        span: &mut P,
        index: u64,
        scratch: &mut Vec<u8>,
    ) -> Result<Entries, Stop> {
        self.found
            .sample_with(alloc, span, self.group, index, scratch)
    }
}

/// Why a file was not read, as the end of an export.
fn halt_of_read(halt: Halt<ReadFault>) -> Halt<ExportFault>
    ensures { result ≡ halt_of_read halt }
{
    match halt {
        Halt::Fault(fault) => Halt::Fault(ExportFault::Read(fault)),
        Halt::Failed => Halt::Failed,
        Halt::Memory => Halt::Memory,
    }
}

/// Why not all of a table was given, as the end of an export.
fn halt_of_table(halt: Halt<Failed>) -> Halt<ExportFault>
    ensures { result ≡ halt_of_table halt }
{
    match halt {
        Halt::Fault(_) => Halt::Fault(ExportFault::Failed),
        Halt::Failed => Halt::Failed,
        Halt::Memory => Halt::Memory,
    }
}

/// Gives the table of a group.
fn give_group_in<P: Span, K: Sink>(
    alloc: Global,
    span: &mut P,
    sink: &mut K,
    found: &PagedMeasurement,
    group: u32,
) -> Result<(), Halt<Failed>>
    requires inside { AllByRecursion (IsFoundInside (P.size span.old)) found.now.found }
    requires group { group < length (groups_of found.now) }
    ensures text { (f : List ℕ) (m : Measured) (d : Measure) → P.bytes span.old ≡ Some f → found_for group f ≡ Ok found.now → measurement f ≡ Ok m
        → GivesText (table_of (slice_index_or m.groups group d)) (sink_state K.Sink sink.old) (sink_state K.Sink sink.new) result }
    ensures sink { SinkCause (K.faults sink.old) (K.faults sink.new) result }
    ensures same { P.bytes span.new ≡ P.bytes span.old }
    ensures size { P.size span.new ≡ P.size span.old }
    ensures cause { HaltCause true (P.faults span.old) (P.faults span.new) result }
{
    let channels = found.row(group).channels.as_slice();
    let list = PagedSamples::new(found, group);
    give_table(alloc, span, sink, channels, &list)
}

/// Gives the table of the group of this number, if there is one. It answers how many samples it has.
fn give_numbered_in<P: Span, K: Sink>(
    alloc: Global,
    span: &mut P,
    sink: &mut K,
    found: &PagedMeasurement,
    said: u64,
) -> Result<u64, Halt<ExportFault>>
    requires inside { AllByRecursion (IsFoundInside (P.size span.old)) found.now.found }
    ensures ends { (f : List ℕ) → P.bytes span.old ≡ Some f → found_for said f ≡ Ok found.now
        → ExportHalts f said (sink_state K.Sink sink.old) (sink_state K.Sink sink.new) result }
    ensures plain { IfErr result (IsPlainExport said) }
    ensures sink { ExportCause (sink_state K.Sink sink.old) (sink_state K.Sink sink.new) result }
    ensures same { P.bytes span.new ≡ P.bytes span.old }
    ensures size { P.size span.new ≡ P.size span.old }
    ensures cause { HaltCause true (P.faults span.old) (P.faults span.new) result }
{
    let group = match group_in(found.groups(), said) {
        Ok(group) => group,
        Err(fault) => return Err(Halt::Fault(fault)),
    };
    match give_group_in(alloc, span, sink, found, group) {
        Ok(()) => Ok(found.samples(group)),
        Err(halt) => Err(halt_of_table(halt)),
    }
}

/// Prints a channel group of a finalized file that need not be in memory, as `export` does. The records are read out of the
/// span one by one, and some lines are made at once. Of records with ids the places are kept of this group alone, and of those
/// that lead to values of variable length.
///
/// # Errors
/// `Read` where the file is refused, with its first fault, and then `NoGroup` exactly where the file has no such group: of
/// both nothing was given. `Failed` where the sink failed. The span's own; and want of memory, which is never inside the
/// fault. Then the sink has a front of the table, or nothing.
pub fn export_in<P: Span, K: Sink>(
    alloc: Global,
    span: &mut P,
    group: u64,
    sink: &mut K,
) -> Result<u64, Halt<ExportFault>>
    ensures ends { (file : List ℕ) → P.bytes span.old ≡ Some file → ExportHalts file group (sink_state K.Sink sink.old) (sink_state K.Sink sink.new) result }
    ensures plain { IfErr result (IsPlainExport group) }
    ensures sink { ExportCause (sink_state K.Sink sink.old) (sink_state K.Sink sink.new) result }
    ensures same { P.bytes span.new ≡ P.bytes span.old }
    ensures size { P.size span.new ≡ P.size span.old }
    ensures cause { HaltCause true (P.faults span.old) (P.faults span.new) result }
{
    match PagedMeasurement::read_for(alloc, span, group) {
        Ok(found) => give_numbered_in(alloc, span, sink, &found, group),
        Err(halt) => Err(halt_of_read(halt)),
    }
}
