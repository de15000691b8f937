ghost use Rattle.std.specs.Prelude.{◌≡◌, ◌<◌, ℕ, List, Some, Ok, true, length, slice_get, slice_index_or, IfOk};
ghost use Rattle.std.specs.List.{AllByRecursion};
ghost use Rattle.mdf_num.specs.Halt.{StopCause};
ghost use Rattle.mdf_block.specs.Reads.{Reads};
ghost use Rattle.mdf_content.specs.Fault.{read_refusal};
ghost use Rattle.mdf_content.specs.Found.{IsFoundInside, IsGroupInside};
ghost use Rattle.mdf_stream.specs.Parts.{ArePartsInside};
ghost use Rattle.mdf_model.specs.declared.part.Measure.{Measure};
ghost use Rattle.mdf_content.specs.declared.wanted.Wanted.TheVariants as wants;
ghost use Rattle.mdf_model.specs.Found.{whole_found};
ghost use Rattle.mdf_model.specs.Measurement.{GivesSeen, measured_from, Measured, measurement, sample_of};
ghost use Rattle.mdf_model.specs.Kept.{found_for, found_kept};
ghost use Rattle.mdf_paged.specs.Groups.{Located, group_rows, groups_of, is_strict, located};

use crate::index::{GroupNumber, numbers_of};
use crate::sample::sample_of;
use mdf_content::{DataFound, Found, ReadFault, Wanted};
use mdf_group::{DataRow, GroupRow};
use mdf_head::Ident;
use mdf_layout::Entries;
use mdf_model::{WholeFound, are_strict, whole_for_in, whole_found_in, whole_kept_in};
use mdf_num::{Halt, Memory, Rows, Span, Stop};
use std::alloc::Global;
use std::marker::Model;

/// The measurement of a finalized file that need not be in memory. Contracts see it as what is found of the file.
#[derive(Drop)]
pub struct PagedMeasurement {
    all: WholeFound,
    index: Vec<GroupNumber>,
}

impl Model for PagedMeasurement {
    ghost use Rattle.std.specs.Prelude.{◌≡◌, ◌<◌, ◌^◌, length, map, Some};
    ghost use Rattle.std.specs.Coded.{codes};
    ghost use Rattle.mdf_conv.specs.contracts.row.Ref as refs;
    ghost use Rattle.mdf_model.specs.declared.whole.WholeFound.{WholeFound};
    ghost use Rattle.mdf_paged.specs.Groups.{group_at, group_rows, groups_of, row_at};

    ghost Value = { WholeFound };

    ghost coded = { Prim.hlevel (codes, refs.the_row.coded) };

    ghost view = { λ m. m.all };

    ghost invariant = { λ m. (length m.index.items < 2 ^ 32) × (map (group_at m.all.found) m.index.items ≡ map Some (groups_of m.all))
        × (map (row_at m.all.tree.rows m.all.found) m.index.items ≡ map Some (group_rows m.all)) };
}

/// Item `k` of a list.
fn item<T>(items: &[T], k: usize) -> &T
    requires { k < length items.now }
    ensures { slice_get items.now k ≡ Some result.now }
{
    &items[k]
}

impl PagedMeasurement {
    /// The measurement of a finalized file, as `read_measurement` of mdf_model has it of a file in memory, with the same faults
    /// in the same order. Places are kept in place of bytes: none for records that stand at equal steps, 4 or 8 bytes for
    /// each other record, and 24 for each data block and for each value of a group of values. No record is read for its own
    /// sake: of data groups without record ids it is computed how many there are, and of channels of variable length the
    /// offsets are looked at.
    ///
    /// # Errors
    /// As `whole_found_in`. 2^32 groups and more count as want of memory.
    pub fn read<P: Span>(alloc: Global, span: &mut P) -> Result<PagedMeasurement, Halt<ReadFault>>
        ensures reads { Reads P.Span span.old span.new true read_refusal result (λ file. whole_found file) }
        ensures measured { (f : List ℕ) → P.bytes span.old ≡ Some f → GivesSeen read_refusal (measured_from f) result (measurement f) }
        ensures inside { IfOk result (λ m. AllByRecursion (IsFoundInside (P.size span.old)) m.found) }
    {
        let all = whole_found_in(alloc, span)?;
        let found = PagedMeasurement::numbered(alloc, all)?;
        Ok(found)
    }

    /// The same for a caller that needs no samples. Of records with ids only those places are kept that are needed to find the
    /// values of variable length: of groups that hold such values, and of groups with channels that refer to them. Those of the
    /// other groups are counted: each place is told as 0.
    ///
    /// # Errors
    /// As `read`.
    pub fn read_counted<P: Span>(
        alloc: Global,
        span: &mut P,
    ) -> Result<PagedMeasurement, Halt<ReadFault>>
        ensures reads { Reads P.Span span.old span.new true read_refusal result (λ file. found_kept wants.Values file) }
        ensures inside { IfOk result (λ m. AllByRecursion (IsFoundInside (P.size span.old)) m.found) }
    {
        let all = whole_kept_in(alloc, span, Wanted::Values)?;
        let found = PagedMeasurement::numbered(alloc, all)?;
        Ok(found)
    }

    /// The same for a caller that needs the samples of the group of this number alone, counted from 0 over the groups that have
    /// samples: of records with ids the places of its own are kept too. Where there is no such group, it is as `read_counted`.
    ///
    /// # Errors
    /// As `read`.
    pub fn read_for<P: Span>(
        alloc: Global,
        span: &mut P,
        group: u64,
    ) -> Result<PagedMeasurement, Halt<ReadFault>>
        ensures reads { Reads P.Span span.old span.new true read_refusal result (λ file. found_for group file) }
        ensures inside { IfOk result (λ m. AllByRecursion (IsFoundInside (P.size span.old)) m.found) }
    {
        let all = whole_for_in(alloc, span, group)?;
        let found = PagedMeasurement::numbered(alloc, all)?;
        Ok(found)
    }

    /// What is found of a file, with the numbers of its groups.
    fn numbered(alloc: Global, all: WholeFound) -> Result<PagedMeasurement, Memory>
        ensures { IfOk result (λ m. m ≡ all) }
    {
        let index = numbers_of(alloc, all.tree.rows.as_slice(), all.found.as_slice())?;
        if index.len() > u32::MAX as usize {
            return Err(Memory);
        }
        Ok(PagedMeasurement { all, index })
    }

    /// The data groups as they were read, in the order of the links.
    pub fn rows(&self) -> &Rows<DataRow>
        ensures { result.now ≡ self.now.tree.rows }
    {
        &self.all.tree.rows
    }

    /// What the first 64 bytes say.
    pub fn ident(&self) -> Ident
        ensures { result ≡ self.now.ident }
    {
        self.all.ident
    }

    /// How many links that name something were passed over.
    pub fn dropped(&self) -> u64
        ensures dropped { result ≡ self.now.tree.dropped }
        ensures measured { (f : List ℕ) → result ≡ (measured_from f self.now).dropped }
    {
        self.all.tree.dropped
    }

    /// Whether the file is as the standard has a finalized one.
    pub fn strict(&self) -> bool
        ensures strict { result ≡ is_strict self.now }
        ensures measured { (f : List ℕ) → result ≡ (measured_from f self.now).strict }
    {
        are_strict(self.all.ident, self.all.found.as_slice())
    }

    /// How many groups have samples.
    pub fn groups(&self) -> u32
        ensures groups { result ≡ length (groups_of self.now) }
        ensures rows { result ≡ length (group_rows self.now) }
        ensures measured { (f : List ℕ) → whole_found f ≡ Ok self.now → result ≡ length (measured_from f self.now).groups }
    {
        self.index.len() as u32
    }

    /// A group, with its data group.
    fn place(&self, group: u32) -> (&DataFound, &Found)
        requires { group < length (groups_of self.now) }
        ensures place { slice_get (groups_of self.now) group ≡ Some (located result.0.now result.1.now) }
        ensures inside { (size : ℕ) → AllByRecursion (IsFoundInside size) self.now.found
            → ArePartsInside size result.0.now.view × IsGroupInside size result.0.now.view result.0.now.lists result.1.now }
    {
        let number = item(self.index.as_slice(), group as usize);
        let parent = item(self.all.found.as_slice(), number.parent);
        let found = item(parent.groups.as_slice(), number.group);
        (parent, found)
    }

    /// A group as it was read.
    pub fn row(&self, group: u32) -> &GroupRow
        requires { group < length (groups_of self.now) }
        ensures row { slice_get (group_rows self.now) group ≡ Some result.now }
        ensures measured { (f : List ℕ) (d : Measure) → whole_found f ≡ Ok self.now → result.now ≡ (slice_index_or (measured_from f self.now).groups group d).part.row }
    {
        let number = item(self.index.as_slice(), group as usize);
        let (_, found) = self.place(group);
        let data_row = item(self.all.tree.rows.as_slice(), number.parent);
        item(data_row.groups.as_slice(), found.which as usize)
    }

    /// How many samples a group has.
    pub fn samples(&self, group: u32) -> u64
        requires { group < length (groups_of self.now) }
        ensures count { (d : Located) → result ≡ (slice_index_or (groups_of self.now) group d).group.count }
        ensures measured { (f : List ℕ) (d : Measure) → whole_found f ≡ Ok self.now → result ≡ (slice_index_or (measured_from f self.now).groups group d).count }
    {
        let (_, found) = self.place(group);
        found.count
    }

    /// Sample `i` of a group, counted from 0, read out of a span of the same bytes: an entry for each of its channels. A
    /// virtual channel's value is `i`. One record is read, and the values that its offsets name. Nothing is said of a sample of a
    /// group whose places were counted alone.
    ///
    /// # Errors
    /// The span's own; and want of memory, as which it counts too where an offset meets no value, in a span of other bytes.
    pub fn sample_in<P: Span>(
        &self,
        alloc: Global,
        span: &mut P,
        group: u32,
        i: u64,
    ) -> Result<Entries, Stop>
        requires inside { AllByRecursion (IsFoundInside (P.size span.old)) self.now.found }
        requires group { group < length (groups_of self.now) }
        requires index { (d : Located) → i < (slice_index_or (groups_of self.now) group d).group.count }
        ensures sample { (f : List ℕ) (d : Measure) → P.bytes span.old ≡ Some f → whole_found f ≡ Ok self.now
            → IfOk result (λ entries. sample_of (slice_index_or (measured_from f self.now).groups group d) i ≡ Some entries) }
        ensures asked { (f : List ℕ) (m : Measured) (d : Measure) → P.bytes span.old ≡ Some f → found_for group f ≡ Ok self.now
            → measurement f ≡ Ok m → IfOk result (λ entries. sample_of (slice_index_or m.groups group d) i ≡ Some entries) }
        ensures same { P.bytes span.new ≡ P.bytes span.old }
        ensures size { P.size span.new ≡ P.size span.old }
        ensures cause { StopCause true (P.faults span.old) (P.faults span.new) result }
    {
        let mut scratch = Vec::new(alloc);
        self.sample_with(alloc, span, group, i, &mut scratch)
    }

    /// As `sample_in`, where the record is read into the scratch, whose old content goes. Samples that are read with one scratch
    /// share its memory.
    ///
    /// # Errors
    /// As `sample_in`.
    pub fn sample_with<P: Span>(
        &self,
        alloc: Global,
        span: &mut P,
        group: u32,
        i: u64,
        scratch: &mut Vec<u8>,
    ) -> Result<Entries, Stop>
        requires inside { AllByRecursion (IsFoundInside (P.size span.old)) self.now.found }
        requires group { group < length (groups_of self.now) }
        requires index { (d : Located) → i < (slice_index_or (groups_of self.now) group d).group.count }
        ensures sample { (f : List ℕ) (d : Measure) → P.bytes span.old ≡ Some f → whole_found f ≡ Ok self.now
            → IfOk result (λ entries. sample_of (slice_index_or (measured_from f self.now).groups group d) i ≡ Some entries) }
        ensures asked { (f : List ℕ) (m : Measured) (d : Measure) → P.bytes span.old ≡ Some f → found_for group f ≡ Ok self.now
            → measurement f ≡ Ok m → IfOk result (λ entries. sample_of (slice_index_or m.groups group d) i ≡ Some entries) }
        ensures same { P.bytes span.new ≡ P.bytes span.old }
        ensures size { P.size span.new ≡ P.size span.old }
        ensures cause { StopCause true (P.faults span.old) (P.faults span.new) result }
    {
        let (parent, found) = self.place(group);
        sample_of(alloc, span, parent, found, i, scratch)
    }
}
