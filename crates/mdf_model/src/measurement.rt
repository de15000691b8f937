ghost use Rattle.std.specs.Prelude.{◌≡◌, ◌^◌, ◌<◌, ◌∷◌, [], Some, length, map, reverse, slice_index_or, Ok, IfOk, IfErr, IfNone};
ghost use Rattle.std.specs.List.{AllByRecursion};
ghost use Rattle.mdf_block.specs.Refusal.{GivesOf};
ghost use Rattle.mdf_head.specs.declared.identity.Ident.{Ident};
ghost use Rattle.mdf_layout.specs.Layout.{record_size};
ghost use Rattle.mdf_content.specs.Contents.{AllHaveSamples};
ghost use Rattle.mdf_content.specs.Fault.{read_refusal};
ghost use Rattle.mdf_content.specs.Found.{IsFoundInside, data_fetched};
ghost use Rattle.mdf_content.specs.Samples.{AreSamples, record_at};
ghost use Rattle.mdf_model.specs.declared.part.Measure.{Measure};
ghost use Rattle.mdf_model.specs.Found.{whole, whole_found};
ghost use Rattle.mdf_model.specs.Measurement.{HasSamples, measured, measurement, sample_of, with_records};
ghost use Rattle.mdf_model.specs.Tree.{finalized};

use crate::part::{GroupPart, Measure, measures_of};
use crate::strict::are_strict;
use crate::whole::{Whole, WholeFound, add_fetched_in, whole_found_in, whole_in};
use mdf_content::{DataContents, DataFound, ReadFault, Room, fetch_from};
use mdf_head::{Head, History};
use mdf_layout::{DecodeFault, Entries, Shape};
use mdf_num::{Bytes, Halt, Memory, Rows, SliceSpan};
use mdf_vlsd::Streams;
use std::alloc::Global;
use std::marker::Model;
use std::mem::replace;

/// The measurement of a finalized file. Contracts see it as its parts.
#[derive(Drop)]
pub struct Measurement {
    head: Head,
    history: Rows<History>,
    groups: Vec<Measure>,
    dropped: u64,
    strict: bool,
}

impl Model for Measurement {
    ghost use Rattle.std.specs.Prelude.{length, ◌<◌, ◌^◌};
    ghost use Rattle.std.specs.List.{AllByRecursion};
    ghost use Rattle.mdf_model.specs.Measurement.{HasSamples, Measured};
    ghost use Rattle.std.specs.Coded.{codes};
    ghost use Rattle.mdf_conv.specs.contracts.row.Ref as refs;

    ghost Value = { Measured };

    ghost coded = { Prim.hlevel (codes, refs.the_row.coded) };

    ghost view = { λ m. record { head = m.head; history = m.history; groups = m.groups.items; dropped = m.dropped; strict = m.strict } };

    ghost invariant = { λ m. (length m.groups.items < 2 ^ 32) × AllByRecursion HasSamples m.groups.items };
}

/// The measurement of what is read of a file. 2^32 groups and more count as want of memory.
fn measured_of(alloc: Global, all: Whole) -> Result<Measurement, Memory>
    requires samples { AllByRecursion AllHaveSamples all.contents }
    ensures { IfOk result (λ m. m ≡ measured all) }
{
    let strict = are_strict(all.ident, all.contents.as_slice());
    let Whole { tree, contents, .. } = all;
    let groups = measures_of(alloc, tree.rows, contents)?;
    if groups.len() > u32::MAX as usize {
        return Err(Memory);
    }
    Ok(Measurement {
        head: tree.head,
        history: tree.history,
        groups,
        dropped: tree.dropped,
        strict,
    })
}

/// How many bytes these are.
fn length_of(bytes: &[u8]) -> usize
    ensures { result ≡ length bytes.now }
{
    bytes.len()
}

/// The bytes of record `i` of a group.
fn record_of(measure: &Measure, i: u64) -> &[u8]
    requires samples { HasSamples measure.now }
    requires index { i < measure.now.count }
    ensures bytes { result.now ≡ record_at measure.now.shape measure.now.part.content i }
    ensures long { length result.now ≡ record_size measure.now.shape }
{
    let size = measure.shape.record_size() as usize;
    let content = measure.part.content.as_slice();
    let _long = length_of(content);
    let start = i as usize * size;
    &content[start..start + size]
}

/// The sample of record `i` of a group.
fn sample_of(alloc: Global, measure: &Measure, i: u64) -> Result<Entries, Memory>
    requires samples { HasSamples measure.now }
    requires index { i < measure.now.count }
    ensures { IfOk result (λ entries. sample_of measure.now i ≡ Some entries) }
{
    let record = record_of(measure, i);
    match measure
        .shape
        .decode(alloc, record, &measure.part.streams, i)
    {
        Ok(entries) => Ok(entries),
        Err(DecodeFault::Offset { .. }) => unreachable!(),
        Err(DecodeFault::Memory) => Err(Memory),
    }
}

impl Measurement {
    /// How many groups have samples.
    pub fn groups(&self) -> u32
        ensures { result ≡ length self.now.groups }
    {
        self.groups.len() as u32
    }

    /// How many samples a group has.
    pub fn samples(&self, group: u32) -> u64
        requires { group < length self.now.groups }
        ensures { (d : Measure) → result ≡ (slice_index_or self.now.groups group d).count }
    {
        self.groups[group as usize].count
    }

    /// How many links that name something were passed over.
    pub fn dropped(&self) -> u64
        ensures { result ≡ self.now.dropped }
    {
        self.dropped
    }

    /// Whether the file is as the standard has a finalized one.
    pub fn strict(&self) -> bool
        ensures { result ≡ self.now.strict }
    {
        self.strict
    }

    /// The header.
    pub fn head(&self) -> &Head
        ensures { result.now ≡ self.now.head }
    {
        &self.head
    }

    /// The file history.
    pub fn history(&self) -> &Rows<History>
        ensures { result.now ≡ self.now.history }
    {
        &self.history
    }

    /// A group with its records.
    pub fn part(&self, group: u32) -> &GroupPart
        requires { group < length self.now.groups }
        ensures { (d : Measure) → result.now ≡ (slice_index_or self.now.groups group d).part }
    {
        &self.groups[group as usize].part
    }

    /// The layout of the records of a group.
    pub fn shape(&self, group: u32) -> &Shape
        requires { group < length self.now.groups }
        ensures { (d : Measure) → result.now ≡ (slice_index_or self.now.groups group d).shape }
    {
        &self.groups[group as usize].shape
    }

    /// Sample `i` of a group, counted from 0: an entry for each of its channels. A virtual channel's value is `i`.
    ///
    /// # Errors
    /// Want of memory.
    pub fn sample(&self, alloc: Global, group: u32, i: u64) -> Result<Entries, Memory>
        requires group { group < length self.now.groups }
        requires index { (d : Measure) → i < (slice_index_or self.now.groups group d).count }
        ensures { (d : Measure) → IfOk result (λ entries. sample_of (slice_index_or self.now.groups group d) i ≡ Some entries) }
    {
        sample_of(alloc, &self.groups[group as usize], i)
    }

    /// Takes the bytes of its records out of a group, which has no records then. Its streams stay, and so does all else. It
    /// takes no memory.
    pub fn take_content(&mut self, alloc: Global, group: u32) -> Bytes
        requires { group < length self.old.groups }
        ensures content { (d : Measure) → result ≡ (slice_index_or self.old.groups group d).part.content }
        ensures left { (d : Measure) → self.new ≡ with_records self.old group 0 [] (slice_index_or self.old.groups group d).part.streams d }
    {
        let measure = &mut self.groups[group as usize];
        measure.count = 0;
        replace(&mut measure.part.content, Bytes::empty(alloc))
    }

    /// Gives a group other records: how many, and their data bytes and invalidation bytes, one record behind the other. Its
    /// streams stay, and so does all else. It takes no memory.
    pub fn put_content(&mut self, group: u32, count: u64, content: Bytes)
        requires group { group < length self.old.groups }
        requires samples { (d : Measure) → AreSamples (slice_index_or self.old.groups group d).shape count content (slice_index_or self.old.groups group d).part.streams }
        ensures { (d : Measure) → self.new ≡ with_records self.old group count content (slice_index_or self.old.groups group d).part.streams d }
    {
        let measure = &mut self.groups[group as usize];
        measure.part.content = content;
        measure.count = count;
    }

    /// Gives a group other records: how many, their data bytes and invalidation bytes, one record behind the other, and
    /// the streams of its channels of variable length, in order. Its row stays, and so does its cycle count, and all else.
    /// It takes no memory.
    pub fn replace(&mut self, group: u32, count: u64, content: Bytes, streams: Streams)
        requires group { group < length self.old.groups }
        requires samples { (d : Measure) → AreSamples (slice_index_or self.old.groups group d).shape count content streams }
        ensures { (d : Measure) → self.new ≡ with_records self.old group count content streams d }
    {
        let measure = &mut self.groups[group as usize];
        measure.part.content = content;
        measure.part.streams = streams;
        measure.count = count;
    }
}

/// All that is read of a finalized file in memory.
fn whole_of(alloc: Global, bytes: &[u8]) -> Result<Whole, ReadFault>
    ensures exact { GivesOf read_refusal result (whole bytes.now) }
    ensures first { IfErr result (λ fault. IfNone (read_refusal fault) ((id : Ident) × (finalized bytes.now ≡ Ok id))) }
    ensures samples { IfOk result (λ all. AllByRecursion AllHaveSamples all.contents) }
{
    match whole_in(alloc, &mut SliceSpan::new(bytes)) {
        Ok(all) => Ok(all),
        Err(Halt::Fault(fault)) => Err(fault),
        Err(Halt::Failed) => unreachable!(),
        Err(Halt::Memory) => Err(ReadFault::Memory),
    }
}

/// Where all that is read of a finalized file in memory stands.
fn whole_found_of(alloc: Global, bytes: &[u8]) -> Result<WholeFound, ReadFault>
    ensures exact { GivesOf read_refusal result (whole_found bytes.now) }
    ensures first { IfErr result (λ fault. IfNone (read_refusal fault) ((id : Ident) × (finalized bytes.now ≡ Ok id))) }
    ensures inside { IfOk result (λ all. AllByRecursion (IsFoundInside (length bytes.now)) all.found) }
{
    match whole_found_in(alloc, &mut SliceSpan::new(bytes)) {
        Ok(all) => Ok(all),
        Err(Halt::Fault(fault)) => Err(fault),
        Err(Halt::Failed) => unreachable!(),
        Err(Halt::Memory) => Err(ReadFault::Memory),
    }
}

/// What is found of data groups of a file, with the bytes there. They stand with the last first.
fn contents_of(
    alloc: Global,
    file: &Bytes,
    found: Vec<DataFound>,
    room: &mut Room,
) -> Result<Rows<DataContents>, Memory>
    requires inside { AllByRecursion (IsFoundInside (length file.now)) found.items }
    ensures { IfOk result (λ all. all ≡ map (data_fetched file.now) (reverse found.items)) }
{
    let mut span = SliceSpan::new(file.as_slice());
    let mut all = Rows::empty(alloc);
    match add_fetched_in(alloc, &mut span, found, &mut all, room) {
        Ok(()) => Ok(all),
        Err(_) => Err(Memory),
    }
}

/// A list with one item more in front.
fn joined(first: DataContents, rest: Rows<DataContents>) -> Result<Rows<DataContents>, Memory>
    ensures { IfOk result (λ all. all ≡ first ∷ rest) }
{
    let mut all = rest.into_vec();
    all.insert(0, first)?;
    Ok(Rows::from_vec(all))
}

/// What is found of data groups of a file that is handed over, with the bytes there. The first takes the file.
fn contents_from(
    alloc: Global,
    file: Bytes,
    found: Rows<DataFound>,
) -> Result<Rows<DataContents>, Memory>
    requires inside { AllByRecursion (IsFoundInside (length file)) found }
    ensures { IfOk result (λ all. all ≡ map (data_fetched file) found) }
{
    let mut room = Room::of_file(&SliceSpan::new(file.as_slice()));
    let mut found = found.into_vec();
    found.reverse();
    let Some(first) = found.pop() else {
        return Ok(Rows::empty(alloc));
    };
    let others = contents_of(alloc, &file, found, &mut room)?;
    let first = fetch_from(alloc, file, first, &mut room)?;
    joined(first, others)
}

/// All that is read of a finalized file, which is handed over.
fn whole_from(alloc: Global, file: Bytes) -> Result<Whole, ReadFault>
    ensures exact { GivesOf read_refusal result (whole file) }
    ensures first { IfErr result (λ fault. IfNone (read_refusal fault) ((id : Ident) × (finalized file ≡ Ok id))) }
    ensures samples { IfOk result (λ all. AllByRecursion AllHaveSamples all.contents) }
{
    let WholeFound { ident, tree, found } = whole_found_of(alloc, file.as_slice())?;
    match contents_from(alloc, file, found) {
        Ok(contents) => Ok(Whole {
            ident,
            tree,
            contents,
        }),
        Err(Memory) => Err(ReadFault::Memory),
    }
}

/// The measurement of a finalized file.
///
/// # Errors
/// The first fault in this order: of the identification (`NotMdf`, `Version`, `Unfinalized`); of the header, its comment and
/// the file history; of the data groups along their links; and then of each data group in order its id size, its layouts,
/// its data blocks, its records, its cycle counts, and of each channel of variable length its data blocks and its offsets.
/// `Memory` may come at any place; it comes where records and values that several groups and channels name would take more
/// than twice as many bytes as the file has.
#[tactic(auto, unfolding(crate::specs::Measurement::measurement))]
pub fn read_measurement(alloc: Global, bytes: &[u8]) -> Result<Measurement, ReadFault>
    ensures exact { GivesOf read_refusal result (measurement bytes.now) }
    ensures first { IfErr result (λ fault. IfNone (read_refusal fault) ((id : Ident) × (finalized bytes.now ≡ Ok id))) }
{
    let all = whole_of(alloc, bytes)?;
    match measured_of(alloc, all) {
        Ok(measurement) => Ok(measurement),
        Err(Memory) => Err(ReadFault::Memory),
    }
}

/// The measurement of a finalized file, as `read_measurement`. The file is handed over: the records of its first data group (DGBLOCK),
/// where they have no record ids and its data blocks stand in their order, stay in the memory of the file, and no memory is taken for
/// them; else the file is given back to the allocator.
///
/// # Errors
/// As `read_measurement`.
#[tactic(auto, unfolding(crate::specs::Measurement::measurement))]
pub fn take_measurement(alloc: Global, file: Bytes) -> Result<Measurement, ReadFault>
    ensures exact { GivesOf read_refusal result (measurement file) }
    ensures first { IfErr result (λ fault. IfNone (read_refusal fault) ((id : Ident) × (finalized file ≡ Ok id))) }
{
    let all = whole_from(alloc, file)?;
    match measured_of(alloc, all) {
        Ok(measurement) => Ok(measurement),
        Err(Memory) => Err(ReadFault::Memory),
    }
}
