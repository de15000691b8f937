ghost use Rattle.std.specs.Prelude.{◌≡◌, ◌+◌, ◌^◌, ◌<◌, [], ◌∷◌, ◌++◌, length, slice_get, Some, OnOk, OnErr};
ghost use Rattle.std.specs.Option.{option_copied};
ghost use Rattle.mdf_layout.specs.Record.{SampleFits, value_record_size, long_size, encoded_size, cost_of};
ghost use Rattle.mdf_layout.specs.Written.{AreEntriesOf};

use crate::rule::{is_variable, row_at};
use crate::{Entries, Entry, FieldRow, Sample, Shape, Value};
use mdf_num::{Memory, Rows};
use std::alloc::Global;
use std::marker::Model;

/// The layouts of the groups of a recording, in the order of their numbers.
#[derive(Debug, Drop)]
pub struct Shapes {
    items: Rows<Shape>,
}

impl Model for Shapes {
    ghost use Rattle.std.specs.Prelude.{List};
    ghost use Rattle.mdf_layout.specs.Layout.{Layout};

    ghost Value = { List Layout };

    ghost view = { λ shapes. shapes.items };
}

/// What a sample costs beside its record: about what it takes in memory, in bytes.
const SAMPLE_COST: u64 = 96;

/// What each channel of a sample costs beside its record, in bytes.
const CHANNEL_COST: u64 = 40;

/// How many bytes the record of a channel's value has: none where its values are not of variable length.
fn value_record_size(row: FieldRow, entry: &Entry) -> u64
    ensures { result ≡ value_record_size row entry.now }
{
    if !is_variable(row) {
        return 0;
    }
    match &entry.value {
        Value::Bytes(bytes) => 5 + bytes.as_slice().len() as u64,
        _ => 5,
    }
}

/// How many bytes the records of the values of variable length have in all.
fn long_size(rows: &[FieldRow], entries: &[Entry]) -> u64
    requires fits { AreEntriesOf rows.now entries.now }
    requires few { length rows.now < 2 ^ 31 }
    ensures size { result ≡ long_size rows.now entries.now }
    ensures small { result < 2 ^ 63 + 2 ^ 33 }
{
    let mut size = 0;
    for channel in 0..rows.len() {
        size += value_record_size(row_at(rows, channel), &entries[channel]);
    }
    size
}

/// The same of a sample of a group with this layout. Where no channel is of variable length, none is looked at.
fn long_size_in_group(shape: &Shape, values: &Entries) -> u64
    requires fits { AreEntriesOf shape.now.rows values.now }
    ensures size { result ≡ long_size shape.now.rows values.now }
    ensures small { result < 2 ^ 63 + 2 ^ 33 }
{
    if shape.variable_count() == 0 {
        return 0;
    }
    long_size(shape.fields().as_slice(), values.as_slice())
}

impl Shapes {
    /// The empty list. It takes no memory.
    pub fn empty(alloc: Global) -> Shapes
        ensures { result ≡ [] }
    {
        Shapes {
            items: Rows::empty(alloc),
        }
    }

    pub fn len(&self) -> u64
        ensures { result ≡ length self.now }
    {
        self.items.len()
    }

    /// The layout of group `i`. None exactly at or past the end.
    pub fn get(&self, i: u64) -> Option<&Shape>
        ensures { option_copied result ≡ slice_get self.now i }
    {
        self.items.get(i)
    }

    /// The layout of group `i`.
    pub(crate) fn at(&self, i: u64) -> &Shape
        requires { i < length self.now }
        ensures { slice_get self.now i ≡ Some result.now }
    {
        &self.items.as_slice()[i as usize]
    }

    /// Adds the layout of the next group. After an error the list is as before, and the layout is dropped.
    pub fn push(&mut self, shape: Shape) -> Result<(), Memory>
        ensures ok { OnOk result (self.new ≡ self.old ++ shape ∷ []) }
        ensures err { OnErr result (self.new ≡ self.old) }
    {
        self.items.push(shape)
    }

    /// How many bytes the records of a sample have: that of its group with its id, and those of its values of variable
    /// length.
    pub fn encoded_size(&self, sample: &Sample) -> u64
        requires { SampleFits self.now sample.now }
        ensures { result ≡ encoded_size self.now sample.now }
    {
        match self.get(sample.group as u64) {
            Some(shape) => 1 + shape.record_size() + long_size_in_group(shape, &sample.values),
            None => 0,
        }
    }

    /// What a sample costs, in bytes: about what it takes in memory, and more than it can add to a file.
    pub fn cost_of(&self, sample: &Sample) -> u64
        requires fits { SampleFits self.now sample.now }
        requires room { cost_of self.now sample.now < 2 ^ 64 }
        ensures { result ≡ cost_of self.now sample.now }
    {
        self.cost_with(sample, self.encoded_size(sample))
    }

    /// The same of a sample whose encoded size was measured before.
    pub fn cost_with(&self, sample: &Sample, size: u64) -> u64
        requires size { size ≡ encoded_size self.now sample.now }
        requires room { cost_of self.now sample.now < 2 ^ 64 }
        ensures { result ≡ cost_of self.now sample.now }
    {
        size + SAMPLE_COST + CHANNEL_COST * sample.values.len()
    }
}
