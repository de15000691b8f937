// Where the next values of variable length go, and samples written with theirs.
ghost use Rattle.std.specs.Prelude.{◌≡◌, ◌+◌, ◌^◌, ◌<◌, ◌≤◌, List, [], ◌∷◌, ◌++◌, length, take, true, false, All, slice_get, slice_set, Some, IfOk};
ghost use Rattle.std.specs.List.{slice_index_or};
ghost use Rattle.mdf_layout.specs.Values.{bytes_in};
ghost use Rattle.mdf_layout.specs.Rule.{is_variable};
ghost use Rattle.mdf_layout.specs.Layout.{Layout, record_size};
ghost use Rattle.mdf_layout.specs.Written.{AreApart, AreEntriesOf};
ghost use Rattle.mdf_layout.specs.Record.{SampleFits, long_values, long_size, encoded_size, history_size};
ghost use Rattle.mdf_layout.specs.Behind.{variables, first_id, offsets_behind, IsEncodingBehind};
ghost use Rattle.mdf_layout.specs.Stored.{IsStored};
ghost use Rattle.mdf_layout.specs.Next.{Next, next_behind, AreNext, added, value_sizes};
ghost use Rattle.mdf_layout.specs.declared.sample.Sample.{Sample};

use crate::long::{bytes_of, put_long_in_group};
use crate::reading::streams_with;
use crate::rule::{is_variable, row_at};
use crate::{Entries, Entry, FieldRow, Sample, Shape, Shapes};
use mdf_num::Memory;
use std::alloc::Global;
use std::marker::Model;

/// Where the next values of a group go: the record id of its first channel of variable length, and of each such channel,
/// in order, the offset of its next value.
#[derive(Debug, Drop)]
struct NextInGroup {
    id: u8,
    offsets: Vec<u64>,
}

impl Model for NextInGroup {
    ghost use Rattle.mdf_layout.specs.Next.{Next};

    ghost Value = { Next };

    ghost view = { λ next. record { id = next.id; offsets = next.offsets.items } };
}

/// Where the next values of variable length go: of each group the record id of its first channel of variable length,
/// and of each such channel, in order, the offset of its next value.
#[derive(Debug, Drop)]
pub struct NextValues {
    groups: Vec<NextInGroup>,
}

impl Model for NextValues {
    ghost use Rattle.std.specs.Prelude.{List};
    ghost use Rattle.mdf_layout.specs.Next.{Next};

    ghost Value = { List Next };

    ghost view = { λ next. next.groups.items };
}

/// Where the first values of a group with this layout go.
fn first_in_group(alloc: Global, id: u8, shape: &Shape) -> Result<NextInGroup, Memory>
    ensures id { IfOk result (λ next. next.id ≡ id) }
    ensures offsets { IfOk result (λ next. next.offsets ≡ offsets_behind shape.now.rows []) }
{
    let offsets = Vec::from_elem(alloc, 0, shape.variable_count() as usize)?;
    Ok(NextInGroup { id, offsets })
}

/// Writes the records of a sample of a group with this layout, with ids from this one on and with these offsets, and
/// answers their length.
fn encode_in_group(shape: &Shape, sample: &Sample, id: u8, offsets: &[u64], out: &mut [u8]) -> usize
    requires group { sample.now.group < 255 }
    requires apart { AreApart shape.now.rows }
    requires stored { All IsStored shape.now.rows }
    requires fits { AreEntriesOf shape.now.rows sample.now.values }
    requires ids { id + length (variables shape.now.rows) ≤ 255 }
    requires room { 1 + record_size shape.now + long_size shape.now.rows sample.now.values ≤ length out.old }
    ensures size { result ≡ 1 + record_size shape.now + long_size shape.now.rows sample.now.values }
    ensures record { (layouts : List Layout) (before : List Sample) → slice_get layouts sample.now.group ≡ Some shape.now
        → record { id = id; offsets = offsets.now } ≡ next_behind layouts before sample.now.group shape.now
        → IsEncodingBehind layouts before (take result out.new) sample.now }
    ensures length { length out.new ≡ length out.old }
{
    let at = put_long_in_group(shape, &sample.values, id, out);
    let end = at + 1 + shape.record_size() as usize;
    out[at] = sample.group as u8 + 1;
    shape.encode(&sample.values, offsets, &mut out[at + 1..end]);
    end
}

/// Adds to the offset of a channel what a value of it adds: its length, in 4 bytes, and its bytes.
fn pass_value(row: FieldRow, entry: &Entry, offsets: &mut [u64], stream: usize)
    requires there { is_variable row ≡ true → stream < length offsets.old }
    requires small { is_variable row ≡ true → slice_index_or offsets.old stream 0 < 2 ^ 62 }
    ensures passed { is_variable row ≡ true → offsets.new
        ≡ slice_set offsets.old stream (slice_index_or offsets.old stream 0 + (4 + length (bytes_in entry.now.value))) }
    ensures same { is_variable row ≡ false → offsets.new ≡ offsets.old }
{
    if is_variable(row) {
        offsets[stream] += 4 + bytes_of(&entry.value).len() as u64;
    }
}

/// Adds to the offsets of the channels what their values add.
fn pass_values(rows: &[FieldRow], entries: &[Entry], offsets: &mut [u64])
    requires count { length entries.now ≡ length rows.now }
    requires offsets { length offsets.old ≡ length (variables rows.now) }
    requires small { All (λ offset. offset < 2 ^ 62) offsets.old }
    requires few { length rows.now < 2 ^ 32 }
    ensures { offsets.new ≡ added offsets.old (value_sizes (long_values rows.now entries.now)) }
{
    let mut stream = 0;
    for channel in 0..rows.len() {
        let row = row_at(rows, channel);
        pass_value(row, &entries[channel], offsets, stream);
        stream = streams_with(row, stream);
    }
}

/// The same for a sample of a group with this layout. Where no channel is of variable length, none is looked at.
fn pass_in_group(shape: &Shape, values: &Entries, offsets: &mut [u64])
    requires count { length values.now ≡ length shape.now.rows }
    requires offsets { length offsets.old ≡ length (variables shape.now.rows) }
    requires small { All (λ offset. offset < 2 ^ 62) offsets.old }
    ensures { offsets.new ≡ added offsets.old (value_sizes (long_values shape.now.rows values.now)) }
{
    if shape.variable_count() == 0 {
        return;
    }
    pass_values(shape.fields().as_slice(), values.as_slice(), offsets);
}

impl NextValues {
    /// Where the first values go: offsets are 0, and the ids of values come behind those of the groups, in the order of
    /// groups and channels.
    ///
    /// # Errors
    /// Want of memory.
    pub fn first(alloc: Global, shapes: &Shapes) -> Result<NextValues, Memory>
        requires ids { first_id shapes.now (length shapes.now) ≤ 255 }
        ensures { IfOk result (λ next. AreNext shapes.now [] next) }
    {
        let mut groups = Vec::new(alloc);
        let mut id = shapes.len() as usize + 1;
        for group in 0..shapes.len() {
            let next = first_in_group(alloc, id as u8, shapes.at(group))?;
            id += next.offsets.len();
            groups.push(next)?;
        }
        Ok(NextValues { groups })
    }

    /// Writes the records of a sample, those of its values of variable length and then that of its group, and answers
    /// their length. They are its records behind each history behind which these values come next. It takes no memory.
    pub fn encode(&self, shapes: &Shapes, sample: &Sample, out: &mut [u8]) -> usize
        requires fits { SampleFits shapes.now sample.now }
        requires ids { first_id shapes.now (length shapes.now) ≤ 255 }
        requires apart { All (λ layout. AreApart layout.rows) shapes.now }
        requires stored { All (λ layout. All IsStored layout.rows) shapes.now }
        requires next { (before : List Sample) × AreNext shapes.now before self.now }
        requires room { encoded_size shapes.now sample.now ≤ length out.old }
        ensures size { result ≡ encoded_size shapes.now sample.now }
        ensures record { (before : List Sample) → AreNext shapes.now before self.now
            → IsEncodingBehind shapes.now before (take result out.new) sample.now }
        ensures length { length out.new ≡ length out.old }
    {
        let shape = shapes.at(sample.group as u64);
        let next = &self.groups[sample.group as usize];
        encode_in_group(shape, sample, next.id, next.offsets.as_slice(), out)
    }

    /// Goes on behind a sample: where its values come behind a history, the next ones come behind the history and the
    /// sample. It takes no memory.
    pub fn pass(&mut self, shapes: &Shapes, sample: &Sample)
        requires fits { SampleFits shapes.now sample.now }
        requires next { (before : List Sample) × AreNext shapes.now before self.old × (history_size shapes.now before < 2 ^ 62) }
        ensures { (before : List Sample) → AreNext shapes.now before self.old → AreNext shapes.now (before ++ sample.now ∷ []) self.new }
    {
        pass_in_group(
            shapes.at(sample.group as u64),
            &sample.values,
            &mut self.groups[sample.group as usize].offsets,
        );
    }
}
