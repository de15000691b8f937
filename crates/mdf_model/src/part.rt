ghost use Rattle.std.specs.Prelude.{◌≡◌, ◌++◌, ◌∷◌, [], filter, IfOk, OnOk};
ghost use Rattle.mdf_model.specs.Measurement.{holds_samples, measure_of, paired, data_measures, measures};

use mdf_block::Note;
use mdf_content::{Contents, DataContents};
use mdf_group::{DataRow, GroupRow};
use mdf_layout::Shape;
use mdf_num::{Bytes, Memory, Rows};
use mdf_vlsd::Streams;
use std::alloc::Global;

/// A channel group of a measurement, with its records.
#[derive(Drop)]
pub struct GroupPart {
    /// The channel group and its channels.
    pub row: GroupRow,
    /// The comment of its data group.
    pub comment: Note,
    /// The data bytes and the invalidation bytes of its records, one record behind the other.
    pub content: Bytes,
    /// The streams of its channels of variable length, in order.
    pub streams: Streams,
}

/// The same with the layout of its records, and with how many they are.
#[derive(Drop)]
pub struct Measure {
    pub(crate) part: GroupPart,
    pub(crate) shape: Shape,
    pub(crate) count: u64,
}

/// Whether the records of the group are samples.
fn holds_samples(row: &GroupRow) -> bool
    ensures { result ≡ holds_samples row.now }
{
    !row.is_variable()
}

/// Adds a group with what it holds.
fn add_measure(
    all: &mut Vec<Measure>,
    comment: &Note,
    row: GroupRow,
    contents: Contents,
) -> Result<(), Memory>
    ensures { OnOk result (all.new.items ≡ all.old.items ++ measure_of comment.now row contents ∷ []) }
{
    let comment = comment.copy()?;
    let Contents {
        shape,
        count,
        content,
        streams,
    } = contents;
    let part = GroupPart {
        row,
        comment,
        content,
        streams,
    };
    all.push(Measure { part, shape, count })?;
    Ok(())
}

/// The groups whose records are samples.
fn sample_groups(groups: Vec<GroupRow>) -> Vec<GroupRow>
    ensures { result.items ≡ filter holds_samples groups.items }
{
    let mut groups = groups;
    groups.retain(|row| holds_samples(row));
    groups
}

/// Adds groups with what they hold.
fn add_paired(
    all: &mut Vec<Measure>,
    comment: &Note,
    rows: Vec<GroupRow>,
    found: Vec<Contents>,
) -> Result<(), Memory>
    ensures { OnOk result (all.new.items ≡ all.old.items ++ paired comment.now rows.items found.items) }
{
    for (row, contents) in rows.into_iter().zip(found) {
        add_measure(all, comment, row, contents)?;
    }
    Ok(())
}

/// Adds the groups of a data group with what they hold.
fn add_data(all: &mut Vec<Measure>, row: DataRow, found: DataContents) -> Result<(), Memory>
    ensures { OnOk result (all.new.items ≡ all.old.items ++ data_measures row found) }
{
    let DataRow {
        comment,
        groups,
        ..
    } = row;
    let DataContents { groups: found, .. } = found;
    let rows = sample_groups(groups.into_vec());
    add_paired(all, &comment, rows, found.into_vec())
}

/// Adds the groups of data groups with what they hold.
fn add_all(
    all: &mut Vec<Measure>,
    rows: Vec<DataRow>,
    found: Vec<DataContents>,
) -> Result<(), Memory>
    ensures { OnOk result (all.new.items ≡ all.old.items ++ measures rows.items found.items) }
{
    for (row, contents) in rows.into_iter().zip(found) {
        add_data(all, row, contents)?;
    }
    Ok(())
}

/// The groups whose records are samples, with what they hold, in the order of the links.
pub(crate) fn measures_of(
    alloc: Global,
    rows: Rows<DataRow>,
    found: Rows<DataContents>,
) -> Result<Vec<Measure>, Memory>
    ensures { IfOk result (λ all. all.items ≡ measures rows found) }
{
    let mut all = Vec::new(alloc);
    add_all(&mut all, rows.into_vec(), found.into_vec())?;
    Ok(all)
}
