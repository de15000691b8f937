// What the sources do.
ghost use Rattle.std.specs.Prelude.{◌≡◌, ◌≤◌, ◌<◌, length, IfOk, IfSome, IsSome, OnErr, OnOk};
ghost use Rattle.mdf_layout.specs.Record.{SampleFits};
ghost use Rattle.script_line.specs.Text.{words_left};
ghost use Rattle.acq_script.specs.Done.{done_as};
ghost use Rattle.acq_script.specs.Stage.{IsScript, sample_of, list_with, with_task, with_sample, with_flush};

use crate::script::{Script, Task};
use mdf_layout::{Sample, Shapes};
use mdf_num::{Memory, Rows};
use script_line::{Width, entries_of};
use std::alloc::Global;
use std::mem::replace;

/// The sample of a group of these values, if they are admitted: one for each channel of the group, which it can hold. A channel of the
/// group that has a width takes floats, as `entries_of` says. There are at most 64 groups.
///
/// # Errors
/// `Memory`, and only for a group that there is.
pub fn sample_of(
    alloc: Global,
    shapes: &Shapes,
    widths: &[Option<Width>],
    group: u64,
    values: Option<&[u8]>,
) -> Result<Option<Sample>, Memory>
    requires { length shapes.now ≤ 64 }
    ensures found { IfOk result (λ found. found ≡ sample_of shapes.now widths.now group (words_left values.entry)) }
    ensures fits { IfOk result (λ found. IfSome found (SampleFits shapes.now)) }
    ensures wanted { OnErr result (group < length shapes.now) }
{
    let Some(shape) = shapes.get(group) else {
        return Ok(None);
    };
    match entries_of(alloc, widths, shape.fields().as_slice(), values)? {
        Some(values) => Ok(Some(Sample {
            group: group as u16,
            values,
        })),
        None => Ok(None),
    }
}

/// Adds a task to the list of this source.
fn add_to_list(
    alloc: Global,
    lists: &mut Rows<Rows<Task>>,
    source: usize,
    task: Task,
) -> Result<(), Memory>
    requires { source < length lists.old }
    ensures { OnOk result (lists.new ≡ list_with lists.old source task) }
{
    let mut items = replace(lists, Rows::empty(alloc)).into_vec();
    items[source].push(task)?;
    *lists = Rows::from_vec(items);
    Ok(())
}

/// Adds a task of this source to the script.
fn add_task(alloc: Global, script: &mut Script, source: usize, task: Task) -> Result<(), Memory>
    requires { source < length script.old.lists }
    ensures { OnOk result (script.new ≡ with_task script.old source task) }
{
    add_to_list(alloc, &mut script.lists, source, task)
}

/// Adds the sample of these values to the script, and answers whether it is admitted: its records are no longer than a
/// block.
pub(crate) fn add_sample(
    alloc: Global,
    script: &mut Script,
    group: u64,
    values: Option<&[u8]>,
) -> Result<bool, Memory>
    requires { IsScript script.old }
    ensures found { IfOk result (λ done. with_sample script.old group (words_left values.entry) ≡ done_as done script.new) }
    ensures wanted { OnErr result (group < length script.old.plan.shapes) }
{
    let Some(sample) = sample_of(alloc, &script.plan.shapes, &[], group, values)? else {
        return Ok(false);
    };
    if script.plan.shapes.encoded_size(&sample) > script.plan.block as u64 {
        return Ok(false);
    }
    let source = script.plan.owners.as_slice()[sample.group as usize];
    add_task(alloc, script, source as usize, Task::Sample(sample))?;
    Ok(true)
}

/// Adds a flush of this source to the script, and answers whether there is such a source.
pub(crate) fn add_flush(alloc: Global, script: &mut Script, source: u64) -> Result<bool, Memory>
    requires { IsScript script.old }
    ensures found { IfOk result (λ done. with_flush script.old source ≡ done_as done script.new) }
    ensures wanted { OnErr result (IsSome (with_flush script.old source)) }
{
    if source >= script.plan.sources as u64 {
        return Ok(false);
    }
    add_task(alloc, script, source as usize, Task::Flush)?;
    Ok(true)
}
