ghost use Rattle.std.specs.Prelude.{◌≡◌, ◌≤◌, ◌<◌, ◌++◌, ◌∷◌, [], IfOk, OnOk};
ghost use Rattle.acq_script.specs.Plan.{IsPlan};
ghost use Rattle.acq_script.specs.Stage.{IsScript};
ghost use Rattle.acq_script.specs.Generated.{bytes_of, count_of, generated_plan, generated_lists, generated_script, number_of, sample_of, tasks_at, tasks_of, valid};

use crate::{Plan, Script, ScriptFault, Task, read_script};
use mdf_layout::{Entry, Sample, Value};
use mdf_num::{Bytes, Memory, Rows};
use std::alloc::Global;

/// The lines of the plan.
const PLAN: &[u8] =
    b"group 0 g0\nchannel t u64 master\nchannel v u32\ngroup 1 g1\nchannel t u64 master\nchannel v u32\ngroup 2 g2\nchannel t u64 master\nchannel v u32\ngroup 3 g3\nchannel t u64 master\nchannel v u32\nchannel n var\nbegin\nend\n";

/// How many sources there are, and groups: each source has one.
const SOURCES: u64 = 4;

/// Behind each so many of its samples a source flushes.
const BETWEEN_FLUSHES: u64 = 1000;

/// The plan.
fn plan(alloc: Global) -> Result<Plan, Memory>
    ensures plan { IfOk result (λ plan. plan ≡ generated_plan) }
    ensures sound { IfOk result IsPlan }
{
    match read_script(alloc, PLAN) {
        Ok(script) => Ok(script.plan),
        Err(ScriptFault::Line { .. }) => unreachable!(),
        Err(ScriptFault::Memory) => Err(Memory),
    }
}

/// The number of a sample.
fn number_of(sample: u64) -> u64
    requires { sample < 1000000 }
    ensures { result ≡ number_of sample }
{
    (1_664_525 * sample + 1_013_904_223) % 4_294_967_296
}

/// The bytes of a sample: up to four equal ones.
fn bytes_of(alloc: Global, sample: u64) -> Result<Bytes, Memory>
    ensures { IfOk result (λ bytes. bytes ≡ bytes_of sample) }
{
    let byte = (sample % 256) as u8;
    let four = [byte; 4];
    Bytes::from_slice(alloc, &four[..(sample % 5) as usize])
}

/// A valid entry.
fn valid(value: Value) -> Entry
    ensures { result ≡ valid value }
{
    Entry { value, valid: true }
}

/// The sample of this number.
fn sample_of(alloc: Global, sample: u64) -> Result<Sample, Memory>
    requires { sample < 1000000 }
    ensures { IfOk result (λ made. made ≡ sample_of sample) }
{
    let group = sample % SOURCES;
    let has_bytes = group == 3;
    let mut values = Vec::with_capacity(alloc, if has_bytes { 3 } else { 2 })?;
    values.push_reserved(valid(Value::Unsigned(sample)));
    values.push_reserved(valid(Value::Unsigned(number_of(sample))));
    if has_bytes {
        values.push_reserved(valid(Value::Bytes(bytes_of(alloc, sample)?)));
    }
    Ok(Sample {
        group: group as u16,
        values: Rows::from_vec(values),
    })
}

/// Adds what a source does with its sample of this number, counted from 0, to its list.
fn add_tasks(alloc: Global, tasks: &mut Rows<Task>, source: u64, number: u64) -> Result<(), Memory>
    requires source { source < 4 }
    requires number { number < 250000 }
    ensures { OnOk result (tasks.new ≡ tasks.old ++ tasks_at source number) }
{
    let sample = sample_of(alloc, SOURCES * number + source)?;
    tasks.push(Task::Sample(sample))?;
    if (number + 1) % BETWEEN_FLUSHES == 0 {
        tasks.push(Task::Flush)?;
    }
    Ok(())
}

/// What a source does with its first samples, so many.
fn tasks_of(alloc: Global, source: u64, count: u64) -> Result<Rows<Task>, Memory>
    requires source { source < 4 }
    requires count { count ≤ 250000 }
    ensures { IfOk result (λ tasks. tasks ≡ tasks_of source count) }
{
    let mut tasks = Rows::empty(alloc);
    for number in 0..count {
        add_tasks(alloc, &mut tasks, source, number)?;
    }
    Ok(tasks)
}

/// Adds the list of this source, of so many samples in all.
fn add_list(
    alloc: Global,
    lists: &mut Rows<Rows<Task>>,
    source: u64,
    samples: u64,
) -> Result<(), Memory>
    requires source { source < 4 }
    requires samples { samples ≤ 1000000 }
    ensures { OnOk result (lists.new ≡ lists.old ++ tasks_of source (count_of samples source) ∷ []) }
{
    let tasks = tasks_of(alloc, source, (samples + 3 - source) / SOURCES)?;
    lists.push(tasks)
}

/// What each source does, of so many samples in all.
fn lists(alloc: Global, samples: u64) -> Result<Rows<Rows<Task>>, Memory>
    requires { samples ≤ 1000000 }
    ensures { IfOk result (λ lists. lists ≡ generated_lists samples) }
{
    let mut lists = Rows::empty(alloc);
    for source in 0..SOURCES {
        add_list(alloc, &mut lists, source, samples)?;
    }
    Ok(lists)
}

/// The generated script of so many samples, at most 1,000,000.
///
/// Sample i is of group i mod 4, which is that of source i mod 4. Its time is i, and its number follows from i by a linear
/// congruential generator modulo 2^32; a sample of group 3 has i mod 5 bytes besides, each i mod 256. A source flushes behind
/// each thousandth of its samples.
///
/// # Errors
/// `Memory` where memory runs out.
pub fn generated(alloc: Global, samples: u64) -> Result<Script, Memory>
    requires { samples ≤ 1000000 }
    ensures exact { IfOk result (λ script. script ≡ generated_script samples) }
    ensures sound { IfOk result IsScript }
{
    let plan = plan(alloc)?;
    let lists = lists(alloc, samples)?;
    Ok(Script { plan, lists })
}
