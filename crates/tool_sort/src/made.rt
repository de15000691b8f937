ghost use Rattle.std.specs.Prelude.{ℕ, ◌≡◌, ◌^◌, ◌≤◌, List, IfOk, OnErr};
ghost use Rattle.tool_sort.specs.Kept.{StandsIn, IsSortedOf};
ghost use Rattle.tool_sort.specs.Made.{sample_count, report_for, IsMadeOf};
ghost use Rattle.tool_sort.specs.Sorted.{IsTitle};

use crate::sorted::spell_sorted;
use mdf_model::Measurement;
use mdf_num::Memory;
use mdf_tool::{Made, Report};
use std::alloc::Global;

/// How many samples the groups of a measurement have in all. A sum past the last u64 counts as want of memory.
fn sample_count(measurement: &Measurement) -> Result<u64, Memory>
    ensures count { IfOk result (λ count. count ≡ sample_count measurement.now.groups) }
    ensures past { OnErr result (2 ^ 64 ≤ sample_count measurement.now.groups) }
{
    let groups = measurement.groups();
    let mut count = 0u64;
    for i in 0..groups {
        let Some(sum) = count.checked_add(measurement.samples(i)) else {
            return Err(Memory);
        };
        count = sum;
    }
    Ok(count)
}

/// What is told of the sorted file of a measurement.
///
/// # Errors
/// `Memory` where there are more samples than a u64 counts.
pub fn report_of(measurement: &Measurement) -> Result<Report, Memory>
    ensures report { IfOk result (λ report. report ≡ report_for measurement.now) }
    ensures past { OnErr result (2 ^ 64 ≤ sample_count measurement.now.groups) }
{
    let samples = sample_count(measurement)?;
    Ok(Report {
        groups: measurement.groups(),
        samples,
        dropped: measurement.dropped(),
    })
}

/// The sorted file of a measurement, as `spell_sorted`, with what is told of it.
///
/// # Errors
/// `Memory` where memory runs out, where there are more than 2^30 blocks, or where there are more samples than a u64 counts.
pub fn make_sorted(
    alloc: Global,
    measurement: Measurement,
    title: &str,
    now_ns: u64,
) -> Result<Made, Memory>
    requires { IsTitle title.now }
    ensures made { IfOk result (IsMadeOf measurement title.now now_ns) }
    ensures keeps { (file : List ℕ) → StandsIn file measurement → IfOk result (λ made. IsSortedOf measurement title.now now_ns made.bytes) }
{
    let report = report_of(&measurement)?;
    let bytes = spell_sorted(alloc, measurement, title, now_ns)?;
    Ok(Made { bytes, report })
}
