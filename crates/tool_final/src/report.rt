ghost use Rattle.std.specs.Prelude.{◌≡◌, ◌≤◌, ◌^◌, IfOk, OnErr};
ghost use Rattle.tool_final.specs.Finalized.{IsPastCount, counted, group_count, report_for, sample_count};

use mdf_group::GroupRow;
use mdf_num::Memory;
use mdf_session::Session;
use mdf_tool::Report;

/// The number of a group, which is 0 where it holds values of variable length.
fn counted(group: &GroupRow, number: u64) -> u64
    ensures { result ≡ counted group.now number }
{
    if group.is_variable() { 0 } else { number }
}

/// How many of the groups hold no values of variable length. A number past the last u32 counts as want of memory.
fn group_count(groups: &[GroupRow]) -> Result<u32, Memory>
    ensures count { IfOk result (λ count. count ≡ group_count groups.now) }
    ensures past { OnErr result (2 ^ 32 ≤ group_count groups.now) }
{
    let mut count = 0u64;
    for group in groups {
        let Some(sum) = count.checked_add(counted(group, 1)) else {
            return Err(Memory);
        };
        count = sum;
    }
    if count > u32::MAX as u64 {
        return Err(Memory);
    }
    Ok(count as u32)
}

/// How many records those of the groups have that hold no values of variable length, where each group has so many. A sum
/// past the last u64 counts as want of memory.
fn sample_count(groups: &[GroupRow], counts: &[u64]) -> Result<u64, Memory>
    ensures count { IfOk result (λ count. count ≡ sample_count groups.now counts.now) }
    ensures past { OnErr result (2 ^ 64 ≤ sample_count groups.now counts.now) }
{
    let mut count = 0u64;
    for (group, number) in groups.iter().zip(counts) {
        let Some(sum) = count.checked_add(counted(group, *number)) else {
            return Err(Memory);
        };
        count = sum;
    }
    Ok(count)
}

/// What is told of the finalized file of a session.
///
/// # Errors
/// `Memory` where there are more groups than a u32 counts, or more samples than a u64 does.
pub fn report_of(session: &Session) -> Result<Report, Memory>
    ensures report { IfOk result (λ report. report ≡ report_for session.now) }
    ensures past { OnErr result (IsPastCount session.now) }
{
    let row = &session.rows().as_slice()[0];
    let groups = group_count(row.groups.as_slice())?;
    let samples = sample_count(row.groups.as_slice(), session.counts())?;
    Ok(Report {
        groups,
        samples,
        dropped: session.dropped(),
    })
}
