// Which channels of variable length can share a bit with another channel, found in the order of the bits.
ghost use Rattle.std.specs.Prelude.{◌≡◌, ◌+◌, ◌^◌, ◌<◌, ◌≤◌, true, false, length, IfOk, OnOk};
ghost use Rattle.std.specs.List.{Contains, slice_index_or};
ghost use Rattle.std.specs.List.Sorted.{IsNonDecreasingBy};
ghost use Rattle.mdf_layout.specs.Rule.{is_variable};
ghost use Rattle.mdf_layout.specs.Run.{with_run, HaveBits, AreRuns, KeepRuns, Overlap, MeetNone};

use crate::FieldRow;
use crate::rule::{bits_of, covered, is_variable, row_at};
use mdf_num::Memory;
use std::alloc::Global;

/// Neighbouring bits of a record that belong to one channel's field: those from `start` on, before `end`.
#[derive(Clone, Copy, Debug)]
pub(crate) struct Run {
    pub(crate) channel: u32,
    /// Whether the channel is of variable length.
    pub(crate) variable: bool,
    pub(crate) start: u64,
    pub(crate) end: u64,
}

/// Adds a run, unless it has no bit.
fn add_run(runs: &mut Vec<Run>, run: Run) -> Result<(), Memory>
    ensures { OnOk result (runs.new.items ≡ with_run runs.old.items run) }
{
    if run.start < run.end {
        runs.push(run)?;
    }
    Ok(())
}

/// The bits of a channel's field from `start` on, before `end`.
fn run_of(channel: u32, row: FieldRow, start: u64, end: u64) -> Run
    ensures { result ≡ record { channel = channel; variable = is_variable row; start = start; end = end } }
{
    Run {
        channel,
        variable: is_variable(row),
        start,
        end,
    }
}

/// Adds the runs of a field whose bytes stand with the highest first: its bits in the first byte, in those between, and
/// in the last.
fn add_big(runs: &mut Vec<Run>, channel: u32, row: FieldRow) -> Result<(), Memory>
    requires big { row.big ≡ true }
    ensures bits { OnOk result (HaveBits runs.new.items channel row) }
    ensures kept { OnOk result (KeepRuns runs.old.items runs.new.items) }
{
    if bits_of(row) == 0 {
        return Ok(());
    }
    let first = 8 * row.byte as u64;
    let last = first + 8 * (covered(row) - 1 - row.bit as u64 / 8);
    let low = last + row.bit as u64 % 8;
    let high = first + (row.bit as u64 + bits_of(row) - 1) % 8 + 1;
    if first == last {
        return add_run(runs, run_of(channel, row, low, high));
    }
    add_run(runs, run_of(channel, row, first, high))?;
    add_run(runs, run_of(channel, row, first + 8, last))?;
    add_run(runs, run_of(channel, row, low, last + 8))
}

/// Adds the run of a field whose bytes stand with the lowest first.
fn add_little(runs: &mut Vec<Run>, channel: u32, row: FieldRow) -> Result<(), Memory>
    requires little { row.big ≡ false }
    ensures bits { OnOk result (HaveBits runs.new.items channel row) }
    ensures kept { OnOk result (KeepRuns runs.old.items runs.new.items) }
{
    let start = 8 * row.byte as u64 + row.bit as u64;
    add_run(runs, run_of(channel, row, start, start + bits_of(row)))
}

/// Adds the runs of a channel's field.
fn add_runs(runs: &mut Vec<Run>, channel: u32, row: FieldRow) -> Result<(), Memory>
    ensures bits { OnOk result (HaveBits runs.new.items channel row) }
    ensures kept { OnOk result (KeepRuns runs.old.items runs.new.items) }
{
    if row.big {
        add_big(runs, channel, row)
    } else {
        add_little(runs, channel, row)
    }
}

/// The runs of the fields of all channels.
fn runs_of(alloc: Global, rows: &[FieldRow]) -> Result<Vec<Run>, Memory>
    requires few { length rows.now < 2 ^ 32 }
    ensures { IfOk result (λ runs. AreRuns runs.items rows.now (length rows.now)) }
{
    let mut runs = Vec::new(alloc);
    for channel in 0..rows.len() {
        add_runs(&mut runs, channel as u32, row_at(rows, channel))?;
    }
    Ok(runs)
}

/// Puts runs in the order of their first bits.
fn sort_runs(runs: &mut Vec<Run>)
    ensures kept { KeepRuns runs.old.items runs.new.items }
    ensures sorted { IsNonDecreasingBy (λ run. run.start) runs.new.items }
{
    runs.sort_unstable_by_key(|run| run.start);
}

/// Run `at` of these.
fn run_at(runs: &[Run], at: usize) -> Run
    requires { at < length runs.now }
    ensures { (d : Run) → slice_index_or runs.now at d ≡ result }
{
    runs[at]
}

/// Where the run behind run `at` begins; at the last u64 where there is none.
fn next_start(runs: &[Run], at: usize) -> u64
    ensures { (d : Run) → at + 1 < length runs.now → result ≡ (slice_index_or runs.now (at + 1) d).start }
{
    if at < runs.len() && at + 1 < runs.len() {
        runs[at + 1].start
    } else {
        u64::MAX
    }
}

/// The lesser one of a channel and that of a run of variable length, where a run before it ends behind its start or the
/// run behind it begins before its end.
fn least_with(run: Run, end: u64, next: u64, least: u32) -> u32
    ensures kept { result ≤ least }
    ensures before { run.variable ≡ true → run.start < end → result ≤ run.channel }
    ensures behind { run.variable ≡ true → next < run.end → result ≤ run.channel }
{
    if run.variable && run.channel < least && (run.start < end || next < run.end) {
        run.channel
    } else {
        least
    }
}

/// The greater one of two numbers.
fn later(one: u64, other: u64) -> u64
    ensures one { one ≤ result }
    ensures other { other ≤ result }
{
    if one < other { other } else { one }
}

/// The least channel of variable length with a run that overlaps one of another channel; `none` where there is none. The
/// runs are in the order of their first bits.
fn least_overlapping(runs: &[Run], none: u32) -> u32
    requires sorted { IsNonDecreasingBy (λ run. run.start) runs.now }
    ensures { (run other : Run) → Contains runs.now run → Contains runs.now other → Overlap run other → result ≤ run.channel }
{
    let mut least = none;
    let mut end = 0;
    for at in 0..runs.len() {
        let run = run_at(runs, at);
        least = least_with(run, end, next_start(runs, at), least);
        end = later(end, run.end);
    }
    least
}

/// A channel before which none of variable length shares a bit with another: the first that does, where one does.
pub(crate) fn first_meeting(alloc: Global, rows: &[FieldRow]) -> Result<u32, Memory>
    requires few { length rows.now < 2 ^ 32 }
    ensures { IfOk result (MeetNone rows.now) }
{
    let mut runs = runs_of(alloc, rows)?;
    sort_runs(&mut runs);
    Ok(least_overlapping(runs.as_slice(), rows.len() as u32))
}
