// The parts of a log, one behind the other.
ghost use Rattle.std.specs.Prelude.{ℕ, ◌≡◌, ◌<◌, ◌+◌, ◌^◌, ◌↔◌, ◌++◌, ◌⊎◌, List, None, true, length};
ghost use Rattle.std.specs.List.{list_any, slice_index_or};
ghost use Rattle.mdf_port.specs.State.{SinkState, sink_state};
ghost use Rattle.acq_lines.specs.Handled.{Resumes};
ghost use Rattle.acq_script.specs.Plan.{IsPlan};
ghost use Rattle.mdf_command.specs.Texts.{Gives};
ghost use Rattle.mdf_rotate.specs.Text.{part_line, record_of};
ghost use Rattle.mdf_log.specs.Course.{AreRuled, HasGone, HasRun, IsNextPart, is_called};
ghost use Rattle.mdf_log.specs.Parts.{durable_of, fault_of, fits_anew, live_of};

use crate::logging::Logging;
use crate::part::log_part;
use crate::tally::Tally;
use acq_lines::{Halt, LineFeed};
use mdf_command::Fault;
use mdf_disk::Disks;
use mdf_input::Input;
use mdf_num::Failed;
use mdf_port::{Sink, Source};
use mdf_record::{RecordEnd, Recorded, RecordedFeeds};
use mdf_rotate::{Part, give_part};
use std::sync::Wait;
use std::sync::atomic::{AtomicBool, Ordering};
use std::thread::Threads;

/// A log behind its parts so far: the feeds wherever they stand, what the parts come to, how many samples a reader finds shown of the last
/// one, where it is looked at live and nothing went wrong, what went wrong in it, if anything did, and whether each line was printed.
pub(crate) struct Course<'a, S: Source, K> {
    pub(crate) feeds: Vec<LineFeed<'a, S, K>>,
    pub(crate) tally: Tally,
    pub(crate) live: Option<u64>,
    pub(crate) fault: Option<Fault>,
    pub(crate) given: Result<(), Failed>,
}

/// What went wrong in a part that ended so, if anything did.
fn fault_of(end: &RecordEnd) -> Option<Fault>
    ensures { result ≡ fault_of end.now }
{
    match end {
        RecordEnd::Refused(fault) => Some(*fault),
        RecordEnd::Closed { fault, .. } => *fault,
    }
}

/// How many samples a reader finds shown of a part that ended so, where it is looked at live and nothing went wrong.
fn live_of(end: &RecordEnd) -> Option<u64>
    ensures { result ≡ live_of end.now }
{
    match end {
        RecordEnd::Refused(_) => None,
        RecordEnd::Closed { live, .. } => *live,
    }
}

/// How many samples of a part that ended so are durable.
fn durable_of(end: &RecordEnd) -> u64
    ensures { result ≡ durable_of end.now }
{
    match end {
        RecordEnd::Refused(_) => 0,
        RecordEnd::Closed { durable, .. } => *durable,
    }
}

/// Whether a session was full, for a sample that has room in an empty one.
fn fits_anew(fault: Option<Fault>) -> bool
    ensures { result ≡ fits_anew fault }
{
    match fault {
        Some(Fault::SessionFull { size, limit, .. }) => size <= limit,
        _ => false,
    }
}

/// Whether a feed was called off.
fn is_called<'a, S: Input + Drop, K: Sink + Drop>(feed: &LineFeed<'a, S, K>) -> bool
    ensures { result ≡ is_called feed.now }
{
    matches!(feed.halted(), Some(Halt::Called))
}

/// Whether one of these feeds was called off.
fn any_called<'a, S: Input + Drop, K: Sink + Drop>(feeds: &Vec<LineFeed<'a, S, K>>) -> bool
    ensures { result ≡ list_any is_called feeds.now.items }
{
    feeds.as_slice().iter().any(|feed| is_called(feed))
}

/// Whether the next part begins behind one of so many samples, by what went wrong in it, and whether one of its sources was called off: that has
/// to go on where nothing went wrong.
fn goes_on(fault: Option<Fault>, samples: u64, called: bool) -> bool
    ensures { (result ≡ true) ↔ (((fits_anew fault ≡ true) × (0 < samples)) ⊎ ((fault ≡ None) × (called ≡ true))) }
{
    match fault {
        None => called,
        Some(_) => samples > 0 && fits_anew(fault),
    }
}

/// Gives the line of the part of a number behind what was given, unless that failed.
fn give_next<E: Sink, C>(
    sink: &mut E,
    given: Result<(), Failed>,
    number: u64,
    part: &Part<C>,
) -> Result<(), Failed>
    ensures { (before : List ℕ) (first : SinkState) → Gives before first (sink_state E.Sink sink.old) given
        → Gives (before ++ part_line number (record_of part.now)) first (sink_state E.Sink sink.new) result }
{
    given?;
    give_part(sink, number, part)
}

/// Records the next part onto the next disk, prints its line, and gives the disk back. Answers how the log stands then, and whether
/// it goes on.
fn next_part<'a, R, S, K, E, D>(
    log: &Logging<'_, R>,
    course: Course<'a, S, K>,
    sink: &mut E,
    disks: &mut D,
) -> (Course<'a, S, K>, bool)
where
    R: Threads + Wait + Sync,
    S: Input + Send + Drop,
    K: Sink + Send + Drop,
    E: Sink,
    D: Disks,
    requires plan { IsPlan log.now.plan.now }
    requires sources { length course.feeds.items ≡ log.now.plan.now.sources }
    requires totals { length course.tally.accepted.items ≡ log.now.plan.now.sources }
    requires ruled { AreRuled log.now.plan.now course.feeds.items }
    requires room { course.tally.parts + 1 < 2 ^ 64 }
    ensures { IsNextPart K.Sink log.now.plan.now log.now.output.now log.now.now_ns (λ served. D.serves disks.old served disks.new)
        (sink_state E.Sink sink.old) (sink_state E.Sink sink.new) course.entry result.0 result.1 }
{
    let Course {
        feeds,
        mut tally,
        live: _,
        fault: _,
        given,
    } = course;
    let number = tally.parts;
    let out = disks.next();
    let RecordedFeeds {
        recorded,
        feeds,
        all,
    } = log_part(log, number, out, feeds);
    let Recorded {
        end,
        out,
        history,
        marks,
    } = recorded;
    let part = Part {
        out,
        history,
        marks,
    };
    let given = give_next(sink, given, number, &part);
    let samples = part.history.len();
    tally.add(samples, durable_of(&end), all.as_slice());
    disks.keep(part.out);
    let fault = fault_of(&end);
    let on = goes_on(fault, samples, any_called(&feeds));
    (
        Course {
            feeds,
            tally,
            live: live_of(&end),
            fault,
            given,
        },
        on,
    )
}

/// Takes up all feeds in a next part.
fn resume_all<'a, S: Input + Drop, K: Sink + Drop>(feeds: &mut Vec<LineFeed<'a, S, K>>)
    ensures count { length feeds.new.items ≡ length feeds.old.items }
    ensures resumed { (source : ℕ) (d : _) → source < length feeds.old.items
        → Resumes K.Sink (slice_index_or feeds.old.items source d) (slice_index_or feeds.new.items source d) }
{
    for source in 0..feeds.len() {
        feeds[source].resume();
    }
}

/// Records part after part, each behind one whose session was full for a sample that has room in an empty one, or in which a source was called off though nothing went wrong.
pub(crate) fn log_parts<'a, R, S, K, E, D>(
    log: &Logging<'_, R>,
    called: &AtomicBool,
    first: Course<'a, S, K>,
    sink: &mut E,
    disks: &mut D,
) -> Course<'a, S, K>
where
    R: Threads + Wait + Sync,
    S: Input + Send + Drop,
    K: Sink + Send + Drop,
    E: Sink,
    D: Disks,
    requires plan { IsPlan log.now.plan.now }
    requires sources { length first.feeds.items ≡ log.now.plan.now.sources }
    requires ruled { AreRuled log.now.plan.now first.feeds.items }
    requires none { first.tally.parts ≡ 0 }
    requires begins { HasGone K.Sink log.now.plan.now log.now.output.now log.now.now_ns (λ served. D.serves disks.old served disks.old)
        (sink_state E.Sink sink.old) (sink_state E.Sink sink.old) first.feeds.items first }
    ensures { HasRun K.Sink log.now.plan.now log.now.output.now log.now.now_ns (λ served. D.serves disks.old served disks.new)
        (sink_state E.Sink sink.old) (sink_state E.Sink sink.new) first.entry.feeds.items result }
{
    let mut course = first;
    for _ in log.rt.forever() {
        let (next, goes_on) = next_part(log, course, sink, disks);
        course = next;
        if !goes_on || course.tally.parts == u64::MAX {
            return course;
        }
        called.store(false, Ordering::SeqCst);
        resume_all(&mut course.feeds);
    }
    unreachable!()
}
