ghost use Rattle.std.specs.Prelude.{ℕ, ◌≡◌, ◌≤◌, ◌++◌, ◌∷◌, List, [], length, vec_capacity, IfOk};
ghost use Rattle.mdf_port.specs.State.{SinkState, sink_state, source_state};
ghost use Rattle.acq_lines.specs.Told.{TellsOn};
ghost use Rattle.acq_script.specs.Plan.{IsPlan};
ghost use Rattle.mdf_command.specs.Texts.{Gives, Prints};
ghost use Rattle.mdf_log.specs.Setup.{SaysSetup, SetupFaultComes};
ghost use Rattle.mdf_log.specs.Report.{log_status, log_text};
ghost use Rattle.mdf_log.specs.Course.{AreFresh, Finishes, HasLeft, HaveLeft, is_calm, stop_of};
ghost use Rattle.mdf_log.specs.Logged.{LogRuns};
ghost use Rattle.mdf_log.specs.Tally.{IsNone};
ghost use Rattle.mdf_log.specs.Tap.{tap_states};

use crate::logging::Logging;
use crate::parts::{Course, log_parts};
use crate::tally::Tally;
use crate::tap::Tap;
use crate::{
    LogEnd, SourceEnd, Stop, floats_of, give_log, log_status, read_setup, report, rules_of,
};
use acq_lines::{Halt, LineFeed, LineRules, give_durable};
use mdf_command::{Fault, status_after};
use mdf_disk::Disks;
use mdf_input::Input;
use mdf_num::{Bytes, Failed, Memory};
use mdf_port::{Sink, Source};
use std::alloc::Global;
use std::sync::Wait;
use std::sync::atomic::AtomicBool;
use std::thread::Threads;

/// What a log leaves: the program's status, how it ended, and its inputs and sinks.
pub struct Logged<S, K> {
    pub status: u8,
    pub end: LogEnd,
    pub taps: Vec<Tap<S, K>>,
}

/// A log of which no part was begun: prints why.
fn unbegun<S, K, E: Sink>(sink: &mut E, end: LogEnd, taps: Vec<Tap<S, K>>) -> Logged<S, K>
    ensures end { result.end ≡ end }
    ensures taps { result.taps ≡ taps }
    ensures printed { Prints (log_text end) (log_status end) (sink_state E.Sink sink.old) (sink_state E.Sink sink.new) result.status }
{
    let status = report(sink, &end);
    Logged { status, end, taps }
}

/// A feed for each tap, by its place.
fn feeds_for<'a, S: Input + Drop, K: Sink + Drop>(
    alloc: Global,
    rules: LineRules<'a>,
    called: &'a AtomicBool,
    taps: Vec<Tap<S, K>>,
) -> Result<Vec<LineFeed<'a, S, K>>, Memory>
    requires few { length taps.items ≤ 16 }
    ensures count { IfOk result (λ feeds. length feeds.items ≡ length taps.items) }
    ensures fresh { IfOk result (λ feeds. AreFresh K.Sink rules.entry taps.items feeds.items) }
{
    let mut feeds = Vec::with_capacity(alloc, taps.len())?;
    let mut number = 0;
    for tap in taps {
        let Tap { input, told } = tap;
        feeds.push_reserved(LineFeed::new(alloc, input, told, rules, number, called)?);
        number += 1;
    }
    Ok(feeds)
}

/// Tells a source how many of its samples are durable, unless its sink has failed, and answers whether that has.
fn tell_last<K: Sink>(told: &mut K, number: u8, accepted: u128, deaf: bool) -> bool
    ensures { TellsOn deaf result (sink_state K.Sink told.old) (sink_state K.Sink told.new) number (accepted ∷ []) }
{
    deaf || give_durable(told, number, accepted).is_err()
}

/// Why a source stopped, by what its feed says.
fn stop_of(halt: Option<Halt>) -> Stop
    ensures { result ≡ stop_of halt }
{
    match halt {
        Some(halt) => Stop::Halted(halt),
        None => Stop::Refused,
    }
}

/// Whether the disk did not fail.
fn is_calm(fault: Option<Fault>) -> bool
    ensures { result ≡ is_calm fault }
{
    !matches!(fault, Some(Fault::Device))
}

/// Lets the feed of a source go of which so many samples were accepted, and says how it ended. Where all of them are durable, and it may not have
/// been told, it is told here.
fn let_go<'a, S: Input + Drop, K: Sink + Drop>(
    feed: LineFeed<'a, S, K>,
    number: u8,
    accepted: u128,
    durable: bool,
) -> (SourceEnd, Tap<S, K>)
    ensures { HasLeft K.Sink number feed.entry accepted durable result.0 result.1 }
{
    let stop = stop_of(feed.halted());
    let mut end = SourceEnd {
        accepted,
        bad: feed.bad(),
        cut: feed.is_cut(),
        deaf: feed.is_deaf(),
        stop,
    };
    let (input, mut told) = feed.into_tap();
    if matches!(stop, Stop::Refused) && durable && accepted > 0 {
        end.deaf = tell_last(&mut told, number, accepted, end.deaf);
    }
    (end, Tap { input, told })
}

/// Room for what a log leaves of its sources.
struct Room<S, K> {
    tally: Tally,
    ends: Vec<SourceEnd>,
    taps: Vec<Tap<S, K>>,
}

/// Room for so many sources.
fn room_for<S, K>(alloc: Global, sources: usize) -> Result<Room<S, K>, Memory>
    ensures tally { IfOk result (λ room. IsNone sources room.tally) }
    ensures empty { IfOk result (λ room. (room.ends.items ≡ []) × (room.taps.items ≡ [])) }
    ensures wide { IfOk result (λ room. (sources ≤ vec_capacity room.ends) × (sources ≤ vec_capacity room.taps)) }
{
    let tally = Tally::new(alloc, sources)?;
    let ends = Vec::with_capacity(alloc, sources)?;
    let taps = Vec::with_capacity(alloc, sources)?;
    Ok(Room { tally, ends, taps })
}

/// Lets all feeds go, in order.
fn let_all_go<'a, S: Input + Drop, K: Sink + Drop>(
    feeds: Vec<LineFeed<'a, S, K>>,
    accepted: &[u128],
    durable: bool,
    ends: &mut Vec<SourceEnd>,
    taps: &mut Vec<Tap<S, K>>,
)
    requires few { length feeds.items ≤ 16 }
    requires counts { length accepted.now ≡ length feeds.items }
    requires none { (ends.old.items ≡ []) × (taps.old.items ≡ []) }
    requires room { (length feeds.items ≤ vec_capacity ends.old) × (length feeds.items ≤ vec_capacity taps.old) }
    ensures count { (length ends.new.items ≡ length feeds.entry.items) × (length taps.new.items ≡ length feeds.entry.items) }
    ensures left { HaveLeft K.Sink feeds.entry.items accepted.now durable ends.new.items taps.new.items }
{
    let mut number = 0;
    for feed in feeds {
        let (end, tap) = let_go(feed, number, accepted[usize::from(number)], durable);
        ends.push_reserved(end);
        taps.push_reserved(tap);
        number += 1;
    }
}

/// Ends a log behind its last part: lets its sources go, and prints how it ended.
fn finish<'a, S: Input + Drop, K: Sink + Drop, E: Sink>(
    course: Course<'a, S, K>,
    mut ends: Vec<SourceEnd>,
    mut taps: Vec<Tap<S, K>>,
    sink: &mut E,
) -> Logged<S, K>
    requires few { length course.feeds.items ≤ 16 }
    requires counts { length course.tally.accepted.items ≡ length course.feeds.items }
    requires none { (ends.items ≡ []) × (taps.items ≡ []) }
    requires room { (length course.feeds.items ≤ vec_capacity ends) × (length course.feeds.items ≤ vec_capacity taps) }
    ensures { Finishes K.Sink course.entry (sink_state E.Sink sink.old) (sink_state E.Sink sink.new) result }
{
    let Course {
        feeds,
        tally,
        live,
        fault,
        given,
    } = course;
    let_all_go(
        feeds,
        tally.accepted.as_slice(),
        is_calm(fault),
        &mut ends,
        &mut taps,
    );
    let end = LogEnd::Closed {
        sources: ends,
        samples: tally.samples,
        durable: tally.durable,
        live,
        fault,
    };
    let given = give_behind(sink, given, &end);
    Logged {
        status: status_after(given, log_status(&end)),
        end,
        taps,
    }
}

/// Gives the lines with which a log ends behind what was given, unless that failed.
fn give_behind<E: Sink>(sink: &mut E, given: Result<(), Failed>, end: &LogEnd) -> Result<(), Failed>
    ensures { (before : List ℕ) (first : SinkState) → Gives before first (sink_state E.Sink sink.old) given
        → Gives (before ++ log_text end.now) first (sink_state E.Sink sink.new) result }
{
    given?;
    give_log(sink, end)
}

/// Logs over a plan.
fn log_plan<R, S, K, E, D>(
    log: &Logging<'_, R>,
    taps: Vec<Tap<S, K>>,
    sink: &mut E,
    disks: &mut D,
) -> Logged<S, K>
where
    R: Threads + Wait + Sync,
    S: Input + Send + Drop,
    K: Sink + Send + Drop,
    E: Sink,
    D: Disks,
    requires plan { IsPlan log.now.plan.now }
    ensures { LogRuns (λ said. said ≡ log.now.plan.now) (λ fault. ⊥) log.now.output.now log.now.now_ns
        (λ served. D.serves disks.old served disks.new)
        (tap_states S.Source K.Sink taps.items) (tap_states S.Source K.Sink result.taps.items)
        (sink_state E.Sink sink.old) (sink_state E.Sink sink.new) result.end result.status }
{
    let alloc = log.alloc;
    let plan = log.plan;
    let sources = taps.len();
    if sources != usize::from(plan.sources) {
        let sources = plan.sources;
        return unbegun(sink, LogEnd::Inputs { sources }, taps);
    }
    let Ok(floats) = floats_of(alloc, plan) else {
        return unbegun(sink, LogEnd::Refused(Fault::Memory), taps);
    };
    let Ok(room) = room_for(alloc, sources) else {
        return unbegun(sink, LogEnd::Refused(Fault::Memory), taps);
    };
    let Room {
        tally,
        ends,
        taps: left,
    } = room;
    let called = AtomicBool::new(false);
    let Ok(feeds) = feeds_for(alloc, rules_of(plan, &floats), &called, taps) else {
        return unbegun(sink, LogEnd::Refused(Fault::Memory), left);
    };
    let first = Course {
        feeds,
        tally,
        live: None,
        fault: None,
        given: Ok(()),
    };
    let course = log_parts(log, &called, first, sink, disks);
    finish(course, ends, left, sink)
}

/// `OUT SETUP IN..`: records what the inputs say, each as a source of the plan of the setup, into new files `OUT.0`, `OUT.1`, .., each on a
/// disk of its own; tells each source how many of its samples are durable, while it goes on; and prints how many samples there are.
pub fn run_log<R, P, S, K, E, D>(
    rt: &R,
    alloc: Global,
    output: &Bytes,
    now_ns: u64,
    setup: &mut P,
    taps: Vec<Tap<S, K>>,
    sink: &mut E,
    disks: &mut D,
) -> Logged<S, K>
where
    R: Threads + Wait + Sync,
    P: Source,
    S: Input + Send + Drop,
    K: Sink + Send + Drop,
    E: Sink,
    D: Disks,
    ensures { LogRuns (SaysSetup (source_state P.Source setup.old) (source_state P.Source setup.new))
        (SetupFaultComes (source_state P.Source setup.old) (source_state P.Source setup.new)) output.now now_ns
        (λ served. D.serves disks.old served disks.new)
        (tap_states S.Source K.Sink taps.items) (tap_states S.Source K.Sink result.taps.items)
        (sink_state E.Sink sink.old) (sink_state E.Sink sink.new) result.end result.status }
{
    match read_setup(alloc, setup) {
        Ok(plan) => {
            let log = Logging {
                rt,
                alloc,
                output,
                now_ns,
                plan: &plan,
            };
            log_plan(&log, taps, sink, disks)
        }
        Err(fault) => unbegun(sink, LogEnd::Refused(fault), taps),
    }
}
