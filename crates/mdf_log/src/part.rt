// A part of a log.
ghost use Rattle.std.specs.Prelude.{◌≡◌, [], None, length, IfOk};
ghost use Rattle.mdf_disk.specs.State.{state_of};
ghost use Rattle.acq_script.specs.Plan.{IsPlan};
ghost use Rattle.mdf_record.specs.Feeds.{AllMayRecord};
ghost use Rattle.mdf_record.specs.Record.{outcome};
ghost use Rattle.mdf_record.specs.Recovers.{AreRecovered};
ghost use Rattle.mdf_rotate.specs.Words.{part_name};
ghost use Rattle.mdf_log.specs.Part.{PartComes};

use crate::logging::Logging;
use acq_run::Feed;
use acq_script::Plan;
use book_rotate::shapes_like;
use mdf_carried::what_is_carried_is_recovered;
use mdf_command::Fault;
use mdf_disk::Disk;
use mdf_num::{Bytes, Memory};
use mdf_record::{RecordEnd, RecordedFeeds, Setting, create, record_feeds, refused};
use mdf_rotate::part_name;
use std::alloc::Global;
use std::sync::Wait;
use std::thread::Threads;

/// A part of which no book was begun. The feeds stay where they stand.
fn unbegun<C, F>(alloc: Global, fault: Fault, out: C, feeds: Vec<F>) -> RecordedFeeds<C, F>
    ensures end { result.recorded.end ≡ RecordEnd.Refused fault }
    ensures out { result.recorded.out ≡ out }
    ensures history { result.recorded.history.items ≡ [] }
    ensures marks { result.recorded.marks.items ≡ [] }
    ensures feeds { result.feeds ≡ feeds }
    ensures none { result.all.items ≡ [] }
{
    RecordedFeeds {
        recorded: refused(alloc, fault, out),
        feeds,
        all: Vec::new(alloc),
    }
}

/// The name of a part, and what its recording takes of the plan.
fn set<'a>(
    alloc: Global,
    output: &Bytes,
    number: u64,
    plan: &'a Plan,
) -> Result<(Bytes, Setting<'a>), Memory>
    ensures name { IfOk result (λ set. set.0 ≡ part_name output.now number) }
    ensures shapes { IfOk result (λ set. set.1.shapes ≡ plan.now.shapes) }
    ensures owners { IfOk result (λ set. set.1.owners.now ≡ plan.now.owners) }
    ensures block { IfOk result (λ set. set.1.block ≡ plan.now.block) }
    ensures session { IfOk result (λ set. set.1.session ≡ plan.now.session) }
    ensures live { IfOk result (λ set. set.1.live ≡ plan.now.live) }
{
    let name = part_name(alloc, output, number)?;
    let shapes = shapes_like(alloc, &plan.shapes)?;
    Ok((
        name,
        Setting {
            shapes,
            owners: plan.owners.as_slice(),
            block: plan.block,
            session: plan.session,
            live: plan.live,
        },
    ))
}

/// Records what the feeds hand in, one for each source of the plan, from wherever they stand into a new file, which has the name of the part
/// of this number, and closes it when each has ended or its next was not done.
pub fn log_part<R, C, F>(
    log: &Logging<'_, R>,
    number: u64,
    out: C,
    feeds: Vec<F>,
) -> RecordedFeeds<C, F>
where
    R: Threads + Wait + Sync,
    C: Disk + Send,
    F: Feed + Send + Drop,
    requires asked { C.asked out ≡ None }
    requires plan { IsPlan log.now.plan.now }
    requires sources { length feeds.items ≡ log.now.plan.now.sources }
    requires may { AllMayRecord F.hands log.now.plan.now 0 feeds.items }
    ensures comes { PartComes F.hands F.waits F.ends log.now.plan.now (part_name log.now.output.now number) log.now.now_ns (state_of C.Disk out)
        (outcome C.Disk result.recorded.out result.recorded.history.items result.recorded.marks.items) feeds.items result.feeds.items result.all.items
        result.recorded.end }
    ensures untouched { C.asked result.recorded.out ≡ None → result.recorded.out ≡ out }
    ensures recovered { AreRecovered (C.moment out) (outcome C.Disk result.recorded.out result.recorded.history.items result.recorded.marks.items) }
{
    what_is_carried_is_recovered();
    let alloc = log.alloc;
    let plan = log.plan;
    let Ok((name, setting)) = set(alloc, log.output, number, plan) else {
        return unbegun(alloc, Fault::Memory, out, feeds);
    };
    match create(alloc, &name, log.now_ns, &plan.rows, plan.form, out) {
        Ok(file) => record_feeds(log.rt, alloc, setting, file, feeds),
        Err((fault, out)) => unbegun(alloc, fault, out, feeds),
    }
}
