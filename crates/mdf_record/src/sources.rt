// The sources of a recording, each in a thread of its own.
ghost use Rattle.std.specs.Prelude.{◌≡◌, ◌≤◌, ◌<◌, [], length, map, replicate, vec_len, IfOk};
ghost use Rattle.mdf_record.specs.Sources.{counts_of, ends_of, feds_of, told_of, worse, worst};
ghost use Rattle.mdf_record.specs.Feeding.{fed_by};

use crate::gate::Gate;
use acq_run::{Driven, Ended, Fed, Feed};
use acq_script::Task;
use mdf_layout::Reserved;
use mdf_num::{Memory, Rows};
use std::alloc::Global;
use std::sync::Wait;
use std::vec::IntoIter;

/// Why the sources ended before their tasks were done.
#[derive(Clone, Copy)]
pub enum End {
    /// The next sample of one would have passed the session limit: what the history costs, what the sample costs, and the
    /// limit, in bytes.
    SessionFull { held: u64, size: u64, limit: u64 },
    /// The disk failed, and the book is stopped.
    Stopped,
    /// Want of memory.
    Memory,
}

/// How many samples of each source were accepted, in the order of their numbers.
pub type Accepted = Reserved<u64>;

/// The feed of a source: its tasks, in order. The source passes the gate before each.
#[derive(Drop)]
pub(crate) struct TaskFeed<'a, G> {
    tasks: IntoIter<Task, Global>,
    source: u8,
    gate: &'a G,
}

impl<'a, G: Gate> Feed for TaskFeed<'a, G> {
    ghost use Rattle.mdf_record.specs.Feeding.{HandsTasks, HasNone, IsAnyTask, tasks_none, tasks_more};

    ghost hands = { HandsTasks };

    ghost waits = { IsAnyTask };

    ghost ends = { HasNone };

    ghost hands_none = { tasks_none };

    ghost hands_more = { tasks_more };

    fn next<R: Wait>(&mut self, _rt: &R) -> Fed {
        let Some(task) = self.tasks.next() else {
            return Fed::End;
        };
        self.gate.pass(self.source);
        match task {
            Task::Sample(sample) => Fed::Sample(sample),
            Task::Flush => Fed::Flush,
        }
    }

    fn leave(&mut self) {}
}

/// The feeds of these lists, in order.
pub(crate) fn feeds_of<'a, G: Gate>(
    alloc: Global,
    lists: Vec<Rows<Task>>,
    gate: &'a G,
) -> Result<Vec<TaskFeed<'a, G>>, Memory>
    requires few { vec_len lists ≤ 255 }
    ensures feeds { IfOk result (λ feeds. fed_by feeds.items ≡ map feds_of lists.items) }
{
    let mut feeds = Vec::new(alloc);
    let mut source = 0;
    for tasks in lists {
        feeds.push(TaskFeed {
            tasks: tasks.into_vec().into_iter(),
            source,
            gate,
        })?;
        source += 1;
    }
    Ok(feeds)
}

/// What is told of how a source's work ended.
fn told(ended: Ended) -> Result<(), End>
    ensures { result ≡ told_of ended }
{
    match ended {
        Ended::Running | Ended::Done => Ok(()),
        Ended::SessionFull { held, size, limit } => Err(End::SessionFull { held, size, limit }),
        Ended::Stopped { .. } | Ended::DiskFault { .. } => Err(End::Stopped),
        Ended::Memory => Err(End::Memory),
    }
}

/// Of two ends that which is told: a full session before want of memory, and else the first.
fn worse(first: Result<(), End>, next: Result<(), End>) -> Result<(), End>
    ensures { result ≡ worse first next }
{
    match first {
        Ok(()) => next,
        Err(End::Memory) => match next {
            Ok(()) => Err(End::Memory),
            Err(end) => Err(end),
        },
        Err(end) => Err(end),
    }
}

/// Adds that no sample was accepted, for each of so many sources. The room for it was found beforehand.
pub(crate) fn add_none(accepted: &mut Accepted, sources: usize)
    requires none { accepted.old.items ≡ [] }
    requires room { sources ≤ accepted.old.spare }
    ensures { accepted.new.items ≡ replicate sources 0 }
{
    for _source in 0..sources {
        accepted.put(0);
    }
}

/// The end that is told of all sources. How many samples each accepted is added to the list, for which the room was found
/// beforehand.
pub(crate) fn told_all(all: &[Driven], accepted: &mut Accepted) -> Result<(), End>
    requires none { accepted.old.items ≡ [] }
    requires room { length all.now ≤ accepted.old.spare }
    ensures accepted { accepted.new.items ≡ counts_of all.now }
    ensures told { result ≡ worst (ends_of all.now) }
{
    let mut end = Ok(());
    for driven in all {
        accepted.put(driven.accepted);
        end = worse(end, told(driven.ended));
    }
    end
}
