// Samples for which a session has no room.
ghost use Rattle.std.specs.Prelude.{◌≡◌, ◌<◌, ◌^◌, All, IfSome, IfNone};
ghost use Rattle.acq_script.specs.Plan.{IsPlan, TaskFits};
ghost use Rattle.acq_script.specs.Stage.{IsScript};
ghost use Rattle.acq_script.specs.Tasks.{samples_of};
ghost use Rattle.book_rotate.specs.Begin.{AllHaveRoom, HasRoom, IsFirstLargeIn, all_samples};
ghost use Rattle.book_rotate.specs.Part.{task_cost};

use acq_script::{Plan, Script, Task};

/// What a task costs: a sample what it takes, and a flush nothing.
pub(crate) fn task_cost(plan: &Plan, task: &Task) -> u64
    requires plan { IsPlan plan.now }
    requires fits { TaskFits plan.now task.now }
    ensures cost { result ≡ task_cost plan.now.shapes task.now }
    ensures small { result < 2 ^ 32 }
{
    match task {
        Task::Sample(sample) => plan.shapes.cost_of(sample),
        Task::Flush => 0,
    }
}

/// What the first of these tasks costs that costs more than a session has room for, if one does.
fn large_in(plan: &Plan, tasks: &[Task]) -> Option<u64>
    requires plan { IsPlan plan.now }
    requires fit { All (TaskFits plan.now) tasks.now }
    ensures none { IfNone result (All (HasRoom plan.now) (samples_of tasks.now)) }
    ensures large { IfSome result (IsFirstLargeIn plan.now (samples_of tasks.now)) }
{
    for task in tasks {
        let cost = task_cost(plan, task);
        if cost > plan.session {
            return Some(cost);
        }
    }
    None
}

/// What the first sample of a script costs, by its source and then by its place, that costs more than a session has room for,
/// if one does.
pub(crate) fn large_of(script: &Script) -> Option<u64>
    requires { IsScript script.now }
    ensures none { IfNone result (AllHaveRoom script.now) }
    ensures large { IfSome result (IsFirstLargeIn script.now.plan (all_samples script.now.lists)) }
{
    for tasks in script.lists.as_slice() {
        if let Some(size) = large_in(&script.plan, tasks.as_slice()) {
            return Some(size);
        }
    }
    None
}
