// Which tasks a part takes.
ghost use Rattle.std.specs.Prelude.{◌≡◌, ◌≤◌, ◌<◌, ◌+◌, ◌*◌, length, map, All, IfOk, OnOk};
ghost use Rattle.std.specs.VecDeque.{deque_len};
ghost use Rattle.mdf_layout.specs.Record.{cost_of};
ghost use Rattle.acq_script.specs.Plan.{IsPlan};
ghost use Rattle.book_rotate.specs.Part.{HasNoRoom, IsNextOrNone, lists_cost, tasks_cost};
ghost use Rattle.book_rotate.specs.Fill.{HasNone, HasShare, IsMoved, MayShare, ShareFits, left_in, parts_in, tasks_in, tasks_of};

use crate::large::task_cost;
use acq_script::{Plan, Task};
use mdf_num::{Memory, Rows};
use std::alloc::Global;
use std::collections::VecDeque;

/// The tasks of a source: those that the part took, and those that are left.
#[derive(Drop)]
pub(crate) struct Share {
    part: Vec<Task>,
    left: VecDeque<Task>,
}

/// The tasks of all sources, and what the samples cost that the part took.
#[derive(Drop)]
pub(crate) struct Filling {
    shares: Vec<Share>,
    cost: u64,
}

/// Nothing was taken of these lists.
pub(crate) fn begun(alloc: Global, lists: Vec<VecDeque<Task>>) -> Result<Filling, Memory>
    ensures tasks { IfOk result (λ filling. tasks_in filling.shares.items ≡ map (λ list. list.items) lists.items) }
    ensures none { IfOk result (λ filling. All HasNone filling.shares.items) }
    ensures cost { IfOk result (λ filling. filling.cost ≡ 0) }
{
    let mut shares = Vec::with_capacity(alloc, lists.len())?;
    for left in lists {
        shares.push_reserved(Share {
            part: Vec::new(alloc),
            left,
        });
    }
    Ok(Filling { shares, cost: 0 })
}

/// Moves the next task into the part.
fn take_next(share: &mut Share) -> Result<(), Memory>
    requires { 0 < deque_len share.old.left }
    ensures { OnOk result (IsMoved share.old share.new) }
{
    if let Some(task) = share.left.pop_front() {
        share.part.push(task)?;
    }
    Ok(())
}

/// Moves tasks of a source into the part, whose samples cost `held`, up to the first sample with which these cost more than the
/// limit. Answers what they cost then.
fn take_within(plan: &Plan, share: &mut Share, held: u64, limit: u64) -> Result<u64, Memory>
    requires plan { IsPlan plan.now }
    requires fits { ShareFits plan.now share.old }
    requires limit { limit ≤ plan.now.session }
    requires held { held ≤ limit }
    ensures tasks { OnOk result (tasks_of share.new ≡ tasks_of share.old) }
    ensures cost { IfOk result (λ cost. cost + tasks_cost plan.now.shapes share.old.part.items ≡ held + tasks_cost plan.now.shapes share.new.part.items) }
    ensures more { IfOk result (λ cost. held ≤ cost) }
    ensures within { IfOk result (λ cost. cost ≤ limit) }
    ensures full { IfOk result (λ cost. IsNextOrNone (λ sample. limit < cost + cost_of plan.now.shapes sample) share.new.left.items) }
    ensures fair { HasShare plan.now share.old → OnOk result (HasShare plan.now share.new) }
{
    let mut held = held;
    'tasks: while let Some(task) = share.left.front() {
        let cost = task_cost(plan, task);
        if held + cost > limit {
            return Ok(held);
        }
        take_next(share)?;
        held += cost;
    }
    Ok(held)
}

/// Moves tasks into the part, source by source, each up to the first sample with which the part costs more than is allowed up to
/// there: so much up to the first source, and a step more up to each other.
fn take_all(
    alloc: Global,
    plan: &Plan,
    filling: Filling,
    first: u64,
    step: u64,
) -> Result<Filling, Memory>
    requires plan { IsPlan plan.now }
    requires fits { All (ShareFits plan.now) filling.shares.items }
    requires cost { filling.cost ≡ lists_cost plan.now.shapes (parts_in filling.shares.items) }
    requires first { filling.cost ≤ first }
    requires held { filling.cost ≤ plan.now.session }
    requires step { step ≤ plan.now.session }
    requires limit { first + step * length filling.shares.items ≤ plan.now.session + step }
    ensures tasks { IfOk result (λ filled. tasks_in filled.shares.items ≡ tasks_in filling.shares.items) }
    ensures cost { IfOk result (λ filled. filled.cost ≡ lists_cost plan.now.shapes (parts_in filled.shares.items)) }
    ensures within { IfOk result (λ filled. filled.cost ≤ plan.now.session) }
    ensures full { first ≡ plan.now.session → step ≡ 0
        → IfOk result (λ filled. All (IsNextOrNone (HasNoRoom plan.now filled.cost)) (left_in filled.shares.items)) }
    ensures fair { MayShare plan.now filling.shares.items filling.cost first step → IfOk result (λ filled. All (HasShare plan.now) filled.shares.items) }
{
    let Filling { shares, cost } = filling;
    let mut filled = Vec::with_capacity(alloc, shares.len())?;
    let mut cost = cost;
    let mut limit = first;
    for share in shares {
        let mut share = share;
        cost = take_within(plan, &mut share, cost, limit)?;
        filled.push_reserved(share);
        limit += step;
    }
    Ok(Filling {
        shares: filled,
        cost,
    })
}

/// Moves into a part that has nothing yet first of each source as much as its share of a session, and then what has room.
pub(crate) fn fill(alloc: Global, plan: &Plan, filling: Filling) -> Result<Filling, Memory>
    requires plan { IsPlan plan.now }
    requires count { length filling.shares.items ≡ plan.now.sources }
    requires fits { All (ShareFits plan.now) filling.shares.items }
    requires none { All HasNone filling.shares.items }
    requires cost { filling.cost ≡ 0 }
    ensures tasks { IfOk result (λ filled. tasks_in filled.shares.items ≡ tasks_in filling.shares.items) }
    ensures within { IfOk result (λ filled. lists_cost plan.now.shapes (parts_in filled.shares.items) ≤ plan.now.session) }
    ensures full { IfOk result (λ filled.
        All (IsNextOrNone (HasNoRoom plan.now (lists_cost plan.now.shapes (parts_in filled.shares.items)))) (left_in filled.shares.items)) }
    ensures fair { IfOk result (λ filled. All (HasShare plan.now) filled.shares.items) }
{
    let share = plan.session / u64::from(plan.sources);
    let shared = take_all(alloc, plan, filling, share, share)?;
    take_all(alloc, plan, shared, plan.session, 0)
}

/// What the part took, and what is left.
pub(crate) fn parted(
    alloc: Global,
    filling: Filling,
) -> Result<(Rows<Rows<Task>>, Vec<VecDeque<Task>>), Memory>
    ensures parts { IfOk result (λ made. made.0 ≡ parts_in filling.shares.items) }
    ensures left { IfOk result (λ made. map (λ list. list.items) made.1.items ≡ left_in filling.shares.items) }
{
    let Filling { shares, cost: _ } = filling;
    let mut parts = Vec::with_capacity(alloc, shares.len())?;
    let mut lists = Vec::with_capacity(alloc, shares.len())?;
    for share in shares {
        let Share { part, left } = share;
        parts.push_reserved(Rows::from_vec(part));
        lists.push_reserved(left);
    }
    Ok((Rows::from_vec(parts), lists))
}
