ghost use Rattle.std.specs.Prelude.{◌≡◌, map, IfOk, IfErr, OnErr};
ghost use Rattle.acq_script.specs.Stage.{IsScript};
ghost use Rattle.book_rotate.specs.Begin.{AllHaveRoom, RotateFaultComes};
ghost use Rattle.book_rotate.specs.Part.{IsPart, is_done};

use crate::RotateFault;
use crate::fill::{begun, fill, parted};
use crate::large::large_of;
use crate::plan::part_plan;
use acq_script::{Plan, Script, Task};
use mdf_num::{Memory, Rows};
use std::alloc::Global;
use std::collections::VecDeque;
use std::marker::Model;

/// A script that is recorded in parts. Contracts see it as the script that is left.
#[derive(Drop)]
pub struct Rotation {
    plan: Plan,
    lists: Vec<VecDeque<Task>>,
}

impl Model for Rotation {
    ghost use Rattle.std.specs.Prelude.{map};
    ghost use Rattle.acq_script.specs.declared.script.Script.{Script};
    ghost use Rattle.book_rotate.specs.Begin.{IsRotatable};
    ghost use Rattle.std.specs.Coded.{codes};
    ghost use Rattle.mdf_conv.specs.contracts.row.Ref as refs;

    ghost Value = { Script };

    ghost coded = { Prim.hlevel (codes, refs.the_row.coded) };

    ghost view = { λ rotation. record { plan = rotation.plan; lists = map (λ list. list.items) rotation.lists.items } };

    ghost invariant = { λ rotation. IsRotatable (record { plan = rotation.plan; lists = map (λ list. list.items) rotation.lists.items }) };
}

/// The lists of tasks, of which the first can be taken.
fn queues_of(alloc: Global, lists: &mut Rows<Rows<Task>>) -> Result<Vec<VecDeque<Task>>, Memory>
    ensures lists { IfOk result (λ queues. map (λ queue. queue.items) queues.items ≡ lists.old) }
    ensures back { OnErr result (lists.new ≡ lists.old) }
{
    let mut queues = Vec::with_capacity(alloc, lists.len() as usize)?;
    for list in std::mem::replace(lists, Rows::empty(alloc)).into_vec() {
        queues.push_reserved(VecDeque::from_vec(list.into_vec()));
    }
    Ok(queues)
}

impl Rotation {
    /// Begins to part a script. It takes no memory but for a list of the sources.
    ///
    /// # Errors
    /// `Large` exactly where a session has no room for one of its samples, with what the first of these costs, by its source and
    /// then by its place, and with the limit. The script comes back.
    pub fn begin(alloc: Global, script: Script) -> Result<Rotation, (RotateFault, Script)>
        requires script { IsScript script }
        ensures begun { IfOk result (λ rotation. rotation ≡ script) }
        ensures room { IfOk result AllHaveRoom }
        ensures fault { IfErr result (λ refused. RotateFaultComes script refused.0) }
        ensures back { IfErr result (λ refused. refused.1 ≡ script) }
    {
        if let Some(size) = large_of(&script) {
            let limit = script.plan.session;
            return Err((RotateFault::Large { size, limit }, script));
        }
        let mut script = script;
        match queues_of(alloc, &mut script.lists) {
            Ok(lists) => Ok(Rotation {
                plan: script.plan,
                lists,
            }),
            Err(Memory) => Err((RotateFault::Memory, script)),
        }
    }

    /// The next part, and what is left behind it.
    ///
    /// # Errors
    /// Want of memory, with which the rotation ends.
    pub fn next_part(self, alloc: Global) -> Result<(Script, Rotation), Memory>
        ensures part { IfOk result (λ cut. IsPart self cut.0 cut.1) }
        ensures script { IfOk result (λ cut. IsScript cut.0) }
    {
        let Rotation { plan, lists } = self;
        let part = part_plan(alloc, &plan)?;
        let filling = begun(alloc, lists)?;
        let filled = fill(alloc, &plan, filling)?;
        let (parts, lists) = parted(alloc, filled)?;
        Ok((
            Script {
                plan: part,
                lists: parts,
            },
            Rotation { plan, lists },
        ))
    }

    /// Whether no task is left.
    pub fn is_done(&self) -> bool
        ensures { result ≡ is_done self.now.lists }
    {
        for list in self.lists.as_slice() {
            if !list.is_empty() {
                return false;
            }
        }
        true
    }
}
