//! What a front refuses, hands over, and takes in again.
ghost use Rattle.std.specs.Prelude.{◌≡◌, ◌+◌, ◌≤◌, [], true, false, IfSome, IfNone};
ghost use Rattle.mdf_layout.specs.Record.{SampleFits, encoded_size, cost_of};
ghost use Rattle.book_owned.specs.Answers.{IsRefusal, accepted_by};
ghost use Rattle.book_owned.specs.Holds.{IsCounted};
ghost use Rattle.book_owned.specs.FrontHalf.{front_account, IsFront, IsAwaited, PutTells, HandTells, FinishTells, FinishEvents};

use crate::front::{last_mark, show};
use crate::in_memory::InMemory;
use crate::{Append, Flush, Handed, Shown, Written};
use mdf_layout::Sample;
use std::mem::replace;
use std::sync::Wait;
use std::thread::Threads;

/// Why a sample of this encoded size is not taken, before room for it is looked for.
pub(crate) fn refusal<V: Shown>(front: &InMemory<V>, sample: &Sample, size: u64) -> Option<Append>
    requires counted { IsCounted front.now }
    requires fits { SampleFits front.now.shapes sample.now }
    requires size { size ≡ encoded_size front.now.shapes sample.now }
    requires block { encoded_size front.now.shapes sample.now ≤ front.now.block.limit }
    ensures going { IfNone result (front.now.stopped ≡ false) }
    ensures room { IfNone result (front.now.held + cost_of front.now.shapes sample.now ≤ front.now.session_limit) }
    ensures refused { IfSome result (λ answer. PutTells (front_account V.Shown front.now) (front_account V.Shown front.now) sample.now answer) }
    ensures accepts { IfSome result (λ answer. accepted_by answer sample.now ≡ []) }
    ensures before_memory { IfSome result IsRefusal }
{
    if front.stopped {
        return Some(Append::Stopped {
            mark: last_mark(&front.marks),
        });
    }
    let cost = front.shapes.cost_with(sample, size);
    if front.held + cost > front.session_limit {
        return Some(Append::SessionFull {
            held: front.held,
            size: cost,
            limit: front.session_limit,
        });
    }
    None
}

/// Gives the block of the pending records out, and goes on with the spare one. It takes no memory.
pub(crate) fn hand_over<V: Shown>(front: &mut InMemory<V>) -> Handed
    requires front { IsFront V.Shown front.old }
    requires spare { (front_account V.Shown front.old).spare ≡ true }
    ensures front { IsFront V.Shown front.new }
    ensures tells { HandTells (front_account V.Shown front.old) (front_account V.Shown front.new) result }
    ensures samples { front.new.history ≡ front.old.history }
    ensures marks { front.new.marks ≡ front.old.marks }
{
    if front.stopped {
        return Handed::Stopped {
            mark: last_mark(&front.marks),
        };
    }
    if front.block.is_empty() {
        return Handed::Nothing;
    }
    let Some(spare) = front.spare.take() else {
        unreachable!()
    };
    let block = replace(&mut front.block, spare);
    let through = front.history.len();
    front.from = through;
    Handed::Given { through, block }
}

/// Takes in what became of the block that was handed over, or `Nothing` where none was.
pub(crate) fn finish<V: Shown, R: Threads + Wait + Sync>(
    front: &mut InMemory<V>,
    rt: &R,
    written: Written,
) -> Flush<V::Note>
    requires front { IsFront V.Shown front.old }
    requires awaited { IsAwaited (front_account V.Shown front.old) written }
    ensures front { IsFront V.Shown front.new }
    ensures tells { FinishTells V.Shown (front_account V.Shown front.old) (front_account V.Shown front.new) written result }
    ensures events { FinishEvents V.count (front_account V.Shown front.old) (front_account V.Shown front.new) written }
    ensures samples { front.old.history.spare ≤ front.new.history.spare }
    ensures marks { front.old.marks.spare ≤ front.new.marks.spare + 1 }
{
    match written {
        Written::Done { mark, mut block } => {
            front.marks.put(mark);
            let answer = show(front, rt, mark.through);
            block.clear();
            front.spare = Some(block);
            answer
        }
        Written::DiskFault {
            before,
            after,
            mut block,
        } => {
            front.stopped = true;
            block.clear();
            front.spare = Some(block);
            Flush::DiskFault { before, after }
        }
        Written::Nothing => {
            let through = last_mark(&front.marks).through;
            show(front, rt, through)
        }
    }
}
