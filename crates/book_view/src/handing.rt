//! What the writer hands to the copies.
ghost use Rattle.std.specs.Prelude.{◌≡◌, ◌+◌, ◌^◌, ◌<◌, ◌≤◌, ◌++◌, length, drop, MatchResult, OnOk};
ghost use Rattle.std.specs.Bool.{OnTrue};
ghost use Rattle.std.specs.Arc.{arc_value};
ghost use mathlib.Core.List.{IsPrefix};
ghost use Rattle.left_right.specs.Sides.{view as knows};
ghost use Rattle.book_view.specs.Log.{head_of};
ghost use Rattle.book_view.specs.Handed.{Leads, Pends, IsHeld};

use crate::copies::{Sees, StoreWriter};
use crate::front::{Front, Fronts, Head};
use crate::store::Addition;
use mdf_layout::{Chunk, Sample};
use mdf_num::Memory;
use std::sync::{Arc, Wait};

/// Adds samples to the log, and says whether it added them all.
fn lengthen(head: &Head, log: &mut Front, samples: &[Sample]) -> bool
    requires head { head.now.word ≡ head_of log.old.seen.book }
    requires room { length log.old.seen.log + length samples.now < 2 ^ 64 }
    ensures all { OnTrue result (log.new.seen.log ≡ log.old.seen.log ++ samples.now) }
    ensures grows { IsPrefix log.old.seen.log log.new.seen.log }
    ensures within { IsPrefix log.new.seen.log (log.old.seen.log ++ samples.now) }
    ensures book { log.new.seen.book ≡ log.old.seen.book }
{
    for sample in samples {
        if !log.add(head, sample) {
            return false;
        }
    }
    true
}

/// The samples behind the first so many.
fn without(samples: &[Sample], first: u64) -> &[Sample]
    requires { first ≤ length samples.now }
    ensures { result.now ≡ drop first samples.now }
{
    &samples[first as usize..]
}

/// Queues a chunk behind what is shown, in place of one that an earlier call queued and could not show. The samples that such
/// a call added to the log are not added once more.
fn queue(
    writer: &mut StoreWriter,
    head: &Head,
    fronts: &mut Fronts,
    chunk: &Arc<Chunk>,
) -> Result<(), Memory>
    requires pends { Pends writer.old.desk.shown.value (drop writer.old.behind writer.old.log.items) fronts.old }
    requires head { head.now.word ≡ head_of fronts.old.shown.seen.book }
    requires room { length fronts.old.shown.seen.log + length (arc_value chunk.now) < 2 ^ 64 }
    requires begun { IsPrefix fronts.old.log.seen.log (fronts.old.shown.seen.log ++ arc_value chunk.now) }
    ensures pends { Pends writer.new.desk.shown.value (drop writer.new.behind writer.new.log.items) fronts.new }
    ensures leads { OnOk result (Leads writer.new.desk.shown.value (drop writer.new.behind writer.new.log.items) fronts.new) }
    ensures desk { writer.new.desk ≡ writer.old.desk }
    ensures shown { fronts.new.shown ≡ fronts.old.shown }
    ensures ok { OnOk result (fronts.new.log.seen.log ≡ fronts.old.shown.seen.log ++ arc_value chunk.now) }
    ensures handed { IsPrefix fronts.new.log.seen.log (fronts.old.shown.seen.log ++ arc_value chunk.now) }
{
    let done = fronts.log.len() - fronts.shown.len();
    if !lengthen(head, &mut fronts.log, without(chunk.as_slice(), done)) {
        return Err(Memory);
    }
    let keep = writer.published().chunks.count();
    let chunk = Arc::try_clone(chunk)?;
    let front = fronts.log.again();
    let Ok(()) = writer.append(Addition { keep, chunk, front }) else {
        return Err(Memory);
    };
    Ok(())
}

/// Shows readers the samples of this chunk too.
pub(crate) fn publish_all<R: Wait>(
    rt: &R,
    mut writer: StoreWriter,
    head: &Head,
    fronts: &mut Fronts,
    chunk: &Arc<Chunk>,
) -> (StoreWriter, Result<(), Memory>)
    requires held { IsHeld writer.desk.shown.value (drop writer.behind writer.log.items) (knows writer.desk.place) head.now.word fronts.old }
    requires room { length fronts.old.shown.seen.log + length (arc_value chunk.now) < 2 ^ 64 }
    requires begun { IsPrefix fronts.old.log.seen.log (fronts.old.shown.seen.log ++ arc_value chunk.now) }
    ensures held { IsHeld result.0.desk.shown.value (drop result.0.behind result.0.log.items) (knows result.0.desk.place) head.now.word fronts.new }
    ensures shown { MatchResult result.1 (λ _. fronts.new.shown.seen.log ≡ fronts.old.shown.seen.log ++ arc_value chunk.now) (λ _. fronts.new.shown ≡ fronts.old.shown) }
    ensures handed { IsPrefix fronts.new.log.seen.log (fronts.old.shown.seen.log ++ arc_value chunk.now) }
    ensures book { fronts.new.shown.seen.book ≡ fronts.old.shown.seen.book }
{
    match queue(&mut writer, head, fronts, chunk) {
        Ok(()) => {
            let (writer, published) = writer.publish_as::<Sees, R>(rt);
            match published {
                Ok(()) => {
                    fronts.shown = fronts.log.again();
                    (writer, Ok(()))
                }
                Err(_) => (writer, Err(Memory)),
            }
        }
        Err(memory) => (writer, Err(memory)),
    }
}
