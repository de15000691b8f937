ghost use Rattle.std.specs.Prelude.{◌≡◌, ◌+◌, ◌^◌, ◌≤◌, ◌<◌, length, drop, All, MatchBool, OnOk};
ghost use mathlib.Core.List.{IsPrefix};
ghost use Rattle.mdf_layout.specs.Chunked.{joined, AreSealed};
ghost use Rattle.mdf_layout.specs.declared.sample.Sample.{Sample};
ghost use Rattle.mdf_layout.specs.Record.{SampleFits, encoded_size, cost_of, history_size};
ghost use Rattle.book_owned.specs.Marks.{last_mark};
ghost use Rattle.book_owned.specs.Shared.{IsShared};
ghost use Rattle.book_owned.specs.Answers.{ShowsUpto};
ghost use Rattle.book_owned.specs.Holds.{IsCounted, IsPut};
ghost use Rattle.book_owned.specs.FrontHalf.{ShowTells};

use crate::in_memory::InMemory;
use crate::{Flush, Mark, Marks, Shown};
use mdf_layout::{Sample, Samples, Shapes};
use mdf_num::Memory;
use std::sync::Wait;
use std::thread::Threads;

/// Finds room for one sample more, and for two marks: that of a hand-over on the way, and
/// that of the sample itself.
pub(crate) fn reserve<V>(front: &mut InMemory<V>) -> Result<(), Memory>
    ensures rest { front.new ≡ record front.old { history = front.new.history; marks = front.new.marks } }
    ensures history { front.new.history.items ≡ front.old.history.items }
    ensures chunks { front.new.history.chunks ≡ front.old.history.chunks }
    ensures marks { front.new.marks.items ≡ front.old.marks.items }
    ensures spare { front.old.marks.spare ≤ front.new.marks.spare }
    ensures room { OnOk result ((1 ≤ front.new.history.spare) × (2 ≤ front.new.marks.spare)) }
{
    front.history.reserve(1)?;
    front.marks.reserve(2)
}

/// Puts a sample behind the history, and its records behind the pending ones. It takes no memory.
#[inline(always)]
pub(crate) fn accept<V>(front: &mut InMemory<V>, sample: Sample)
    requires counted { IsCounted front.old }
    requires fits { SampleFits front.old.shapes sample }
    requires room { 1 ≤ front.old.history.spare }
    requires block { length front.old.block.bytes + encoded_size front.old.shapes sample ≤ front.old.block.limit }
    requires session { front.old.held + cost_of front.old.shapes sample ≤ front.old.session_limit }
    ensures put { IsPut front.old front.new sample }
{
    let size = front.block.put_sample(&front.next, &front.shapes, &sample);
    front.next.pass(&front.shapes, &sample);
    front.held += front.shapes.cost_with(&sample, size);
    front.history.put(sample);
}

/// Seals the samples before there. Where no memory is found the chunks stay.
fn seal<V>(front: &mut InMemory<V>, upto: u64)
    requires sealed { length (joined front.old.history.chunks) ≤ upto }
    requires within { upto ≤ length front.old.history.items }
    ensures rest { front.new ≡ record front.old { history = front.new.history } }
    ensures history { front.new.history.items ≡ front.old.history.items }
    ensures room { front.old.history.spare ≤ front.new.history.spare }
    ensures stay { IsPrefix front.old.history.chunks front.new.history.chunks }
    ensures upto { length (joined front.new.history.chunks) ≤ upto }
    ensures sealed { AreSealed front.new.history.chunks front.new.history.items }
    ensures few { length (joined front.new.history.chunks) < 2 ^ 64 }
{
    match front.history.seal(upto) {
        Ok(()) => {}
        Err(_) => {}
    }
}

/// Shows the chunk behind those that are shown. Answers whether there was one that found memory.
fn show_next<V: Shown, R: Threads + Wait + Sync>(history: &Samples, view: &mut V, rt: &R) -> bool
    requires shared { IsShared V.Shown view.old history.now.chunks }
    requires few { length (joined history.now.chunks) < 2 ^ 64 }
    ensures shared { IsShared V.Shown view.new history.now.chunks }
    ensures which { V.which view.new ≡ V.which view.old }
    ensures more { MatchBool result (V.count view.old < V.count view.new) (V.count view.new ≡ V.count view.old) }
    ensures within { V.count view.new ≤ length (joined history.now.chunks) }
{
    match history.chunk_from(view.shown()) {
        Some(chunk) => match view.publish(rt, chunk) {
            Ok(()) => true,
            Err(_) => false,
        },
        None => false,
    }
}

/// Shows the chunks that are not shown yet, one after the other, until one finds no memory.
fn show_all<V: Shown, R: Threads + Wait + Sync>(history: &Samples, view: &mut V, rt: &R)
    requires shared { IsShared V.Shown view.old history.now.chunks }
    requires few { length (joined history.now.chunks) < 2 ^ 64 }
    ensures shared { IsShared V.Shown view.new history.now.chunks }
    ensures which { V.which view.new ≡ V.which view.old }
    ensures more { V.count view.old ≤ V.count view.new }
{
    while show_next(history, view, rt) {}
}

/// Seals the samples before there, and publishes the chunks that are not shown yet. Where sealing or the view finds no memory
/// the view shows what it showed then.
pub(crate) fn publish<V: Shown, R: Threads + Wait + Sync>(
    front: &mut InMemory<V>,
    rt: &R,
    upto: u64,
)
    requires shared { IsShared V.Shown front.old.view front.old.history.chunks }
    requires sealed { length (joined front.old.history.chunks) ≤ upto }
    requires within { upto ≤ length front.old.history.items }
    ensures shared { IsShared V.Shown front.new.view front.new.history.chunks }
    ensures begins { IsPrefix (joined front.new.history.chunks) front.new.history.items }
    ensures upto { length (joined front.new.history.chunks) ≤ upto }
    ensures rest { front.new ≡ record front.old { history = front.new.history; view = front.new.view } }
    ensures history { front.new.history.items ≡ front.old.history.items }
    ensures room { front.old.history.spare ≤ front.new.history.spare }
    ensures which { V.which front.new.view ≡ V.which front.old.view }
    ensures count { ShowsUpto V.Shown front.old.view front.new.view upto }
{
    seal(front, upto);
    show_all(&front.history, &mut front.view, rt);
}

/// Publishes the samples before `through`, which are those that are durable, and answers how many are shown.
pub(crate) fn show<V: Shown, R: Threads + Wait + Sync>(
    front: &mut InMemory<V>,
    rt: &R,
    through: u64,
) -> Flush<V::Note>
    requires shared { IsShared V.Shown front.old.view front.old.history.chunks }
    requires sealed { length (joined front.old.history.chunks) ≤ through }
    requires within { through ≤ length front.old.history.items }
    ensures shared { IsShared V.Shown front.new.view front.new.history.chunks }
    ensures begins { IsPrefix (joined front.new.history.chunks) front.new.history.items }
    ensures upto { length (joined front.new.history.chunks) ≤ through }
    ensures rest { front.new ≡ record front.old { history = front.new.history; view = front.new.view } }
    ensures history { front.new.history.items ≡ front.old.history.items }
    ensures room { front.old.history.spare ≤ front.new.history.spare }
    ensures which { V.which front.new.view ≡ V.which front.old.view }
    ensures tells { ShowTells V.Shown front.old front.new through result }
{
    publish(front, rt, through);
    Flush::Done {
        through,
        shown: front.view.shown(),
        note: front.view.told(),
    }
}

/// How many bytes the records of these samples have.
fn size_of(shapes: &Shapes, samples: &[Sample]) -> u64
    requires fit { All (SampleFits shapes.now) samples.now }
    requires few { history_size shapes.now samples.now < 2 ^ 64 }
    ensures { result ≡ history_size shapes.now samples.now }
{
    let mut size = 0;
    for sample in samples {
        size += shapes.encoded_size(sample);
    }
    size
}

/// How many bytes the records of the samples from there on have.
pub(crate) fn size_behind<V>(front: &InMemory<V>, from: u64) -> u64
    requires counted { IsCounted front.now }
    requires within { from ≤ length front.now.history.items }
    ensures { result ≡ history_size front.now.shapes (drop from front.now.history.items) }
{
    let len = front.history.len();
    let mut size = 0;
    let mut at = from;
    while at < len {
        let part = front.history.part_from(at);
        size += size_of(&front.shapes, part);
        at += part.len() as u64;
    }
    size
}

/// The last mark.
pub(crate) fn last_mark(marks: &Marks) -> Mark
    ensures { result ≡ last_mark marks.now.items }
{
    match marks.get(marks.len().saturating_sub(1)) {
        Some(mark) => *mark,
        None => Mark {
            moment: 0,
            through: 0,
        },
    }
}
