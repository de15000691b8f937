//! Views: one that wants memory once, and one that a reader looks at.
ghost use Rattle.std.specs.Prelude.{◌≡◌, ◌≤◌, [], ◌∷◌, All, IfOk, length};
ghost use Rattle.mdf_layout.specs.Layout.{Layout};
ghost use Rattle.mdf_layout.specs.Written.{AreApart};
ghost use Rattle.mdf_layout.specs.Stored.{IsStored};

use crate::books::{SESSION, file_failing_at, is_admitted, shapes};
use crate::layouts::sample;
use book_owned::{Book, Flush, Shown};
use book_view::{LiveReader, LiveView};
use mdf_disk::MemoryDisk;
use mdf_layout::{Chunk, Sample, Shape, Shapes};
use mdf_num::Memory;
use std::alloc::Global;
use std::process::Abort;
use std::sync::{Arc, Wait};
use std::test::Fail;
use std::thread::Threads;

/// A view that counts, and finds no memory at its second publishing.
#[derive(Drop)]
pub struct WantsOnce {
    count: u64,
    published: u8,
}

impl WantsOnce {
    pub fn new() -> WantsOnce
        ensures { result.count ≡ 0 }
    {
        WantsOnce {
            count: 0,
            published: 0,
        }
    }
}

impl Shown for WantsOnce {
    ghost use Rattle.std.specs.Prelude.{◌≡◌, [], length};

    type Note = ();

    ghost shows = { λ view samples. length samples ≡ view.count };

    ghost hands = { λ view samples. samples ≡ [] };

    ghost count = { λ view. view.count };

    ghost which = { λ view. 0 };

    ghost tells = { λ note which shown. Unit {0} };

    fn publish<R: Threads + Wait + Sync>(
        &mut self,
        _rt: &R,
        chunk: &Arc<Chunk>,
    ) -> Result<(), Memory> {
        self.published = self.published.saturating_add(1);
        if self.published == 2 {
            return Err(Memory);
        }
        self.count += chunk.len();
        Ok(())
    }

    fn shown(&self) -> u64 {
        self.count
    }

    fn told(&mut self) {}
}

/// A book and a reader of its view.
struct Watched {
    book: Book<MemoryDisk, LiveView>,
    reader: LiveReader,
    ghost same: { reader.which ≡ book.terms.which },
}

/// A book over a new file, with a reader of its view.
fn begin_watched<R: AllocGlobal + Abort + Wait>(rt: &R, shapes: Shapes) -> Result<Watched, Fail>
    requires one { (shape : Layout) × (shapes ≡ shape ∷ []) × (length shape.rows ≤ 128) × AreApart shape.rows × All IsStored shape.rows }
    ensures { IfOk result (λ watched. watched.book.terms.layouts ≡ shapes) }
{
    let file = file_failing_at(rt, &[])?;
    let (view, mut readers) = match LiveView::begin(rt, rt.alloc(), 2) {
        Ok(begun) => begun,
        Err(memory) => {
            drop(file.into_disk());
            return Err(memory.into());
        }
    };
    let Some(reader) = readers.pop() else {
        unreachable!()
    };
    match Book::begin(rt.alloc(), file, shapes, 65_536, SESSION, view) {
        Ok(book) => Ok(Watched { book, reader }),
        Err((memory, file, view)) => {
            drop(file.into_disk());
            view.end(rt);
            Err(memory.into())
        }
    }
}

/// Appends a sample, whatever the answer.
fn append<R>(rt: &R, shape: &Shape, watched: &mut Watched, sample: Sample)
where
    R: AllocGlobal + Abort + Threads + Wait + Sync,
    requires { watched.old.book.terms.layouts ≡ shape.now ∷ [] }
    ensures { watched.new.book.terms ≡ watched.old.book.terms }
{
    assert!(rt; is_admitted(shape, &watched.book, &sample));
    let _answer = watched.book.append(rt, sample);
}

/// Flushes, and lets the reader learn the note.
fn flush<R: Threads + Wait + Sync>(rt: &R, watched: Watched) -> Watched
    ensures { result.book.terms ≡ watched.book.terms }
{
    let Watched {
        mut book,
        mut reader,
    } = watched;
    if let Flush::Done { note, .. } = book.flush(rt) {
        reader.learn(note);
    }
    Watched { book, reader }
}

/// How many samples the reader sees, or the last number where it is refused.
fn look(watched: Watched) -> (Watched, u64)
    ensures { result.0.book.terms ≡ watched.book.terms }
{
    let Watched { book, reader } = watched;
    match reader.view() {
        Ok(view) => {
            let count = view.len();
            let reader = view.leave();
            (Watched { book, reader }, count)
        }
        Err(reader) => (Watched { book, reader }, u64::MAX),
    }
}

/// What the reader sees, and what it sees after a flush.
fn looked_twice<R: Threads + Wait + Sync>(rt: &R, watched: Watched) -> (Watched, [u64; 2])
    ensures { result.0.book.terms ≡ watched.book.terms }
{
    let (watched, before) = look(watched);
    let (watched, after) = look(flush(rt, watched));
    (watched, [before, after])
}

/// Closes the book.
fn close<R: Wait>(rt: &R, watched: Watched) {
    let Watched { book, reader: _ } = watched;
    let (_, _, _, view) = book.close();
    view.end(rt);
}

/// What the reader sees before the first flush, after two samples, after their flush, after one sample more, and after its
/// flush.
fn seen<R>(rt: &R, shape: &Shape, watched: Watched, samples: (Sample, Sample, Sample)) -> [u64; 5]
where
    R: AllocGlobal + Abort + Threads + Wait + Sync,
    requires { watched.book.terms.layouts ≡ shape.now ∷ [] }
{
    let (first, second, third) = samples;
    let (mut watched, nothing) = look(watched);
    append(rt, shape, &mut watched, first);
    append(rt, shape, &mut watched, second);
    let (mut watched, [pending, two]) = looked_twice(rt, watched);
    append(rt, shape, &mut watched, third);
    let (watched, [still_two, three]) = looked_twice(rt, watched);
    close(rt, watched);
    [nothing, pending, two, still_two, three]
}

/// The samples 1, 2 and 3.
fn three(alloc: Global) -> Result<(Sample, Sample, Sample), Memory> {
    let first = sample(alloc, &[1])?;
    let second = sample(alloc, &[2])?;
    Ok((first, second, sample(alloc, &[3])?))
}

/// The layout of a channel, and a book of it with a reader of its view.
fn watched_of<R: AllocGlobal + Abort + Wait>(rt: &R) -> Result<(Shape, Watched), Fail>
    ensures { IfOk result (λ begun. begun.1.book.terms.layouts ≡ begun.0 ∷ []) }
{
    let (shape, shapes) = shapes(rt)?;
    Ok((shape, begin_watched(rt, shapes)?))
}

#[test]
fn a_view_after_the_first_note(rt: HostRuntime) -> Result<(), Fail> {
    let samples = three(rt.alloc())?;
    let (shape, watched) = watched_of(&rt)?;
    assert_eq!(rt; seen(&rt, &shape, watched, samples), [0, 0, 2, 2, 3]);
    Ok(())
}
