ghost use Rattle.std.specs.Prelude.{◌≡◌, ◌≤◌, [], All, IfOk, drop, length};
ghost use Rattle.mdf_layout.specs.Chunked.{joined};
ghost use Rattle.left_right.specs.Sides.{view as knows};
ghost use Rattle.book_view.specs.Names.{code_of, name_of};

use crate::copies::{Names, Opens, StoreWriter};
use crate::front::{Front, Fronts, Head};
use crate::handing::publish_all;
use crate::store::Store;
use crate::{LiveReader, Told};
use book_owned::Shown;
use left_right::writer::Writer;
use mdf_layout::{Chunk, Chunks};
use mdf_num::Memory;
use std::alloc::Global;
use std::marker::Model;
use std::sync::{Arc, Wait};
use std::thread::Threads;

/// A view that readers look at while a book shows more. A publishing waits for the readers that still look at what was shown
/// before the last one. It is not `Drop`: end it by `end`.
pub struct LiveView {
    // None only while a publishing has it.
    writer: Option<StoreWriter>,
    head: Head,
    fronts: Fronts,
}

impl Model for LiveView {
    ghost use Rattle.std.specs.Prelude.{drop, IsSomeAnd};
    ghost use Rattle.left_right.specs.Sides.{view as knows};
    ghost use Rattle.book_view.specs.Known.{Live};
    ghost use Rattle.book_view.specs.Names.{code_of};
    ghost use Rattle.book_view.specs.Handed.{IsHeld};

    ghost Value = { Live };

    ghost view = { λ v. record { shown = v.fronts.shown.seen.log; handed = v.fronts.log.seen.log; which = code_of v.fronts.shown.seen.book } };

    ghost invariant = { λ v. IsSomeAnd v.writer (λ w. IsHeld w.desk.shown.value (drop w.behind w.log.items) (knows w.desk.place) v.head.word v.fronts) };
}

/// A reader that knows which log it is, and has seen nothing of it.
fn reader_of(writer: &mut StoreWriter, front: &Front) -> Result<LiveReader, Memory>
    requires named { knows writer.old.desk.place ≡ name_of front.now.seen.book }
    ensures kept { (writer.new.desk.shown ≡ writer.old.desk.shown) × (writer.new.log ≡ writer.old.log) × (writer.new.behind ≡ writer.old.behind) }
    ensures named { knows writer.new.desk.place ≡ knows writer.old.desk.place }
    ensures made { IfOk result (λ reader. reader ≡ record { samples = front.now.seen.log; which = code_of front.now.seen.book; refusals = 0; views = 0 }) }
{
    let Ok(mut reader) = writer.factory().reader() else {
        return Err(Memory);
    };
    reader.learn::<Names>(writer.tell::<Names>());
    Ok(LiveReader::knowing(reader, front.again(), 0, 0))
}

/// So many readers.
fn readers_of(
    alloc: Global,
    writer: &mut StoreWriter,
    front: &Front,
    count: u8,
) -> Result<Vec<LiveReader>, Memory>
    requires named { knows writer.old.desk.place ≡ name_of front.now.seen.book }
    ensures kept { (writer.new.desk.shown ≡ writer.old.desk.shown) × (writer.new.log ≡ writer.old.log) × (writer.new.behind ≡ writer.old.behind) }
    ensures named { knows writer.new.desk.place ≡ knows writer.old.desk.place }
    ensures count { IfOk result (λ made. length made.items ≡ count) }
    ensures made { IfOk result (λ made. All (λ reader. reader ≡ record { samples = front.now.seen.log; which = code_of front.now.seen.book; refusals = 0; views = 0 }) made.items) }
{
    let mut made = Vec::new(alloc);
    for _ in 0..count {
        let reader = reader_of(writer, front)?;
        made.push(reader)?;
    }
    Ok(made)
}

/// An empty copy at the beginning of the log.
fn empty_copy(alloc: Global, front: &Front) -> Store
    ensures { result ≡ record { chunks = []; front = front.now } }
{
    Store {
        chunks: Chunks::empty(alloc),
        front: front.again(),
    }
}

/// The writer of two copies of an empty log, which knows which log it is.
fn writer_of<R: Wait>(
    rt: &R,
    alloc: Global,
    front: &Front,
    readers: u8,
) -> Result<StoreWriter, Memory>
    requires readers { (1 ≤ readers) × (readers ≤ 16) }
    requires empty { front.now.seen.log ≡ [] }
    ensures shown { IfOk result (λ w. w.desk.shown.value ≡ record { chunks = []; front = front.now }) }
    ensures nothing { IfOk result (λ w. drop w.behind w.log.items ≡ []) }
    ensures named { IfOk result (λ w. knows w.desk.place ≡ name_of front.now.seen.book) }
{
    let first = empty_copy(alloc, front);
    let second = empty_copy(alloc, front);
    let Ok(writer) = Writer::new(alloc, first, second, readers as usize) else {
        return Err(Memory);
    };
    let (writer, opened) = writer.publish_as::<Opens, R>(rt);
    match opened {
        Ok(()) => Ok(writer),
        Err(_) => {
            drop(writer.take(rt));
            Err(Memory)
        }
    }
}

impl LiveView {
    /// A view that shows nothing yet, and its readers, at most 16.
    ///
    /// # Errors
    /// Want of memory.
    pub fn begin<R: Wait>(
        rt: &R,
        alloc: Global,
        readers: u8,
    ) -> Result<(LiveView, Vec<LiveReader>), Memory>
        requires { (1 ≤ readers) × (readers ≤ 16) }
        ensures shown { IfOk result (λ made. (made.0.shown ≡ []) × (made.0.handed ≡ [])) }
        ensures count { IfOk result (λ made. length made.1.items ≡ readers) }
        ensures each { IfOk result (λ made. All (λ reader. reader ≡ record { samples = []; which = made.0.which; refusals = 0; views = 0 }) made.1.items) }
    {
        let (head, front) = Front::open();
        let mut writer = writer_of(rt, alloc, &front, readers)?;
        match readers_of(alloc, &mut writer, &front, readers) {
            Ok(made) => {
                let fronts = Fronts {
                    shown: front.again(),
                    log: front,
                };
                let view = LiveView {
                    writer: Some(writer),
                    head,
                    fronts,
                };
                Ok((view, made))
            }
            Err(memory) => {
                drop(writer.take(rt));
                Err(memory)
            }
        }
    }

    /// Ends the view, and hands back the chunks that were shown. It waits for the readers that still look.
    pub fn end<R: Wait>(self, rt: &R) -> Chunks
        ensures { joined result ≡ self.shown }
    {
        let LiveView {
            writer,
            head: _,
            fronts: _,
        } = self;
        match writer {
            Some(writer) => Box::into_inner(writer.take(rt)).chunks,
            None => unreachable!(),
        }
    }
}

impl Shown for LiveView {
    ghost use Rattle.std.specs.Prelude.{◌≡◌, length};

    type Note = Told;

    ghost shows = { λ view samples. samples ≡ view.shown };

    ghost hands = { λ view samples. samples ≡ view.handed };

    ghost count = { λ view. length view.shown };

    ghost which = { λ view. view.which };

    ghost tells = { λ note which shown. (note.samples ≡ shown) × (note.which ≡ which) };

    fn publish<R: Threads + Wait + Sync>(
        &mut self,
        rt: &R,
        chunk: &Arc<Chunk>,
    ) -> Result<(), Memory> {
        match self.writer.take() {
            Some(writer) => {
                let (writer, published) = publish_all(
                    rt,
                    writer,
                    &self.head,
                    &mut self.fronts,
                    chunk,
                );
                match self.writer.replace(writer) {
                    Some(spare) => drop(spare.take(rt)),
                    None => {}
                }
                published
            }
            None => unreachable!(),
        }
    }

    fn shown(&self) -> u64 {
        self.fronts.shown.len()
    }

    fn told(&mut self) -> Told {
        Told {
            front: self.fronts.shown.again(),
        }
    }
}
