//! Two sources at work at once.
ghost use Rattle.std.specs.Prelude.{◌≡◌, ◌≤◌, ◌<◌, ◌^◌, [], ◌∷◌, length, All, IfOk};
ghost use Rattle.acq_run.specs.Watching.{Watches};
ghost use Rattle.book_shared_tests.specs.Lists.{IsOf};
ghost use Rattle.book_shared_tests.specs.Words.{AreGroups};

use crate::books::{TestDisk, fits, listed, recording, sample};
use crate::gates::{Gate, LOOKS, Step, wait_for};
use acq_run::{Audience, Driven, Fed, Feed, Gathered, ScriptFeed, Unshared, Watcher, record_live};
use book_owned::Book;
use mdf_layout::{Samples, Shapes};
use mdf_num::{Memory, Rows};
use std::alloc::Global;
use std::process::Abort;
use std::sync::atomic::AtomicBool;
use std::sync::atomic::Ordering::SeqCst;
use std::sync::{Arc, Wait};
use std::test::Fail;
use std::thread::Threads;
use test_rig::is_told;

/// What two sources tell each other, and whether one waited for it in vain.
#[derive(Drop)]
pub struct Meeting {
    begun: AtomicBool,
    accepted: AtomicBool,
    in_vain: AtomicBool,
}

impl Meeting {
    fn new(alloc: Global) -> Result<Arc<Meeting>, Fail> {
        let meeting = Meeting {
            begun: AtomicBool::new(false),
            accepted: AtomicBool::new(false),
            in_vain: AtomicBool::new(false),
        };
        Ok(Arc::new(alloc, meeting)?)
    }

    fn wait_for(&self, told: &AtomicBool) {
        if !wait_for(told, LOOKS) {
            self.in_vain.store(true, SeqCst);
        }
    }

    /// Before a source takes so many items: the first waits until a sample of the second was accepted, and the second until
    /// the first has begun.
    fn pass(&self, is_first: bool, taken: u64) {
        match (is_first, taken) {
            (true, 0) => {
                self.begun.store(true, SeqCst);
                self.wait_for(&self.accepted);
            }
            (false, 0) => self.wait_for(&self.begun),
            (false, 1) => self.accepted.store(true, SeqCst),
            _ => {}
        }
    }
}

/// The feed of a list, which waits for the other source.
#[derive(Drop)]
pub struct Meets {
    list: ScriptFeed,
    is_first: bool,
    taken: u64,
    meeting: Arc<Meeting>,
}

impl Feed for Meets {
    ghost use Rattle.acq_run.specs.Listed.{IsAny, IsBehind, IsEmpty, behind_none, behind_more};

    ghost hands = { λ feed feds later. IsBehind feed.list feds later.list };

    ghost waits = { λ feed task. IsAny feed.list task };

    ghost ends = { λ feed. IsEmpty feed.list };

    ghost hands_none = { λ feed. behind_none feed.list };

    ghost hands_more = { λ first second third. behind_more first.list second.list third.list };

    fn next<R: Wait>(&mut self, rt: &R) -> Fed {
        self.meeting.pass(self.is_first, self.taken);
        self.taken = self.taken.saturating_add(1);
        self.list.next(rt)
    }

    fn leave(&mut self) {
        self.list.leave();
    }
}

/// A sample of this group and number, or a flush where there is no number.
fn item<R: AllocGlobal + Abort>(
    rt: &R,
    shapes: &Shapes,
    group: u16,
    number: Option<u64>,
) -> Result<Fed, Fail>
    ensures { IfOk result (IsOf shapes.now group) }
{
    let Some(number) = number else {
        return Ok(Fed::Flush);
    };
    let sample = sample(rt.alloc(), group, number)?;
    assert!(rt; fits(shapes, &sample));
    Ok(Fed::Sample(sample))
}

/// The list of these.
fn list<R: AllocGlobal + Abort>(
    rt: &R,
    shapes: &Shapes,
    group: u16,
    numbers: &[Option<u64>],
) -> Result<Rows<Fed>, Fail>
    ensures of { IfOk result (All (IsOf shapes.now group)) }
    ensures few { IfOk result (λ list. length list ≤ length numbers.now) }
{
    let mut list = Rows::empty(rt.alloc());
    for number in numbers {
        list.push(item(rt, shapes, group, *number)?)?;
    }
    Ok(list)
}

/// The feed of these.
fn feed<R: AllocGlobal + Abort>(
    rt: &R,
    shapes: &Shapes,
    group: u16,
    numbers: &[Option<u64>],
    meeting: &Arc<Meeting>,
) -> Result<Meets, Fail>
    ensures of { IfOk result (λ feed. All (IsOf shapes.now group) feed.list) }
    ensures few { IfOk result (λ feed. length feed.list ≤ length numbers.now) }
{
    let list = ScriptFeed::new(list(rt, shapes, group, numbers)?);
    Ok(Meets {
        list,
        is_first: group == 0,
        taken: 0,
        meeting: Arc::try_clone(meeting)?,
    })
}

/// The list of two feeds.
fn pair(alloc: Global, first: Meets, second: Meets) -> Result<Vec<Meets>, Fail>
    ensures { IfOk result (λ feeds. feeds.items ≡ first ∷ second ∷ []) }
{
    let mut feeds = Vec::new(alloc);
    feeds.push(first)?;
    feeds.push(second)?;
    Ok(feeds)
}

/// What each source did, each on a line of its own, then the groups of the samples, in order, and whether one waited in vain.
fn told(alloc: Global, all: &[Driven], history: &Samples, in_vain: bool) -> Result<String, Memory> {
    let mut told = String::new(alloc);
    for driven in all {
        write!(told, "{driven:?}\n")?;
    }
    for place in 0..history.len() {
        if let Some(sample) = history.get(place) {
            write!(told, "{} ", sample.group)?;
        }
    }
    write!(told, "in vain {in_vain}")?;
    Ok(told)
}

/// A book that readers may look at.
type WatchedBook = Book<TestDisk, Audience>;

/// A book of these layouts over a new file, at which nobody looks, and the watchers of its two sources.
fn watched_book<R: AllocGlobal + Abort + Wait>(
    rt: &R,
    shapes: Shapes,
) -> Result<(WatchedBook, Vec<Watcher>), Fail>
    requires { AreGroups shapes }
    ensures layouts { IfOk result (λ begun. begun.0.terms.layouts ≡ shapes) }
    ensures limit { IfOk result (λ begun. begun.0.terms.block_limit ≡ 9) }
    ensures empty { IfOk result (λ begun. begun.0.history ≡ []) }
    ensures count { IfOk result (λ begun. length begun.1.items ≡ 2) }
    ensures watch { IfOk result (λ begun. All (λ watcher. Watches watcher begun.0.terms.which []) begun.1.items) }
{
    let file = recording(rt, Gate::new(rt.alloc(), Step::Sync, LOOKS)?)?;
    let (audience, watchers) = match Audience::begin(rt, rt.alloc(), false, 2) {
        Ok(begun) => begun,
        Err(memory) => {
            drop(file.into_disk());
            return Err(memory.into());
        }
    };
    match Book::begin(rt.alloc(), file, shapes, 9, 4096, audience) {
        Ok(book) => Ok((book, watchers)),
        Err((memory, file, audience)) => {
            audience.end(rt);
            drop(file.into_disk());
            Err(memory.into())
        }
    }
}

/// Closes the book, ends its audience, and hands back the samples.
fn close<R: Wait>(rt: &R, book: WatchedBook) -> Samples {
    let (_, history, _, audience) = book.close();
    audience.end(rt);
    history
}

/// Two sources at work over a book of these layouts, with these feeds. Tells what they did.
fn recorded<R>(
    rt: &R,
    listed: Shapes,
    first: Meets,
    second: Meets,
    meeting: &Meeting,
) -> Result<String, Fail>
where
    R: AllocGlobal + Abort + Threads + Wait + Sync,
    requires groups { AreGroups listed }
    requires first { All (IsOf listed 0) first.list }
    requires second { All (IsOf listed 1) second.list }
    requires few { (length first.list < 2 ^ 64) × (length second.list < 2 ^ 64) }
{
    let feeds = pair(rt.alloc(), first, second)?;
    let (book, watchers) = watched_book(rt, listed)?;
    match record_live(rt, rt.alloc(), book, &[0, 1], feeds, watchers) {
        Ok(
            Gathered {
                book,
                all,
                seen: _seen,
                feeds: _feeds,
                watchers: _watchers,
            },
        ) => {
            let history = close(rt, book);
            let in_vain = meeting.in_vain.load(SeqCst);
            Ok(told(rt.alloc(), all.as_slice(), &history, in_vain)?)
        }
        Err(
            Unshared {
                book,
                feeds: _feeds,
                watchers: _watchers,
            },
        ) => {
            drop(close(rt, book));
            Err(Memory.into())
        }
    }
}

/// Two sources at work, the first with these and the second with those. Tells what they did, and whether one waited in vain.
fn met<R>(rt: &R, first: &[Option<u64>], second: &[Option<u64>]) -> Result<String, Fail>
where
    R: AllocGlobal + Abort + Threads + Wait + Sync,
{
    let meeting = Meeting::new(rt.alloc())?;
    let listed = listed(rt)?;
    let first = feed(rt, &listed, 0, first, &meeting)?;
    let second = feed(rt, &listed, 1, second, &meeting)?;
    recorded(rt, listed, first, second, &meeting)
}

// The first source waits until the second one's sample was accepted, and that until the first has begun: one after the other,
// in either order, would wait in vain.
#[test]
fn two_workers_at_once(rt: HostRuntime) -> Result<(), Fail> {
    is_told(
        met(&rt, &[Some(1), None, Some(3)], &[Some(2), None]),
        "Driven { accepted: 2, ended: Done }\nDriven { accepted: 1, ended: Done }\n1 0 0 in vain false",
    )
}
