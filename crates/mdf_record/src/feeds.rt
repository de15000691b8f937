// A recording of feeds, one for each source of a plan.
ghost use Rattle.std.specs.Prelude.{◌≡◌, ◌≤◌, List, [], length, IfOk, IfErr};
ghost use Rattle.book_owned.specs.Begun.{HasBegun, IsAdmissible, IsNewFile};
ghost use Rattle.acq_run.specs.Audience.{count_in, hands_in, shows_in};
ghost use Rattle.acq_script.specs.declared.script.Plan.{Plan};
ghost use Rattle.mdf_layout.specs.declared.sample.Sample.{Sample};
ghost use Rattle.mdf_record.specs.Feeds.{HaveFed, IsReadyFor};
ghost use Rattle.mdf_record.specs.Record.{outcome};
ghost use Rattle.mdf_record.specs.Work.{HasNotWorked, IsPrepared, IsUnrecorded, MayWork, Works};

use crate::record::{Recorded, close, finish, refused};
use crate::sources::{Accepted, add_none, told_all};
use acq_run::{Audience, Driven, Feed, Gathered, Seen, Unshared, Watcher, last_look, record_live};
use book_owned::{Book, Shown};
use mdf_command::Fault;
use mdf_disk::Disk;
use mdf_gate::GatedFile;
use mdf_layout::Shapes;
use mdf_num::Memory;
use std::alloc::Global;
use std::sync::Wait;
use std::thread::Threads;

/// What a recording takes of its plan: the layouts of the groups, the source of each group, the limits, and whether samples are
/// shown while it is made.
#[derive(Drop)]
pub struct Setting<'a> {
    pub shapes: Shapes,
    pub owners: &'a [u8],
    pub block: u32,
    pub session: u64,
    pub live: bool,
}

/// What a recording of feeds leaves: the recording, the feeds wherever they stand, and what each source did, in order. No source
/// did anything where no book was begun, or where memory was wanted for their work.
pub struct RecordedFeeds<C, F> {
    pub recorded: Recorded<C>,
    pub feeds: Vec<F>,
    pub all: Vec<Driven>,
}

/// Room for the numbers of so many sources.
fn room_for(alloc: Global, sources: u8) -> Result<Accepted, Memory>
    ensures none { IfOk result (λ accepted. accepted.items ≡ []) }
    ensures room { IfOk result (λ accepted. sources ≤ accepted.spare) }
{
    let mut accepted = Accepted::empty(alloc);
    accepted.reserve(sources as u64)?;
    Ok(accepted)
}

/// What the sources of a recording work with beside their feeds: room for the numbers of each, and a watcher for each.
#[derive(Drop)]
struct Prepared {
    accepted: Accepted,
    watchers: Vec<Watcher>,
}

/// Prepares so many sources, and a view, with a reader for each source where the recording is looked at live.
fn prepare<R: Wait>(
    rt: &R,
    alloc: Global,
    live: bool,
    sources: u8,
) -> Result<(Prepared, Audience), Memory>
    requires sources { (1 ≤ sources) × (sources ≤ 16) }
    ensures prepared { IfOk result (λ made. IsPrepared live sources made.0 made.1) }
{
    let accepted = room_for(alloc, sources)?;
    let (view, watchers) = Audience::begin(rt, alloc, live, sources)?;
    Ok((Prepared { accepted, watchers }, view))
}

/// Begins a book over the file, with this view. Where memory is wanted the view is ended, and the disk handed back.
fn begin<R: Wait, C: Disk>(
    rt: &R,
    alloc: Global,
    file: GatedFile<C>,
    shapes: Shapes,
    block: u32,
    session: u64,
    view: Audience,
) -> Result<Book<C, Audience>, C>
    requires created { IsNewFile C.Disk file }
    requires admissible { IsAdmissible shapes block session }
    requires shown { shows_in view [] × (count_in view ≡ 0) }
    requires handed { (handed : List Sample) → hands_in view handed → handed ≡ [] }
    ensures begun { IfOk result (λ book. HasBegun C.Disk ⟦<Audience as Shown>⟧ file shapes block session view book) }
    ensures back { IfErr result (λ out. out ≡ file.disk) }
{
    match Book::begin(alloc, file, shapes, block, session, view) {
        Ok(book) => Ok(book),
        Err((_, file, view)) => {
            view.end(rt);
            Err(file.into_disk())
        }
    }
}

/// A recording that was not begun, for want of memory, and the feeds as they are.
fn unrecorded<C, F: Drop>(alloc: Global, out: C, feeds: Vec<F>) -> RecordedFeeds<C, F>
    ensures { IsUnrecorded out feeds.items result }
{
    RecordedFeeds {
        recorded: refused(alloc, Fault::Memory, out),
        feeds,
        all: Vec::new(alloc),
    }
}

/// Closes a book that none of the sources could work at, for want of memory.
fn give_up<R: Wait, C: Disk, F: Drop>(
    rt: &R,
    alloc: Global,
    book: Book<C, Audience>,
    mut accepted: Accepted,
    feeds: Vec<F>,
) -> RecordedFeeds<C, F>
    requires none { accepted.items ≡ [] }
    requires room { length feeds.items ≤ accepted.spare }
    ensures gives_up { HasNotWorked C.Disk book feeds.items result }
{
    add_none(&mut accepted, feeds.len());
    let none = Vec::new(alloc);
    let seen = Seen::by(&none);
    RecordedFeeds {
        recorded: close(rt, book, accepted, None, Some(Fault::Memory), seen),
        feeds,
        all: Vec::new(alloc),
    }
}

/// Lets the sources record into a book with no sample, each in a thread of its own, and closes the book. Each watcher that has
/// a reader looks at what is shown after each flush of its source.
fn work<R: Threads + Wait + Sync, C: Disk + Send, F: Feed + Send + Drop>(
    rt: &R,
    alloc: Global,
    book: Book<C, Audience>,
    owners: &[u8],
    live: bool,
    prepared: Prepared,
    feeds: Vec<F>,
) -> RecordedFeeds<C, F>
    requires may { MayWork F.hands owners.now book prepared feeds.items }
    ensures works { Works C.Disk F.hands F.waits F.ends owners.now book feeds.items live result }
{
    let Prepared {
        mut accepted,
        watchers,
    } = prepared;
    match record_live(rt, alloc, book, owners, feeds, watchers) {
        Ok(gathered) => {
            let Gathered {
                mut book,
                all,
                seen,
                feeds,
                watchers,
            } = gathered;
            let driven = told_all(all.as_slice(), &mut accepted);
            let (fault, note) = finish(rt, &mut book, live, driven);
            let live = last_look(watchers, note);
            RecordedFeeds {
                recorded: close(rt, book, accepted, live, fault, seen),
                feeds,
                all,
            }
        }
        Err(
            Unshared {
                book,
                feeds,
                watchers: _watchers,
            },
        ) => give_up(rt, alloc, book, accepted, feeds),
    }
}

/// Records what these feeds hand in, one for each source of a plan, into a file that was just created, and closes the book when each
/// has ended or its next was not done. Each works in a thread of its own.
pub fn record_feeds<R: Threads + Wait + Sync, C: Disk + Send, F: Feed + Send + Drop>(
    rt: &R,
    alloc: Global,
    setting: Setting,
    file: GatedFile<C>,
    feeds: Vec<F>,
) -> RecordedFeeds<C, F>
    requires created { IsNewFile C.Disk file }
    requires ready { (plan : Plan) × IsReadyFor F.hands plan setting feeds.items }
    ensures recorded { (plan : Plan) → IsReadyFor F.hands plan setting.entry feeds.items → HaveFed C.Disk F.hands F.waits F.ends plan file
        (outcome C.Disk result.recorded.out result.recorded.history.items result.recorded.marks.items) result.recorded.end
        feeds.items result.feeds.items result.all.items }
{
    let Setting {
        shapes,
        owners,
        block,
        session,
        live,
    } = setting;
    let Ok((prepared, view)) = prepare(rt, alloc, live, feeds.len() as u8) else {
        return unrecorded(alloc, file.into_disk(), feeds);
    };
    match begin(rt, alloc, file, shapes, block, session, view) {
        Ok(book) => work(rt, alloc, book, owners, live, prepared, feeds),
        Err(out) => unrecorded(alloc, out, feeds),
    }
}
