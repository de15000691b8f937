ghost use Rattle.std.specs.Prelude.{ℕ, suc, ◌≡◌, ◌≤◌, List, [], ◌∷◌, length, take, All};
ghost use Rattle.std.specs.Option.{ForSome};
ghost use Rattle.mdf_layout.specs.declared.sample.Sample.{Sample};
ghost use Rattle.acq_run.specs.Audience.{tells_of};
ghost use Rattle.acq_run.specs.Watching.{AnyLooks, Hears, Looks, Watches, counted, told_with};

use crate::{Audience, Follower};
use book_view::{LiveReader, Told};

/// The reader of a source, where the recording is looked at live, how many samples were shown at the source's flushes so far,
/// at most, and how many flushes those were, up to the last value of the type.
#[derive(Drop)]
pub struct Watcher {
    pub(crate) reader: Option<LiveReader>,
    pub(crate) told: u64,
    pub(crate) flushes: u64,
}

/// The reader when it has learnt the note, taken a view and left it. Where the view was refused it knows what the note tells
/// of all the same.
pub fn look(mut reader: LiveReader, note: Told) -> LiveReader
    requires { note.which ≡ reader.which }
    ensures { Looks reader note result }
{
    reader.learn(note);
    match reader.view() {
        Ok(view) => view.leave(),
        Err(reader) => reader,
    }
}

/// The same, where there is a reader.
fn any_looks(reader: Option<LiveReader>, note: Told) -> Option<LiveReader>
    requires { ForSome reader (λ reader. note.which ≡ reader.which) }
    ensures { AnyLooks reader note result }
{
    match reader {
        Some(reader) => Some(look(reader, note)),
        None => None,
    }
}

/// How many samples a reader finds shown when it has learnt this note: the fewer of those that it finds in a view and those
/// that the note tells of, or the latter where the view is refused.
fn found(mut reader: LiveReader, note: Told) -> u64
    requires { note.which ≡ reader.which }
    ensures { result ≡ length note.samples }
{
    let told = note.count();
    reader.learn(note);
    match reader.view() {
        Ok(view) => {
            let shown = view.len();
            drop(view.leave());
            shown.min(told)
        }
        Err(_) => told,
    }
}

/// The reader of the first of these watchers, where it has one.
fn first_reader(watchers: Vec<Watcher>) -> Option<LiveReader>
    ensures { (which : ℕ) (seen : List Sample) → All (λ watcher. Watches watcher which seen) watchers.items → ForSome result (λ reader. suc reader.which ≡ which) }
{
    match watchers.into_iter().next() {
        Some(Watcher { reader, .. }) => reader,
        None => None,
    }
}

/// How many samples the first of these watchers finds shown, by a view that it takes when it has learnt this note. None
/// exactly where there is no note.
pub fn last_look(watchers: Vec<Watcher>, note: Option<Told>) -> Option<u64>
    requires { (which : ℕ) × (seen : List Sample) × All (λ watcher. Watches watcher which seen) watchers.items × ForSome note (λ note. suc note.which ≡ which) }
    ensures { result ≡ counted note }
{
    let note = note?;
    match first_reader(watchers) {
        Some(reader) => Some(found(reader, note)),
        None => Some(note.count()),
    }
}

impl Watcher {
    /// A watcher that no flush has told anything.
    pub(crate) fn new(reader: Option<LiveReader>) -> Watcher
        ensures { result ≡ record { reader = reader; told = 0; flushes = 0 } }
    {
        Watcher {
            reader,
            told: 0,
            flushes: 0,
        }
    }
}

impl Follower<Audience> for Watcher {
    ghost use Rattle.acq_run.specs.Watching.{Hears, Watches};
    ghost use Rattle.acq_run.specs.Stays.{hears_none, hears_more, watches_on};

    ghost follows = { Watches };

    ghost hears = { Hears };

    ghost stays = { watches_on };

    ghost hears_none = { hears_none };

    ghost hears_more = { hears_more };

    fn follow(&mut self, _shown: u64, note: Option<Told>)
        requires { (which : ℕ) × (seen : List Sample) × Watches self.old which seen × (_shown ≤ length seen) × tells_of note which (take _shown seen) }
        ensures follows { (which : ℕ) (seen : List Sample) → Watches self.old which seen → tells_of note which (take _shown seen) → Watches self.new which seen }
        ensures heard { Hears self.old (_shown ∷ []) self.new }
        ensures told { self.new.told ≡ told_with self.old.told note }
    {
        self.flushes = self.flushes.saturating_add(1);
        if let Some(note) = note {
            self.told = self.told.max(note.count());
            self.reader = any_looks(self.reader.take(), note);
        }
    }
}
