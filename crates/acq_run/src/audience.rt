ghost use Rattle.std.specs.Prelude.{◌≡◌, ◌≤◌, ◌<◌, ◌+◌, ◌^◌, List, [], ◌++◌, true, length, map, All, IfOk, IsOk, OnOk, OnErr, MatchBool, Some, None};
ghost use mathlib.Core.List.{IsPrefix};
ghost use Rattle.mdf_num.specs.Halt.{Wants};
ghost use Rattle.std.specs.Option.{option_map};
ghost use Rattle.std.specs.Arc.{arc_value};
ghost use Rattle.mdf_layout.specs.Chunked.{joined};
ghost use Rattle.mdf_layout.specs.declared.sample.Sample.{Sample};
ghost use Rattle.acq_run.specs.Audience.{shows_in, hands_in, count_in, which_in, shown_to};
ghost use Rattle.acq_run.specs.Watching.{IsFresh, Watches};

use crate::Watcher;
use book_owned::{NoView, Shown};
use book_view::{LiveReader, LiveView, Told};
use mdf_layout::{Chunk, Chunks};
use mdf_num::Memory;
use std::alloc::Global;
use std::sync::{Arc, Wait};
use std::thread::Threads;

/// Who looks at a recording. It is not `Drop`: end it by `end`.
pub enum Audience {
    /// Nobody: what is shown is counted alone.
    Nobody(NoView),
    /// Readers, who look at a view.
    Readers(LiveView),
}

/// So many watchers with no reader.
fn without_readers(alloc: Global, count: u8) -> Result<Vec<Watcher>, Memory>
    ensures count { IfOk result (λ made. length made.items ≡ count) }
    ensures made { IfOk result (λ made. All (λ watcher. watcher ≡ record { reader = None; told = 0; flushes = 0 }) made.items) }
{
    let mut made = Vec::new(alloc);
    for _ in 0..count {
        made.push(Watcher::new(None))?;
    }
    Ok(made)
}

/// A watcher for each reader, in order.
fn with_readers(alloc: Global, readers: Vec<LiveReader>) -> Result<Vec<Watcher>, Memory>
    ensures { IfOk result (λ made. made.items ≡ map (λ reader. record { reader = Some reader; told = 0; flushes = 0 }) readers.items) }
{
    let mut made = Vec::new(alloc);
    for reader in readers {
        made.push(Watcher::new(Some(reader)))?;
    }
    Ok(made)
}

impl Audience {
    /// An audience that is shown nothing yet, and a watcher for each of so many sources, at most 16. The watchers have readers
    /// where the recording is looked at live.
    ///
    /// # Errors
    /// Want of memory.
    pub fn begin<R: Wait>(
        rt: &R,
        alloc: Global,
        live: bool,
        sources: u8,
    ) -> Result<(Audience, Vec<Watcher>), Memory>
        requires { (1 ≤ sources) × (sources ≤ 16) }
        ensures shown { IfOk result (λ made. shows_in made.0 [] × (count_in made.0 ≡ 0)) }
        ensures handed { IfOk result (λ made. (handed : List Sample) → hands_in made.0 handed → handed ≡ []) }
        ensures which { IfOk result (λ made. MatchBool live (0 < which_in made.0) (which_in made.0 ≡ 0)) }
        ensures count { IfOk result (λ made. length made.1.items ≡ sources) }
        ensures watch { IfOk result (λ made. All (λ watcher. Watches watcher (which_in made.0) []) made.1.items) }
        ensures fresh { IfOk result (λ made. All IsFresh made.1.items) }
    {
        if !live {
            let watchers = without_readers(alloc, sources)?;
            return Ok((Audience::Nobody(NoView::new()), watchers));
        }
        let (view, readers) = LiveView::begin(rt, alloc, sources)?;
        match with_readers(alloc, readers) {
            Ok(watchers) => Ok((Audience::Readers(view), watchers)),
            Err(memory) => {
                drop(view.end(rt));
                Err(memory)
            }
        }
    }

    /// Ends the view that readers look at, and hands back the chunks that were shown. It waits for those who still look. None
    /// exactly where nobody looks.
    pub fn end<R: Wait>(self, rt: &R) -> Option<Chunks>
        ensures { option_map joined result ≡ shown_to self }
    {
        match self {
            Audience::Nobody(_view) => None,
            Audience::Readers(view) => Some(view.end(rt)),
        }
    }
}

impl Shown for Audience {
    ghost use Rattle.acq_run.specs.Audience.{shows_in, hands_in, count_in, which_in, tells_of};

    type Note = Option<Told>;

    ghost shows = { shows_in };

    ghost hands = { hands_in };

    ghost count = { count_in };

    ghost which = { which_in };

    ghost tells = { tells_of };

    fn publish<R: Threads + Wait + Sync>(
        &mut self,
        rt: &R,
        chunk: &Arc<Chunk>,
    ) -> Result<(), Memory>
        requires room { count_in self.old + length (arc_value chunk.now) < 2 ^ 64 }
        requires handed { (shown : List Sample) × shows_in self.old shown
            × ((handed : List Sample) → hands_in self.old handed → IsPrefix handed (shown ++ arc_value chunk.now)) }
        ensures ok { OnOk result ((shown : List Sample) → shows_in self.old shown → shows_in self.new (shown ++ arc_value chunk.now)) }
        ensures counted { OnOk result (count_in self.new ≡ count_in self.old + length (arc_value chunk.now)) }
        ensures err { OnErr result ((shown : List Sample) → shows_in self.old shown → shows_in self.new shown) }
        ensures as_before { OnErr result (count_in self.new ≡ count_in self.old) }
        ensures handed { (shown : List Sample) → shows_in self.old shown
            → ((handed : List Sample) → hands_in self.old handed → IsPrefix handed (shown ++ arc_value chunk.now))
            → (handed : List Sample) → hands_in self.new handed → IsPrefix handed (shown ++ arc_value chunk.now) }
        ensures same { which_in self.new ≡ which_in self.old }
        ensures wants { OnErr result (Wants true) }
        ensures nobody { which_in self.old ≡ 0 → IsOk result }
    {
        match self {
            Audience::Nobody(view) => view.publish(rt, chunk),
            Audience::Readers(view) => view.publish(rt, chunk),
        }
    }

    fn shown(&self) -> u64 {
        match self {
            Audience::Nobody(view) => view.shown(),
            Audience::Readers(view) => view.shown(),
        }
    }

    fn told(&mut self) -> Option<Told> {
        match self {
            Audience::Nobody(_view) => None,
            Audience::Readers(view) => Some(view.told()),
        }
    }
}
