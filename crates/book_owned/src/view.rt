ghost use Rattle.std.specs.Prelude.{◌≡◌, ◌+◌, ◌^◌, ◌<◌, ℕ, Bool, true, List, [], ◌++◌, length, OnOk, OnErr};
ghost use Rattle.std.specs.Arc.{arc_value};
ghost use mathlib.Core.List.{IsPrefix};
ghost use Rattle.mdf_num.specs.Halt.{Wants};
ghost use Rattle.mdf_layout.specs.declared.sample.Sample.{Sample};

use mdf_layout::Chunk;
use mdf_num::Memory;
use std::sync::{Arc, Wait};
use std::thread::Threads;

/// Who is shown the samples that are kept.
pub trait Shown {
    /// What tells a reader of it how much is shown.
    type Note: Drop;

    /// Whether a publishing may want memory.
    ghost may_want: { Bool } = { true };

    /// A list of samples that may be the one that is shown. A view that only counts does not tell them apart.
    ghost shows: { Self → List Sample → Type 0 };

    /// A list of samples that readers may see: what is shown, and what could not be shown for want of memory.
    ghost hands: { Self → List Sample → Type 0 };

    /// How many samples are shown.
    ghost count: { Self → ℕ };

    /// Which view it is.
    ghost which: { Self → ℕ };

    /// What a note tells of: which view, and a list of samples that may be the one that was shown when it was made.
    ghost tells: { Self.Note → ℕ → List Sample → Type 0 };

    /// Shows the samples of this chunk too. What was handed to readers before has to begin what is shown with them.
    ///
    /// # Errors
    /// Want of memory: what is shown is as before.
    fn publish<R: Threads + Wait + Sync>(
        &mut self,
        rt: &R,
        chunk: &Arc<Chunk>,
    ) -> Result<(), Memory>
        requires room { count self.old + length (arc_value chunk.now) < 2 ^ 64 }
        requires handed { (shown : List Sample) × shows self.old shown
            × ((handed : List Sample) → hands self.old handed → IsPrefix handed (shown ++ arc_value chunk.now)) }
        ensures ok { OnOk result ((shown : List Sample) → shows self.old shown → shows self.new (shown ++ arc_value chunk.now)) }
        ensures counted { OnOk result (count self.new ≡ count self.old + length (arc_value chunk.now)) }
        ensures err { OnErr result ((shown : List Sample) → shows self.old shown → shows self.new shown) }
        ensures as_before { OnErr result (count self.new ≡ count self.old) }
        ensures handed { (shown : List Sample) → shows self.old shown
            → ((handed : List Sample) → hands self.old handed → IsPrefix handed (shown ++ arc_value chunk.now))
            → (handed : List Sample) → hands self.new handed → IsPrefix handed (shown ++ arc_value chunk.now) }
        ensures same { which self.new ≡ which self.old }
        ensures wants { OnErr result (Wants may_want) };

    /// How many samples are shown.
    fn shown(&self) -> u64
        ensures { result ≡ count self.now };

    /// A note of what is shown now.
    fn told(&mut self) -> Self::Note
        ensures note { (shown : List Sample) → shows self.old shown → tells result (which self.old) shown }
        ensures shown { (shown : List Sample) → shows self.old shown → shows self.new shown }
        ensures handed { (handed : List Sample) → hands self.new handed → hands self.old handed }
        ensures counted { count self.new ≡ count self.old }
        ensures same { which self.new ≡ which self.old };
}

/// A view that counts and shows nobody anything. It wants no memory.
#[derive(Debug, Drop)]
pub struct NoView {
    count: u64,
}

impl NoView {
    pub fn new() -> NoView
        ensures { result.count ≡ 0 }
    {
        NoView { count: 0 }
    }
}

impl Shown for NoView {
    ghost use Rattle.std.specs.Prelude.{◌≡◌, false, [], length};

    type Note = ();

    ghost may_want = { false };

    ghost shows = { λ view samples. length samples ≡ view.count };

    ghost hands = { λ view samples. samples ≡ [] };

    ghost count = { λ view. view.count };

    ghost which = { λ view. 0 };

    ghost tells = { λ note which shown. Unit {0} };

    fn publish<R: Threads + Wait + Sync>(
        &mut self,
        _rt: &R,
        chunk: &Arc<Chunk>,
    ) -> Result<(), Memory> {
        self.count += chunk.len();
        Ok(())
    }

    fn shown(&self) -> u64 {
        self.count
    }

    fn told(&mut self) {}
}
