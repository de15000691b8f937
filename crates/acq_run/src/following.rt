ghost use Rattle.std.specs.Prelude.{◌≤◌, ◌++◌, ℕ, List, [], ◌∷◌, length, take};
ghost use mathlib.Core.List.{IsPrefix};
ghost use Rattle.mdf_layout.specs.declared.sample.Sample.{Sample};

use book_owned::Shown;

/// Who is told of each flush of a source that was done.
pub trait Follower<V: Shown> {
    /// What is so of it where its source has seen this history, and the book has the view of this number.
    ghost follows: { Self → ℕ → List Sample → Type 0 };

    /// From the one to the other it was told of just the flushes at which so many samples were shown, in order.
    ghost hears: { Self → List ℕ → Self → Type 0 };

    /// After a flush: so many samples of the history are shown, and this is the note of it.
    fn follow(&mut self, shown: u64, note: V::Note)
        requires { (which : ℕ) × (seen : List Sample) × follows self.old which seen × (shown ≤ length seen) × V.tells note which (take shown seen) }
        ensures follows { (which : ℕ) (seen : List Sample) → follows self.old which seen → V.tells note which (take shown seen) → follows self.new which seen }
        ensures heard { hears self.old (shown ∷ []) self.new };

    /// It stays so when the source has seen more.
    ghost stays: { (follower : Self) (which : ℕ) (seen more : List Sample) → follows follower which seen → IsPrefix seen more → follows follower which more };

    /// Nothing was told to one that is the same.
    ghost hears_none: { (follower : Self) → hears follower [] follower };

    /// What was told in two steps was told.
    ghost hears_more: { (first second third : Self) (shown more : List ℕ) → hears first shown second → hears second more third → hears first (shown ++ more) third };
}
