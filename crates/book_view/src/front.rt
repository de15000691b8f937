//! Beginnings of the log.
ghost use Rattle.std.specs.Prelude.{◌≡◌, ◌+◌, ◌^◌, ◌<◌, [], ◌∷◌, ◌++◌, length, MatchBool};
ghost use mathlib.Core.List.{IsPrefix};
ghost use Rattle.book_view.specs.Log.{head_of};

use logbook::{Gain, Offer, Plain, Play, Rule, Seen, Start, Word};
use mdf_layout::Sample;

/// The rule of the log: a word has its length.
pub(crate) struct Law;

impl Rule<Sample, u64> for Law {
    ghost use Rattle.std.specs.Prelude.{[]};
    ghost use base.Fml.{ftrue};
    ghost use Rattle.book_view.specs.Log.{IsKept};

    ghost holds = { IsKept };

    ghost first = { [] };

    ghost hinted = { λ n log. Unit {0} };

    ghost shows = { λ log. [] };

    ghost keeps = { λ names log. ftrue };

    ghost moves = { λ ask before after answer. Unit {0} };
}

/// Who adds to the log trades nothing.
struct Nothing;

impl Gain<Sample, u64> for Nothing {
    ghost use base.Fml.{ftrue};

    ghost after = { λ names about answer. ftrue };
}

/// The step that adds a sample.
struct Add;

impl Play<Sample, u64> for Add {
    ghost use Rattle.book_view.specs.Log.{Adds};

    ghost then = { Adds };
}

impl Plain<Sample, Sample, u64> for Add {
    ghost use Rattle.std.specs.Prelude.{None};

    ghost ask = { λ sample. sample };

    ghost state = { λ sample. None };
}

/// The length of the log. One writer has it, and only who has it adds to the log.
#[derive(Drop)]
pub(crate) struct Head {
    pub(crate) word: Word<Sample, u64, Law>,
}

/// A beginning of the log: how many samples it has. A copy of it is a number, whatever the samples are.
#[derive(Drop)]
pub(crate) struct Front {
    count: u64,
    pub(crate) seen: Seen<Sample, u64, Law>,
    ghost counted: { count ≡ length seen.log },
}

/// How far the writer is along the log.
#[derive(Drop)]
pub(crate) struct Fronts {
    /// What readers see.
    pub(crate) shown: Front,
    /// All of the log: what the copies have or were to take in.
    pub(crate) log: Front,
}

impl Front {
    /// A new log, which is empty.
    pub(crate) fn open() -> (Head, Front)
        ensures head { result.0.word ≡ head_of result.1.seen.book }
        ensures empty { result.1.seen.log ≡ [] }
    {
        let (seen, mut first, _second) = Seen::open(Start::alone(), 0, 0);
        let word = Word::tracked(0, &mut first);
        (Head { word }, Front { count: 0, seen })
    }

    /// A copy. It takes no memory.
    pub(crate) fn again(&self) -> Front
        ensures { result ≡ self.now }
    {
        Front {
            count: self.count,
            seen: self.seen.again(),
        }
    }

    /// How many samples it has.
    pub(crate) fn len(&self) -> u64
        ensures { result ≡ length self.now.seen.log }
    {
        self.count
    }

    /// Whether the other, which is of the same log, begins this one. If not, this one begins the other.
    pub(crate) fn is_begun_by(&self, other: &Front) -> bool
        requires { other.now.seen.book ≡ self.now.seen.book }
        ensures { MatchBool result (IsPrefix other.now.seen.log self.now.seen.log) (IsPrefix self.now.seen.log other.now.seen.log) }
    {
        let mut both = self.seen.again();
        both.learn(&other.seen);
        other.count <= self.count
    }

    /// Adds a sample to the log, and says whether it did. It did not where this is not all of the log.
    pub(crate) fn add(&mut self, head: &Head, sample: &Sample) -> bool
        requires head { head.now.word ≡ head_of self.old.seen.book }
        requires room { length self.old.seen.log + 1 < 2 ^ 64 }
        ensures added { MatchBool result (self.new.seen.log ≡ self.old.seen.log ++ sample.now ∷ []) (self.new ≡ self.old) }
        ensures book { self.new.seen.book ≡ self.old.seen.book }
    {
        let mut seen = self.seen.again();
        let mut offer: Offer<Sample, u64, Law, Nothing> = seen.plain::<Nothing, Sample, Add>(
            sample,
        );
        let mut pen = seen.no_pen();
        let count = self.count;
        let found = head
            .word
            .compare_exchange::<Add, Nothing>(count, count + 1, &mut seen, &mut offer, &mut pen);
        if found != count {
            return false;
        }
        *self = Front {
            count: count + 1,
            seen,
        };
        true
    }
}
