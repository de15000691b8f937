ghost use Rattle.std.specs.Prelude.{List, [], ◌++◌};
ghost use Rattle.acq_run.specs.Feeds.{Feeds};
ghost use Rattle.acq_run.specs.declared.feed.Fed.{Fed};

use mdf_layout::Sample;
use std::sync::Wait;

/// What a source hands in next.
#[derive(Debug, Drop)]
pub enum Fed {
    /// A sample.
    Sample(Sample),
    /// All samples so far are to be durable.
    Flush,
    /// Nothing more comes.
    End,
}

/// Where a source has its samples and its flushes from.
pub trait Feed {
    /// From the one to the other it handed in just these samples and flushes, in order.
    ghost hands: { Self → List Fed → Self → Type 0 };

    /// This is what it handed in last, and it was not asked since.
    ghost waits: { Self → Fed → Type 0 };

    /// Nothing more comes of it.
    ghost ends: { Self → Type 0 };

    /// What comes next. It may wait until something comes.
    fn next<R: Wait>(&mut self, rt: &R) -> Fed
        ensures { Feeds hands waits ends self.old result self.new };

    /// Nothing more is asked of it, be it that it ended or that its last was not done.
    fn leave(&mut self)
        ensures hands { hands self.old [] self.new }
        ensures waits { (task : Fed) → waits self.old task → waits self.new task }
        ensures ends { ends self.old → ends self.new };

    /// One that is the same handed in nothing.
    ghost hands_none: { (feed : Self) → hands feed [] feed };

    /// What was handed in in two steps was handed in.
    ghost hands_more: { (first second third : Self) (some more : List Fed) → hands first some second → hands second more third → hands first (some ++ more) third };
}
