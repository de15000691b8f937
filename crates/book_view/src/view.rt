ghost use Rattle.std.specs.Prelude.{◌≡◌, [], length, get_or, slice_get};
ghost use Rattle.std.specs.Option.{option_copied};
ghost use Rattle.mdf_layout.specs.Chunked.{joined};
ghost use Rattle.book_view.specs.Latest.{latest_of};

use crate::LiveReader;
use crate::copies::StoreReading;
use crate::front::Front;
use mdf_layout::{Chunks, Sample};
use std::marker::Model;

/// What a reader looks at. The samples stay as they are until it leaves, and the writer waits for it before it changes them.
/// It is not `Drop`: end it by `leave`.
pub struct View {
    reading: StoreReading,
    front: Front,
    refusals: u64,
    views: u64,
}

impl Model for View {
    ghost use Rattle.std.specs.Prelude.{◌≡◌};
    ghost use Rattle.left_right.specs.Sides.{view as knows};
    ghost use Rattle.mdf_layout.specs.Chunked.{joined};
    ghost use Rattle.book_view.specs.Known.{Known};
    ghost use Rattle.book_view.specs.Names.{code_of, name_of};

    ghost Value = { Known };

    ghost view = { λ v. record { samples = v.front.seen.log; which = code_of v.front.seen.book; refusals = v.refusals; views = v.views } };

    ghost invariant = { λ v. (knows v.reading.place ≡ name_of v.front.seen.book) × (joined v.reading.part.value.chunks ≡ v.front.seen.log) };
}

/// The last of these samples that is of a group.
fn latest_in(samples: &[Sample], group: u16) -> Option<&Sample>
    ensures { option_copied result ≡ latest_of group samples.now }
{
    samples.iter().rev().find(|sample| sample.group == group)
}

/// The last sample of chunk `k` that is of a group.
fn latest_at(chunks: &Chunks, k: u64, group: u16) -> Option<&Sample>
    ensures { option_copied result ≡ latest_of group (get_or chunks.now k []) }
{
    match chunks.chunk(k) {
        Some(chunk) => latest_in(chunk.as_slice(), group),
        None => None,
    }
}

impl View {
    ghost use Rattle.left_right.specs.Sides.{view as knows};
    ghost use Rattle.book_view.specs.Names.{code_of, name_of};

    /// The view of an entered copy, which is this beginning of the log.
    pub(crate) fn of(reading: StoreReading, front: Front, refusals: u64, views: u64) -> View
        requires named { knows reading.place ≡ name_of front.seen.book }
        requires whole { joined reading.part.value.chunks ≡ front.seen.log }
        ensures { result ≡ record { samples = front.seen.log; which = code_of front.seen.book; refusals = refusals; views = views } }
    {
        View {
            reading,
            front,
            refusals,
            views,
        }
    }

    /// Leaves the copy. The reader has then seen the samples of the view.
    pub fn leave(self) -> LiveReader
        ensures { result ≡ self }
    {
        let View {
            reading,
            front,
            refusals,
            views,
        } = self;
        LiveReader::knowing(reading.leave(), front, refusals, views)
    }

    /// How many samples are shown.
    pub fn len(&self) -> u64
        ensures { result ≡ length self.now.samples }
    {
        self.front.len()
    }

    /// Sample `i`, counted from 0. None exactly at or past the end.
    pub fn get(&self, i: u64) -> Option<&Sample>
        ensures { option_copied result ≡ slice_get self.now.samples i }
    {
        self.reading.get().chunks.get(i)
    }

    /// The last sample of a group. None exactly where no sample is of it.
    pub fn latest(&self, group: u16) -> Option<&Sample>
        ensures { option_copied result ≡ latest_of group self.now.samples }
    {
        let chunks = &self.reading.get().chunks;
        let mut behind = chunks.count();
        while behind > 0 {
            behind -= 1;
            match latest_at(chunks, behind, group) {
                Some(sample) => return Some(sample),
                None => {}
            }
        }
        None
    }
}
