ghost use Rattle.std.specs.Prelude.{◌≡◌, ◌⊎◌, IfOk, IfErr};
ghost use mathlib.Core.List.{IsPrefix};
ghost use Rattle.book_view.specs.Known.{Grows, refused_once};

use crate::copies::{Sees, StoreReader};
use crate::front::Front;
use crate::{Told, View};
use std::marker::Model;

/// A reader of a view. It knows the samples that it has seen in its views, and those of the notes that it learnt: they are
/// all beginnings of one list, so the longest of them is enough.
#[derive(Drop)]
pub struct LiveReader {
    reader: StoreReader,
    front: Front,
    refusals: u64,
    views: u64,
}

impl Model for LiveReader {
    ghost use Rattle.std.specs.Prelude.{◌≡◌};
    ghost use Rattle.left_right.specs.Sides.{view as knows};
    ghost use Rattle.book_view.specs.Known.{Known};
    ghost use Rattle.book_view.specs.Names.{code_of, name_of};

    ghost Value = { Known };

    ghost view = { λ r. record { samples = r.front.seen.log; which = code_of r.front.seen.book; refusals = r.refusals; views = r.views } };

    ghost invariant = { λ r. knows r.reader.place ≡ name_of r.front.seen.book };
}

impl LiveReader {
    ghost use Rattle.left_right.specs.Sides.{view as knows};
    ghost use Rattle.book_view.specs.Names.{code_of, name_of};

    /// A reader that knows these samples, was refused so often and took so many views.
    pub(crate) fn knowing(
        reader: StoreReader,
        front: Front,
        refusals: u64,
        views: u64,
    ) -> LiveReader
        requires { knows reader.place ≡ name_of front.seen.book }
        ensures { result ≡ record { samples = front.seen.log; which = code_of front.seen.book; refusals = refusals; views = views } }
    {
        LiveReader {
            reader,
            front,
            refusals,
            views,
        }
    }

    /// Learns a note of the view that it reads. Each later view begins with what the note tells of.
    pub fn learn(&mut self, note: Told)
        requires { note.which ≡ self.old.which }
        ensures seen { IsPrefix self.old.samples self.new.samples }
        ensures told { IsPrefix note.samples self.new.samples }
        ensures either { (self.new.samples ≡ self.old.samples) ⊎ (self.new.samples ≡ note.samples) }
        ensures same { (self.new.which ≡ self.old.which) × (self.new.refusals ≡ self.old.refusals) }
        ensures views { self.new.views ≡ self.old.views }
    {
        if note.front.is_begun_by(&self.front) {
            self.front = note.front.again();
        }
    }

    /// How often a view was refused.
    pub fn refusals(&self) -> u64
        ensures { result ≡ self.now.refusals }
    {
        self.refusals
    }

    /// How many views it took, up to the last value of the type.
    pub fn views(&self) -> u64
        ensures { result ≡ self.now.views }
    {
        self.views
    }

    /// Takes a view of what is shown now. It begins with all that the reader has seen in earlier views, and with what each
    /// note that it learnt tells of.
    ///
    /// # Errors
    /// The reader, which was refused once more and knows what it knew.
    pub fn view(self) -> Result<View, LiveReader>
        ensures view { IfOk result (λ view. Grows self view) }
        ensures refused { IfErr result (λ reader. reader ≡ refused_once self) }
    {
        let LiveReader {
            reader,
            front,
            refusals,
            views,
        } = self;
        match reader.enter_as::<Sees>() {
            Ok(reading) => {
                let shown = reading.get().front.again();
                if shown.is_begun_by(&front) {
                    return Ok(View::of(reading, shown, refusals, views.saturating_add(1)));
                }
                let reader = reading.leave();
                Err(LiveReader::knowing(reader, front, refusals.saturating_add(1), views))
            }
            Err(reader) => Err(LiveReader::knowing(
                reader,
                front,
                refusals.saturating_add(1),
                views,
            )),
        }
    }
}
