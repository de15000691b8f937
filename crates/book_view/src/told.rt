ghost use Rattle.std.specs.Prelude.{◌≡◌, length};

use crate::front::Front;
use std::marker::Model;

/// A note of what a view showed.
#[derive(Drop)]
pub struct Told {
    pub(crate) front: Front,
}

impl Model for Told {
    ghost use Rattle.book_view.specs.Known.{Note};
    ghost use Rattle.book_view.specs.Names.{code_of};

    ghost Value = { Note };

    ghost view = { λ t. record { samples = t.front.seen.log; which = code_of t.front.seen.book } };
}

impl Told {
    /// How many samples were shown when it was made.
    pub fn count(&self) -> u64
        ensures { result ≡ length self.now.samples }
    {
        self.front.len()
    }
}
