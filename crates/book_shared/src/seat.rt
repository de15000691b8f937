//! The seats of a shared book.
use crate::half::Half;
use crate::view::View;
use atomic_table::{Badge, Seat};
use book_owned::{Back, Front};
use std::marker::Model;

/// A seat at the table, which can hold the front and the back.
pub(crate) type Chair<D, V> = Seat<Half<Front<V>, Back<D>>, View>;

/// The seat of a source at a shared book: the right to append samples of the source's groups, and what the seat knows of the
/// one history.
#[derive(Drop)]
pub struct SourceSeat {
    pub(crate) badge: Badge<View>,
    pub(crate) number: u8,
    pub(crate) owners: [u8; 64],
}

impl Model for SourceSeat {
    ghost use Rattle.book_shared.specs.Place.{Place, known, IsSeat};

    ghost Value = { Place };

    ghost view = { λ seat. record { table = seat.badge.table_id; number = seat.number; know = known seat.badge.views } };

    ghost invariant = { λ seat. IsSeat seat.badge.views seat.owners seat.number };
}

impl SourceSeat {
    ghost use Rattle.std.specs.Prelude.{◌≡◌, ◌==◌, slice_index};

    /// The number of the source, counted from 0.
    pub fn number(&self) -> u8
        ensures { result ≡ self.now.number }
    {
        self.number
    }

    /// Whether the source owns a group, by its number.
    pub fn owns(&self, group: u16) -> bool
        ensures { result ≡ (slice_index self.now.know.basis.owners group == self.now.number) }
    {
        if group as usize >= self.owners.len() {
            return self.number == 0;
        }
        self.owners[group as usize] == self.number
    }
}
