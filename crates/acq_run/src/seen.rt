ghost use Rattle.std.specs.Prelude.{◌≡◌};
ghost use Rattle.acq_run.specs.Ran.{seen_by};

use book_shared::SourceSeat;
use std::marker::Model;
use std::snapshot::Snapshot;

/// What each source has seen of the one history when all have worked, in the order of their numbers: a beginning of it, up to
/// the source's last turn. It has no bytes, and clauses alone read it.
#[derive(Drop)]
pub struct Seen {
    seats: Snapshot<Vec<SourceSeat>>,
}

impl Model for Seen {
    ghost use Rattle.std.specs.Prelude.{List};
    ghost use Rattle.mdf_layout.specs.declared.sample.Sample.{Sample};
    ghost use Rattle.acq_run.specs.Ran.{seen_by};

    ghost Value = { List (List Sample) };

    ghost view = { λ seen. seen_by seen.seats.value.items };
}

impl Seen {
    /// What the sources of these seats have seen, in the order of the seats.
    pub fn by(seats: &Vec<SourceSeat>) -> Seen
        ensures { result ≡ seen_by seats.now.items }
    {
        Seen {
            seats: Snapshot::of(seats),
        }
    }
}
