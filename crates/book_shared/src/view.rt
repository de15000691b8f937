//! What a seat knows.
ghost use Rattle.std.specs.Prelude.{ℕ, Bool, List};
ghost use base.Fml.{ftrue};
ghost use Rattle.mdf_layout.specs.declared.sample.Sample.{Sample};
ghost use Rattle.book_owned.specs.declared.mark.Mark.{Mark};
ghost use Rattle.book_shared.specs.Basis.{Basis, Device, Held, Turn};

use std::marker::Model;

/// What a seat knows of the shared book. It has no bytes: no program reads it, and each step of the seat changes it.
pub struct View {
    /// The turn word that the last step met.
    pub ghost met: { ℕ },
    /// The one that the step before met.
    pub ghost prior: { ℕ },
    /// How many steps were made.
    pub ghost steps: { ℕ },
    /// How many turns were taken.
    pub ghost turns: { ℕ },
    /// The front as each of its turns found it.
    pub ghost found: { List Held },
    /// How often it took the device.
    pub ghost rounds: { ℕ },
    /// Whether the front was stopped when the seat last gave it back.
    pub ghost knows: { Bool },
    /// The history when the seat last gave the front back.
    pub ghost seen: { List Sample },
    /// The marks when the seat last gave the front back.
    pub ghost kept: { List Mark },
    /// How many samples were handed out to be written when the seat last gave the front back.
    pub ghost from: { ℕ },
    /// What the seats knew that were joined into this one: their histories and marks.
    pub ghost olds: { List (List Sample × List Mark) },
    /// Through how many samples the marks go that its flushes made.
    pub ghost asked: { List ℕ },
    /// The samples that it announced when it took the device: each it had to append, and met a full block.
    pub ghost due: { List Sample },
    /// The numbers of the sources that are the seat's, each with the samples of that source that were accepted.
    pub ghost mine: { List (ℕ × List Sample) },
    /// What the seat holds.
    pub ghost turn: { Turn },
    /// What the seat held in its last turn: the front as that turn found it.
    pub ghost last: { Turn },
    /// Whether the seat has the device, and how far it is with it.
    pub ghost device: { Device },
    /// What no call changes.
    pub ghost basis: { Basis },
}

impl Model for View {
    ghost also_owns = { λ _. ftrue };
}
