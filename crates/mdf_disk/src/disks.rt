ghost use Rattle.std.specs.Prelude.{◌≡◌, ◌∷◌, ◌++◌, List, [], None};
ghost use Rattle.mdf_disk.specs.State.{state_of};
ghost use Rattle.mdf_disk.specs.Served.{Served, handed_out, taken_back};

use crate::Disk;

/// Disks that are handed out one behind the other, and taken back when they are done with.
pub trait Disks {
    /// A disk of these.
    type Disk: Disk + Send + Drop;

    /// From the one to the other it handed out just these disks and took back just these, in this order.
    ghost serves: { Self → List Served → Self → Type 0 };

    /// The next disk, of which nothing was asked yet.
    fn next(&mut self) -> Self::Disk
        ensures asked { Self.Disk.asked result ≡ None }
        ensures serves { serves self.old (handed_out (state_of Self.Disk.Disk result) ∷ []) self.new };

    /// Takes back a disk.
    fn keep(&mut self, disk: Self::Disk)
        ensures { serves self.old (taken_back (state_of Self.Disk.Disk disk) ∷ []) self.new };

    /// Those that are the same handed out and took back nothing.
    ghost serves_none: { (disks : Self) → serves disks [] disks };

    /// What was served in two steps was served.
    ghost serves_more: { (first second third : Self) (some more : List Served) → serves first some second → serves second more third → serves first (some ++ more) third };
}
