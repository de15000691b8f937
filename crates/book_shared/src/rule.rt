//! The rule of the table of a shared book, and the names of a seat's steps.
ghost use Rattle.book_shared.specs.Rule.{Runs};
ghost use Rattle.book_shared.specs.Plays.{Looks, Takes, Gives, TakesDevice, BringsOut, BringsIn, GivesDevice};
ghost use Rattle.book_shared.specs.Parts.{kept_part, split_part, joined, spent};
ghost use Rattle.book_shared.specs.Fixed.{basis_of, first_view};
ghost use Rattle.std.specs.Prelude.{false, true};

use crate::fixed::Fixed;
use crate::half::Half;
use crate::view::View;
use atomic_table::{Join, Play, Split, TableRule};
use book_owned::{Back, Front, Shown};
use mdf_disk::Disk;

/// The rule of the turn and of the device.
pub struct Running;

impl<D: Disk, V: Shown> TableRule<Half<Front<V>, Back<D>>, View, Fixed<Front<V>, Back<D>>>
    for Running {
    ghost holds = { λ fixed. Runs D.Disk (basis_of D.Disk fixed) };

    ghost first = { λ fixed. first_view (basis_of D.Disk fixed) };
}

/// A load of the turn word.
pub struct Look;

impl<D: Disk, V: Shown> Play<Half<Front<V>, Back<D>>, View> for Look {
    ghost then = { Looks };
}

/// An exchange that takes the front where it wins.
pub struct Take;

impl<D: Disk, V: Shown> Play<Half<Front<V>, Back<D>>, View> for Take {
    ghost then = { Takes };
}

/// A store that gives the front back.
pub struct Give;

impl<D: Disk, V: Shown> Play<Half<Front<V>, Back<D>>, View> for Give {
    ghost then = { Gives false };
}

/// A store that gives the front back after a flush, whose mark was asked for.
pub struct GiveAsked;

impl<D: Disk, V: Shown> Play<Half<Front<V>, Back<D>>, View> for GiveAsked {
    ghost then = { Gives true };
}

/// An exchange that takes the device where it wins.
pub struct TakeDevice;

impl<D: Disk, V: Shown> Play<Half<Front<V>, Back<D>>, View> for TakeDevice {
    ghost then = { TakesDevice };
}

/// A load of the device's word, by which the back goes out to write.
pub struct BringOut;

impl<D: Disk, V: Shown> Play<Half<Front<V>, Back<D>>, View> for BringOut {
    ghost then = { BringsOut D.Disk };
}

/// A load of the device's word, by which the back comes into its slot again.
pub struct BringIn;

impl<D: Disk, V: Shown> Play<Half<Front<V>, Back<D>>, View> for BringIn {
    ghost then = { BringsIn };
}

/// A store that gives the device back.
pub struct GiveDevice;

impl<D: Disk, V: Shown> Play<Half<Front<V>, Back<D>>, View> for GiveDevice {
    ghost then = { GivesDevice };
}

/// A seat keeps its first source, and a new one has the others.
pub struct Part;

impl Split<View> for Part {
    ghost left = { kept_part };

    ghost right = { split_part };
}

/// A seat has the sources of two.
pub struct Both;

impl Join<View> for Both {
    ghost both = { joined };

    ghost spent = { spent };
}
