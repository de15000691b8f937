//! The rule of the copies.
use crate::store::{Addition, Store};
use atomic_table::{Join, Split};
use crossbeam_utils::rule::{Outcome, Protocol};
use left_right::reader::{Reader, Reading};
use left_right::writer::Writer;

/// The name of the log, for who knows it, or nothing. A clause reads an array as a list, of any length.
pub(crate) type Name = [u64; 0];

/// A copy is a beginning of one log, and who knows a log knows that one.
pub(crate) struct Keeps;

impl Protocol<Store, Name> for Keeps {
    ghost use Rattle.std.specs.Prelude.{[]};
    ghost use Rattle.book_view.specs.Copies.{Holds};

    ghost holds = { Holds };

    ghost first = { [] };
}

/// The copy that is entered, or shown, is a beginning of the log that is known.
pub(crate) struct Sees;

impl Outcome<Store, Name> for Sees {
    ghost use Rattle.book_view.specs.Copies.{Tells};

    ghost then = { Tells };
}

/// The writer gets to know the log.
pub(crate) struct Opens;

impl Outcome<Store, Name> for Opens {
    ghost use Rattle.book_view.specs.Copies.{Opened};

    ghost then = { Opened };
}

/// The writer tells a reader which log it is.
pub(crate) struct Names;

impl Split<Name> for Names {
    ghost left = { λ name. name };

    ghost right = { λ name. name };
}

impl Join<Name> for Names {
    ghost use Rattle.std.specs.Prelude.{[]};

    ghost both = { λ before name. name };

    ghost spent = { [] };
}

pub(crate) type StoreReader = Reader<Store, Name, Keeps>;

pub(crate) type StoreReading = Reading<Store, Name, Keeps>;

pub(crate) type StoreWriter = Writer<Store, Addition, Name, Keeps>;
