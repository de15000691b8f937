ghost use Rattle.std.specs.Prelude.{◌≡◌, [], ◌∷◌, ◌++◌, length, slice_get, ◌↔◌, IsTrue, OnOk, OnErr};
ghost use Rattle.std.specs.Option.{option_copied};

use crate::Memory;
use std::alloc::Global;
use std::marker::Model;

/// A list. Contracts see it as the list of its items.
#[derive(Debug, Drop)]
pub struct Rows<T> {
    items: Vec<T>,
}

/// A list of unsigned numbers.
pub type Numbers = Rows<u64>;

impl<T> Model for Rows<T> {
    ghost use Rattle.std.specs.Prelude.{List};
    ghost use Rattle.std.specs.Coded.{coded_list};

    ghost Value = { List T };

    ghost coded = { coded_list T.code };

    ghost view = { λ rows. rows.items.items };
}

impl<T> Rows<T> {
    /// The empty list. It takes no memory.
    pub fn empty(alloc: Global) -> Rows<T>
        ensures { result ≡ [] }
    {
        Rows {
            items: Vec::new(alloc),
        }
    }

    /// The items of a vector. It takes no memory.
    pub fn from_vec(items: Vec<T>) -> Rows<T>
        ensures { result ≡ items.items }
    {
        Rows { items }
    }

    /// The items in order. It takes no memory.
    pub fn into_vec(self) -> Vec<T>
        ensures { result.items ≡ self }
    {
        let Rows { items } = self;
        items
    }

    pub fn len(&self) -> u64
        ensures { result ≡ length self.now }
    {
        self.items.len() as u64
    }

    pub fn is_empty(&self) -> bool
        ensures { IsTrue result ↔ (self.now ≡ []) }
    {
        self.items.is_empty()
    }

    pub fn as_slice(&self) -> &[T]
        ensures { result.now ≡ self.now }
    {
        self.items.as_slice()
    }

    /// Item `i`, counted from 0. None exactly at or past the end.
    pub fn get(&self, i: u64) -> Option<&T>
        ensures { option_copied result ≡ slice_get self.now i }
    {
        self.items.get(i as usize)
    }

    /// Adds an item at the end. After an error the list is as before, and the item is dropped.
    pub fn push(&mut self, item: T) -> Result<(), Memory>
    where
        T: Drop,
        ensures ok { OnOk result (self.new ≡ self.old ++ item ∷ []) }
        ensures err { OnErr result (self.new ≡ self.old) }
    {
        self.items.push(item)?;
        Ok(())
    }
}
