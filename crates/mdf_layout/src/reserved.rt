ghost use Rattle.std.specs.Prelude.{◌≡◌, ◌+◌, ◌-◌, ◌≤◌, [], ◌∷◌, ◌++◌, length, drop, slice_get, OnOk, OnErr};
ghost use Rattle.std.specs.Option.{option_copied};

use mdf_num::Memory;
use std::alloc::Global;
use std::marker::Model;

/// A list with room for more items that was found beforehand. Contracts see the list and its spare, which is the number
/// of items that it can take without memory.
#[derive(Debug, Drop)]
pub struct Reserved<T> {
    items: Vec<T>,
}

impl<T> Model for Reserved<T> {
    ghost use Rattle.std.specs.Prelude.{◌-◌, vec_len, vec_capacity};
    ghost use Rattle.mdf_layout.specs.Stock.{Stock};

    ghost Value = { Stock T };

    ghost view = { λ list. record { items = list.items.items; spare = vec_capacity list.items - vec_len list.items } };
}

impl<T> Reserved<T> {
    /// The empty list. It takes no memory.
    pub fn empty(alloc: Global) -> Reserved<T>
        ensures { result.items ≡ [] }
    {
        Reserved {
            items: Vec::new(alloc),
        }
    }

    pub fn len(&self) -> u64
        ensures { result ≡ length self.now.items }
    {
        self.items.len() as u64
    }

    /// Item `i`, counted from 0. None exactly at or past the end.
    pub fn get(&self, i: u64) -> Option<&T>
        ensures { option_copied result ≡ slice_get self.now.items i }
    {
        self.items.get(i as usize)
    }

    /// Adds an item at the end. After an error the list is as before, and the item is dropped.
    pub fn push(&mut self, item: T) -> Result<(), Memory>
    where
        T: Drop,
        ensures ok { OnOk result (self.new.items ≡ self.old.items ++ item ∷ []) }
        ensures err { OnErr result (self.new.items ≡ self.old.items) }
    {
        self.items.push(item)?;
        Ok(())
    }

    /// Finds room for `more` items. The list stays, and the spare never falls.
    pub fn reserve(&mut self, more: u64) -> Result<(), Memory>
        ensures items { self.new.items ≡ self.old.items }
        ensures room { OnOk result (more ≤ self.new.spare) }
        ensures spare { self.old.spare ≤ self.new.spare }
    {
        self.items.reserve(more as usize)?;
        Ok(())
    }

    /// Adds an item at the end, into room that was found beforehand. It takes no memory.
    pub fn put(&mut self, item: T)
        requires { 1 ≤ self.old.spare }
        ensures items { self.new.items ≡ self.old.items ++ item ∷ [] }
        ensures spare { self.new.spare ≡ self.old.spare - 1 }
    {
        self.items.push_reserved(item);
    }

    /// The part from item `at` on.
    pub fn rest(&self, at: u64) -> &[T]
        requires { at ≤ length self.now.items }
        ensures { result.now ≡ drop at self.now.items }
    {
        &self.items.as_slice()[at as usize..]
    }
}
