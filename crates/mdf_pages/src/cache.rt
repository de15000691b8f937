ghost use Rattle.std.specs.Prelude.{◌≡◌, ◌≤◌, ◌↔◌, ℕ, List, [], length, take, false, Option, Some, Contains, IfOk, OnOk, OnErr, IsTrue, IsSome};
ghost use Rattle.mdf_pages.specs.Page.{ArePages, is_kept, first_page, with_page};

use lru::LruCache;
use mdf_num::{Bytes, Memory};
use std::alloc::Global;
use std::marker::Model;
use std::num::NonZeroUsize;

/// How many pages are kept at most.
const MOST: usize = 256;

/// The pages that are kept, by their numbers. Contracts see them as the list, the one that was used last first.
#[derive(Drop)]
pub(crate) struct Cache {
    pages: LruCache<u64, Bytes>,
}

impl Model for Cache {
    ghost use Rattle.std.specs.Prelude.{◌≡◌, ◌≤◌, ℕ, List, length};

    ghost Value = { List (ℕ × List ℕ) };

    ghost view = { λ c. c.pages.entries };

    ghost invariant = { λ c. (c.pages.cap ≡ 256) × (length c.pages.entries ≤ 256) };
}

impl Cache {
    /// Without a page.
    pub(crate) fn new(alloc: Global) -> Result<Cache, Memory>
        ensures { IfOk result (λ cache. cache ≡ []) }
    {
        let Some(most) = NonZeroUsize::new(MOST) else {
            return Err(Memory);
        };
        let pages = LruCache::new(alloc, most)?;
        Ok(Cache { pages })
    }

    /// Whether this page is kept. It stays at its place.
    pub(crate) fn holds(&self, page: u64) -> bool
        ensures { result ≡ is_kept page self.now }
    {
        self.pages.contains(&page)
    }

    /// Whether this page stands first.
    #[inline]
    pub(crate) fn is_first(&self, page: u64) -> bool
        ensures { IsTrue result ↔ (first_page self.now ≡ Some page) }
    {
        match self.pages.peek_mru() {
            Some((first, _)) => *first == page,
            None => false,
        }
    }

    /// The bytes of the page that stands first.
    #[inline]
    pub(crate) fn first(&self) -> &[u8]
        requires { IsSome (first_page self.now) }
        ensures { (page : ℕ) → first_page self.now ≡ Some page → Contains self.now (page, result.now) }
    {
        match self.pages.peek_mru() {
            Some((_, bytes)) => bytes.as_slice(),
            None => &[],
        }
    }

    /// Puts a page first where it is kept, and says whether it is.
    pub(crate) fn touch(&mut self, page: u64) -> bool
        ensures there { result ≡ is_kept page self.old }
        ensures first { IsTrue result → first_page self.new ≡ Some page }
        ensures pages { (told : Option (List ℕ)) (size : ℕ) → ArePages told size self.old → ArePages told size self.new }
        ensures others { (other : ℕ) → IsTrue (is_kept other self.old) → IsTrue (is_kept other self.new) }
        ensures absent { result ≡ false → self.new ≡ self.old }
        ensures few { length self.new ≤ 256 }
    {
        self.pages.promote(&page)
    }

    /// Room for one page more: of as many as can be kept, the one that was used least lately goes, and its bytes are answered, to be
    /// written over.
    pub(crate) fn take_room(&mut self, alloc: Global) -> Bytes
        ensures { self.new ≡ take 255 self.old }
    {
        if self.pages.len() < MOST {
            return Bytes::empty(alloc);
        }
        match self.pages.pop_lru() {
            Some((_, bytes)) => bytes,
            None => Bytes::empty(alloc),
        }
    }

    /// Puts a page first that is not kept. Where as many as can be are kept, the one that was used least lately goes.
    ///
    /// # Errors
    /// Want of memory. The pages are as before.
    pub(crate) fn put(&mut self, page: u64, bytes: Bytes) -> Result<(), Memory>
        requires { is_kept page self.old ≡ false }
        ensures ok { OnOk result (self.new ≡ with_page page bytes self.old) }
        ensures err { OnErr result (self.new ≡ self.old) }
        ensures few { length self.new ≤ 256 }
    {
        self.pages.put(page, bytes)?;
        Ok(())
    }
}
