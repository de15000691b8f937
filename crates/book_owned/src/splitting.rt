ghost use Rattle.std.specs.Prelude.{◌≡◌, ◌≤◌, length, IfOk, IfErr};
ghost use Rattle.book_owned.specs.Marks.{durable};
ghost use Rattle.book_owned.specs.Split.{front_of_book, IsBackOf, AreHalves, book_of_halves};

use crate::front::last_mark;
use crate::{Back, Book, Front, Shown};
use mdf_disk::Disk;
use mdf_num::Memory;
use std::alloc::Global;

impl<D: Disk, V: Shown> Book<D, V> {
    /// Takes a book apart, into what it holds in memory and its file. It makes no call of the disk and takes no memory, so it
    /// never fails.
    ///
    /// # Errors
    /// Out of memory, with the book.
    pub fn split(self, _alloc: Global) -> Result<(Front<V>, Back<D>), (Memory, Book<D, V>)>
        ensures front { IfOk result (λ halves. halves.0 ≡ front_of_book self) }
        ensures back { IfOk result (λ halves. IsBackOf D.Disk self halves.1) }
        ensures within { IfOk result (λ halves. durable self.marks ≤ length self.history) }
        ensures handed_back { IfErr result (λ parts. parts.1 ≡ self) }
    {
        let Book { mut front, back } = self;
        front.memory.from = last_mark(&front.memory.marks).through;
        Ok((front, back))
    }

    /// The book of two halves. It makes no call of the disk.
    pub fn join(front: Front<V>, back: Back<D>) -> Book<D, V>
        requires halves { AreHalves D.Disk front back }
        ensures { result ≡ book_of_halves D.Disk front back }
    {
        Book { front, back }
    }
}
