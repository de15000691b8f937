//! How the pending records of a book come into its file.
ghost use Rattle.std.specs.Prelude.{◌≡◌, ◌+◌, ◌≤◌, false, [], length, OnOk, IfErr};
ghost use Rattle.book_owned.specs.Account.{Steps};
ghost use Rattle.book_owned.specs.Answers.{FlushAnswers, MakesRoom};
ghost use Rattle.book_owned.specs.FrontHalf.{IsFront, front_account};
ghost use Rattle.book_owned.specs.Split.{AreHalves, HasFaultOf, book_of};

use crate::fault::Fault;
use crate::handing::{finish, hand_over};
use crate::in_memory::InMemory;
use crate::{Back, Flush, Handed, Shown, Written};
use mdf_disk::Disk;
use std::sync::Wait;
use std::thread::Threads;

/// Hands the pending records over to the back, and takes in what became of them.
pub(crate) fn flush<D: Disk, V: Shown, R: Threads + Wait + Sync>(
    front: &mut InMemory<V>,
    back: &mut Back<D>,
    rt: &R,
) -> Flush<V::Note>
    requires front { IsFront V.Shown front.old }
    requires halves { AreHalves D.Disk (front_account V.Shown front.old) back.old }
    ensures front { IsFront V.Shown front.new }
    ensures halves { AreHalves D.Disk (front_account V.Shown front.new) back.new }
    ensures steps { Steps (book_of D.Disk V.Shown front.old back.old) (book_of D.Disk V.Shown front.new back.new) [] }
    ensures answer { FlushAnswers D.Disk V.Shown (book_of D.Disk V.Shown front.old back.old) (book_of D.Disk V.Shown front.new back.new) result }
    ensures samples { front.old.history.spare ≤ front.new.history.spare }
    ensures marks { front.old.marks.spare ≤ front.new.marks.spare + 1 }
    ensures later { D.faults back.old.disk ≤ D.faults back.new.disk }
    ensures clock { D.moment back.old.disk ≤ D.moment back.new.disk }
{
    match hand_over(front) {
        Handed::Stopped { mark } => Flush::Stopped { mark },
        Handed::Nothing => finish(front, rt, Written::Nothing),
        Handed::Given { through, block } => {
            let written = back.write(through, block);
            finish(front, rt, written)
        }
    }
}

/// Makes room for a record of so many bytes: where it would pass the block limit, it flushes.
///
/// # Errors
/// The disk failed.
pub(crate) fn make_room<D: Disk, V: Shown, R: Threads + Wait + Sync>(
    front: &mut InMemory<V>,
    back: &mut Back<D>,
    rt: &R,
    size: u64,
) -> Result<(), Fault>
    requires front { IsFront V.Shown front.old }
    requires halves { AreHalves D.Disk (front_account V.Shown front.old) back.old }
    requires going { front.old.stopped ≡ false }
    requires small { size ≤ front.old.block.limit }
    ensures front { IsFront V.Shown front.new }
    ensures halves { AreHalves D.Disk (front_account V.Shown front.new) back.new }
    ensures steps { Steps (book_of D.Disk V.Shown front.old back.old) (book_of D.Disk V.Shown front.new back.new) [] }
    ensures going { OnOk result (front.new.stopped ≡ false) }
    ensures room { OnOk result (length front.new.block.bytes + size ≤ front.new.block.limit) }
    ensures makes { OnOk result (MakesRoom D.Disk V.Shown (book_of D.Disk V.Shown front.old back.old) (book_of D.Disk V.Shown front.new back.new) size) }
    ensures fault { IfErr result (HasFaultOf D.Disk (book_of D.Disk V.Shown front.old back.old) (book_of D.Disk V.Shown front.new back.new) size) }
    ensures samples { front.old.history.spare ≤ front.new.history.spare }
    ensures marks { front.old.marks.spare ≤ front.new.marks.spare + 1 }
    ensures later { D.faults back.old.disk ≤ D.faults back.new.disk }
    ensures clock { D.moment back.old.disk ≤ D.moment back.new.disk }
{
    if front.block.len() as u64 + size <= front.block.limit() as u64 {
        return Ok(());
    }
    match flush(front, back, rt) {
        Flush::Done { .. } => Ok(()),
        Flush::DiskFault { before, after } => Err(Fault { before, after }),
        Flush::Stopped { mark: _ } => unreachable!(),
    }
}
