//! How a shared book is begun.
ghost use Rattle.std.specs.Prelude.{ℕ, ◌≡◌, ◌≤◌, ◌<◌, [], ◌∷◌, length, slice_index, IfOk, IfErr};
ghost use Rattle.std.specs.Vec.{vec_capacity};
ghost use Rattle.atomic_table.specs.Table.{opening};
ghost use Rattle.mdf_gate.specs.Gated.{Gated};
ghost use Rattle.book_owned.specs.FrontHalf.{FrontAccount};
ghost use Rattle.book_shared.specs.Plays.{fresh};
ghost use Rattle.book_shared.specs.Fixed.{basis_of, first_view, sources_from};
ghost use Rattle.book_shared.specs.Rule.{Runs};
ghost use Rattle.book_shared.specs.Seats.{new_seats, HasShared};
ghost use Rattle.book_shared.specs.declared.half.Half.TheVariants.{TheFront, TheBack};

use crate::fixed::Fixed;
use crate::half::Half;
use crate::halves::{back_of, front_of};
use crate::rule::Part;
use crate::seat::{Chair, SourceSeat};
use crate::shared::SharedBook;
use atomic_table::{Refused, Table};
use book_owned::{Back, Book, Front, Shown};
use mdf_disk::Disk;
use mdf_num::Memory;
use std::alloc::Global;
use std::snapshot::Snapshot;
use std::sync::atomic::AtomicU64;

/// The owners of the groups, with 0 for a group that is not there.
fn table_of(owners: &[u8]) -> [u8; 64]
    requires few { length owners.now ≤ 64 }
    ensures owners { (group : ℕ) → slice_index result group ≡ slice_index owners.now group }
{
    let mut table = [0; 64];
    for (group, owner) in owners.iter().enumerate() {
        table[group] = *owner;
    }
    table
}

/// Cuts the first seat into one for each source, in order.
fn part<D: Disk, V: Shown>(
    book: &SharedBook<D, V>,
    first: Chair<D, V>,
    seats: &mut Vec<SourceSeat>,
    owners: [u8; 64],
    sources: u8,
)
    requires table { first.table_id ≡ book.now.table }
    requires first { first.me ≡ (fresh book.now.basis (sources_from 0 sources), []) }
    requires owners { owners ≡ book.now.basis.owners }
    requires empty { seats.old.items ≡ [] }
    requires room { sources ≤ vec_capacity seats.old }
    ensures seats { seats.new.items ≡ new_seats book.now.table book.now.basis 0 sources }
{
    let mut whole = first;
    for number in 0..sources {
        let others = book.table.shared.split_seat::<Part>(&mut whole);
        seats.push_reserved(SourceSeat {
            badge: whole.into_badge(),
            number,
            owners,
        });
        whole = others;
    }
}

/// The halves out of the slots that a table was refused for.
fn halves_of<D: Disk, V: Shown>(mut slots: Vec<Half<Front<V>, Back<D>>>) -> (Front<V>, Back<D>)
    requires halves { (front : FrontAccount V) × (back : Gated D) × (slots.items ≡ TheFront front ∷ TheBack back ∷ []) }
    ensures { slots.items ≡ TheFront result.0 ∷ TheBack result.1 ∷ [] }
{
    let Some(second) = slots.pop() else {
        unreachable!()
    };
    let Some(first) = slots.pop() else {
        unreachable!()
    };
    slots.destroy_empty();
    (front_of(first), back_of(second))
}

/// A shared book with these halves, and the one seat that has all sources.
///
/// # Errors
/// Want of memory, with the halves.
fn shared_of<D: Disk, V: Shown>(
    alloc: Global,
    front: Front<V>,
    back: Back<D>,
    fixed: &Fixed<Front<V>, Back<D>>,
) -> Result<(SharedBook<D, V>, Chair<D, V>), (Front<V>, Back<D>)>
    requires some_source { 0 < fixed.now.sources }
    requires runs { Runs D.Disk (basis_of D.Disk fixed.now) (opening (0 ∷ 0 ∷ []) (TheFront front ∷ TheBack back ∷ []) (first_view (basis_of D.Disk fixed.now))) }
    ensures basis { IfOk result (λ shared. shared.0.basis ≡ basis_of D.Disk fixed.now) }
    ensures seat { IfOk result (λ shared. (shared.1.table_id ≡ shared.0.table) × (shared.1.me ≡ (first_view (basis_of D.Disk fixed.now), []))) }
    ensures handed_back { IfErr result (λ halves. (halves.0 ≡ front) × (halves.1 ≡ back)) }
{
    let Ok(mut slots) = Vec::with_capacity(alloc, 2) else {
        return Err((front, back));
    };
    slots.push_reserved(Half::TheFront(front));
    slots.push_reserved(Half::TheBack(back));
    match Table::new(alloc, &[0, 0], slots, fixed) {
        Ok((table, first)) => {
            let shared = SharedBook {
                table,
                flushes: AtomicU64::new(0),
                waiting: AtomicU64::new(0),
                durable: AtomicU64::new(0),
            };
            Ok((shared, first))
        }
        Err(refused) => {
            let Refused { slots } = refused;
            Err(halves_of(slots))
        }
    }
}

impl<D: Disk, V: Shown> SharedBook<D, V> {
    /// Shares a book that has no sample yet among so many sources. `owners` has the source that owns each group, by the number
    /// of the group. The seats come in the order of the sources.
    ///
    /// # Errors
    /// Want of memory, with the book as it was.
    pub fn begin(
        alloc: Global,
        book: Book<D, V>,
        owners: &[u8],
        sources: u8,
    ) -> Result<(SharedBook<D, V>, Vec<SourceSeat>), (Memory, Book<D, V>)>
        requires fresh { book.history ≡ [] }
        requires sources { (0 < sources) × (sources ≤ 16) }
        requires owners { length owners.now ≤ 64 }
        ensures shared { IfOk result (λ begun. HasShared owners.now sources book.terms begun.0) }
        ensures marks { IfOk result (λ begun. begun.0.basis.begun ≡ book.marks) }
        ensures seats { IfOk result (λ begun. begun.1.items ≡ new_seats begun.0.table begun.0.basis 0 sources) }
        ensures back { IfErr result (λ refused. refused.1 ≡ book) }
    {
        let Ok(mut seats) = Vec::with_capacity(alloc, sources as usize) else {
            return Err((Memory, book));
        };
        let (front, back) = book.split(alloc)?;
        let fixed = Fixed {
            front: Snapshot::of(&front),
            back: Snapshot::of(&back),
            owners: table_of(owners),
            sources,
        };
        match shared_of(alloc, front, back, &fixed) {
            Ok((shared, first)) => {
                part(&shared, first, &mut seats, fixed.owners, sources);
                Ok((shared, seats))
            }
            Err((front, back)) => Err((Memory, Book::join(front, back))),
        }
    }
}
