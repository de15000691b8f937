ghost use Rattle.std.specs.Prelude.{◌≡◌, ◌++◌, ℕ, List, Option, Some, true, IfOk, IfSome, OnOk};
ghost use Rattle.std.specs.List.{AllByRecursion};
ghost use Rattle.std.specs.Option.{option_to_list};
ghost use Rattle.mdf_block.specs.Refusal.{Refusal, Read};
ghost use Rattle.mdf_block.specs.Reads.{Reads};
ghost use Rattle.mdf_block.specs.Every.{every, AllByNumber};

use mdf_num::{Halt, Memory, Rows, Span};
use std::alloc::Global;

/// A reader of something for each item of a list. A contract sees it by the definition of what is read for an item, over
/// the bytes of the file.
pub trait Visit {
    /// An item.
    type Item: Drop;

    /// What is read for it.
    type Found: Drop;

    /// What is carried from one item to the next.
    type State: Copy;

    /// What is passed along for all items, as a bound on what is kept of the file.
    type Room;

    /// Why a file is refused.
    type Fault: Drop;

    /// What a fault says of the file.
    ghost refusal: { Self.Fault → Option Refusal };

    /// What is read for an item, which has this number in the list.
    ghost read: { Self → List ℕ → ℕ → Self.Item → Self.State → Read (Option Self.Found × Self.State) };

    /// What a file of so many bytes must have for it.
    ghost needs: { Self → ℕ → Type 0 };

    /// What an item with this number must have.
    ghost admits: { Self → ℕ → Self.Item → Type 0 };

    /// What is known of what is read of a file that is told.
    ghost gives: { Self → Self.Found → Type 0 } = { λ _ _. Unit {0} };

    /// What is known of what is read of any file of so many bytes.
    ghost keeps: { Self → ℕ → Self.Found → Type 0 } = { λ _ _ _. Unit {0} };

    /// What is read for item `k`, where something is, and what is carried on.
    fn item_in<P: Span>(
        &self,
        alloc: Global,
        span: &mut P,
        k: usize,
        item: &Self::Item,
        state: Self::State,
        room: &mut Self::Room,
    ) -> Result<(Option<Self::Found>, Self::State), Halt<Self::Fault>>
        requires needs { needs self.now (P.size span.old) }
        requires admitted { admits self.now k item.now }
        ensures reads { Reads P.Span span.old span.new true refusal result (λ file. read self.now file k item.now state) }
        ensures given { (f : List ℕ) → P.bytes span.old ≡ Some f → IfOk result (λ found. IfSome found.0 (gives self.now)) }
        ensures kept { IfOk result (λ found. IfSome found.0 (keeps self.now (P.size span.old))) };
}

/// Adds an item at the end of a list, where there is one.
fn push_some<T: Drop>(all: &mut Rows<T>, item: Option<T>) -> Result<(), Memory>
    ensures { OnOk result (all.new ≡ all.old ++ option_to_list item) }
{
    match item {
        Some(item) => all.push(item),
        None => Ok(()),
    }
}

/// In order what is read for each item of the list, where something is, and what is carried on behind the last.
///
/// # Errors
/// The first refusal of an item; the span's own; and want of memory.
pub fn every_in<V: Visit, P: Span>(
    alloc: Global,
    visit: &V,
    span: &mut P,
    items: &[V::Item],
    start: V::State,
    room: &mut V::Room,
) -> Result<(Rows<V::Found>, V::State), Halt<V::Fault>>
    requires needs { V.needs visit.now (P.size span.old) }
    requires admitted { AllByNumber (V.admits visit.now) items.now }
    ensures reads { Reads P.Span span.old span.new true V.refusal result (λ file. every (V.read visit.now file) 0 items.now start) }
    ensures given { (f : List ℕ) → P.bytes span.old ≡ Some f → IfOk result (λ found. AllByRecursion (V.gives visit.now) found.0) }
    ensures kept { IfOk result (λ found. AllByRecursion (V.keeps visit.now (P.size span.old)) found.0) }
{
    let mut all = Rows::empty(alloc);
    let mut state = start;
    let mut k = 0;
    while k < items.len() {
        let (found, next) = visit.item_in(alloc, span, k, &items[k], state, room)?;
        push_some(&mut all, found)?;
        state = next;
        k += 1;
    }
    Ok((all, state))
}
