ghost use Rattle.std.specs.Prelude.{ℕ, List, Option, true, IfOk};
ghost use Rattle.std.specs.List.{AllByRecursion};
ghost use Rattle.mdf_block.specs.Refusal.{Refusal, Read};
ghost use Rattle.mdf_block.specs.Reads.{Reads};
ghost use Rattle.mdf_block.specs.Chain.{Step, chain};

use mdf_num::{Halt, Rows, Span};
use std::alloc::Global;

/// A reader of items along links: what one step reads, and what is answered where no more items may come. A contract sees
/// it by the definitions of the step and of the answer, over the bytes of the file.
pub trait Walk {
    /// What is read at an address.
    type Item: Drop;

    /// What is left for those that follow.
    type State: Copy;

    /// Why a file is refused.
    type Fault: Drop;

    /// What a fault says of the file.
    ghost refusal: { Self.Fault → Option Refusal };

    /// What one step reads.
    ghost step: { Self → List ℕ → Step Self.Item Self.State };

    /// What is answered at the address of an item past the most.
    ghost full: { Self → List ℕ → ℕ → Read (List Self.Item × ℕ × Self.State) };

    /// What is known of an item of a file of so many bytes.
    ghost gives: { Self → ℕ → Self.Item → Type 0 } = { λ _ _ _. Unit {0} };

    /// The item at `at`, the address of the next one, and what is left.
    fn step_in<P: Span>(
        &self,
        alloc: Global,
        span: &mut P,
        at: u64,
        left: Self::State,
    ) -> Result<(Self::Item, u64, Self::State), Halt<Self::Fault>>
        ensures reads { Reads P.Span span.old span.new true refusal result (λ file. step self.now file at left) }
        ensures given { IfOk result (λ found. gives self.now (P.size span.old) found.0) };

    /// Why the file is refused at `at`, where no more items may come. It takes no memory.
    fn full_in<P: Span>(&self, span: &mut P, at: u64) -> Halt<Self::Fault>
        ensures reads { Reads P.Span span.old span.new P.may_want refusal (Err result) (λ file. full self.now file at) };
}

/// The items along their links from `first` on up to the link 0, how many more might come, and what is left. At most so
/// many are read.
///
/// # Errors
/// The first refusal of a step, or that of the item past the most; the span's own; and `Memory`.
pub fn chain_in<W: Walk, P: Span>(
    alloc: Global,
    walk: &W,
    span: &mut P,
    first: u64,
    most: u64,
    start: W::State,
) -> Result<(Rows<W::Item>, u64, W::State), Halt<W::Fault>>
    ensures reads { Reads P.Span span.old span.new true W.refusal result (λ file. chain (W.step walk.now file) (W.full walk.now file) most first start) }
    ensures given { IfOk result (λ found. AllByRecursion (W.gives walk.now (P.size span.old)) found.0) }
{
    let mut rows = Rows::empty(alloc);
    let mut at = first;
    let mut left = start;
    let mut room = most;
    while at != 0 {
        if room == 0 {
            return Err(walk.full_in(span, at));
        }
        let (row, next, rest) = walk.step_in(alloc, span, at, left)?;
        rows.push(row)?;
        at = next;
        left = rest;
        room -= 1;
    }
    Ok((rows, room, left))
}
