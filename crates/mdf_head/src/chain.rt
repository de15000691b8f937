ghost use Rattle.std.specs.Prelude.{true};
ghost use Rattle.mdf_block.specs.Reads.{Reads};
ghost use Rattle.mdf_head.specs.Head.{history, histories, head_refusal};

use crate::field::entry_in;
use crate::lower::{block_of, text_of};
use crate::{HeadFault, History};
use mdf_block::{Kind, Walk, What, chain_in, link_in};
use mdf_num::{Halt, Rows, Span};
use std::alloc::Global;

/// How many entries a history may have.
const MOST_ENTRIES: u64 = 65_535;

/// The entries of the history, along their first links.
struct Entries;

impl Walk for Entries {
    ghost use Rattle.mdf_format.specs.declared.kind.Kind.TheVariants.{Fh};
    ghost use Rattle.mdf_block.specs.declared.what.What.TheVariants as whats;
    ghost use Rattle.mdf_block.specs.Chain.{full};

    type Item = History;

    type State = u64;

    type Fault = HeadFault;

    ghost refusal = { head_refusal };

    ghost step = { λ _ file. history file };

    ghost full = { λ _ file. full whats.Fh Fh file };

    #[tactic(auto, unfolding(crate::specs::Head::history))]
    fn step_in<P: Span>(
        &self,
        alloc: Global,
        span: &mut P,
        at: u64,
        left: u64,
    ) -> Result<(History, u64, u64), Halt<HeadFault>> {
        let block = block_of(span, at, Kind::Fh)?;
        let comment = link_in(span, &block, 1)?;
        let (comment, left) = text_of(alloc, span, comment, left)?;
        let next = link_in(span, &block, 0)?;
        let entry = entry_in(span, &block, comment)?;
        Ok((entry, next, left))
    }

    #[tactic(auto, unfolding(mdf_block::specs::Chain::full))]
    fn full_in<P: Span>(&self, span: &mut P, at: u64) -> Halt<HeadFault> {
        match block_of(span, at, Kind::Fh) {
            Ok(_) => Halt::Fault(HeadFault::TooMany { what: What::Fh, at }),
            Err(halt) => halt,
        }
    }
}

/// The entries from `first` on, how many more might come, and how many bytes of texts.
pub(crate) fn histories_in<P: Span>(
    alloc: Global,
    span: &mut P,
    first: u64,
    budget: u64,
) -> Result<(Rows<History>, u64, u64), Halt<HeadFault>>
    ensures reads { Reads P.Span span.old span.new true head_refusal result (λ file. histories file first budget) }
{
    chain_in(alloc, &Entries, span, first, MOST_ENTRIES, budget)
}
