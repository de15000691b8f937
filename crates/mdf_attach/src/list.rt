ghost use Rattle.std.specs.Prelude.{◌≡◌, ◌+◌, ◌≤◌, ℕ, List, Some, true};
ghost use Rattle.mdf_format.specs.declared.kind.Kind.TheVariants.{At, Hd};
ghost use Rattle.mdf_block.specs.Refusal.{HidesNone};
ghost use Rattle.mdf_block.specs.Reads.{Reads};
ghost use Rattle.mdf_block.specs.Block.{block, IsInside, IsFilled};
ghost use Rattle.mdf_attach.specs.Listed.{header_attachments, list_refusal};
ghost use Rattle.mdf_attach.specs.Shown.{each_of, entry_of, header_made, made_of_block};

use crate::budget::Budget;
use crate::fault::ListFault;
use crate::field::{Fields, whole_in};
use crate::lower::block_of;
use crate::make::{Listed, Make, Whole};
use crate::texts::texts_in;
use crate::{Attachment, Entry};
use mdf_block::{BlockAt, Kind, Walk, What, chain_in, link_in};
use mdf_num::{Halt, Rows, Span};
use std::alloc::Global;
use std::marker::PhantomData;

/// Where the header stands.
const HEADER_AT: u64 = 64;

/// How many attachments are read.
const MOST_ATTACHMENTS: u64 = 65_535;

/// How many bytes of texts and of embedded data are read in all.
const WHOLE_BUDGET: Budget = Budget {
    text: 67_108_864,
    embedded: 536_870_912,
};

/// What is made of the attachment of a block, the address of the next one, and what may still come.
#[tactic(auto, unfolding(crate::specs::Listed::attachment_of_block))]
fn attachment_in<M: Make, P: Span>(
    alloc: Global,
    span: &mut P,
    block: &BlockAt,
    fields: Fields,
    left: Budget,
) -> Result<(M::Made, u64, Budget), Halt<ListFault>>
    requires inside { IsInside (P.size span.old) block.now }
    requires filled { IsFilled At block.now }
    requires holds { 40 + fields.embedded ≤ block.now.body_len }
    ensures reads { Reads P.Span span.old span.new true list_refusal result (λ file. made_of_block M.made file block.now fields left) }
{
    let next = link_in(span, block, 0)?;
    let (texts, text) = texts_in(alloc, span, block, left.text)?;
    let made = M::make_in(alloc, span, block, fields, texts)?;
    Ok((made, next, Budget { text, ..left }))
}

/// What is made of the attachments, along their first links.
#[derive(Drop)]
struct Attachments<M: Make> {
    of: PhantomData<M>,
}

impl<M: Make> Walk for Attachments<M> {
    ghost use Rattle.mdf_attach.specs.Listed.{past};
    ghost use Rattle.mdf_attach.specs.Shown.{made_step};

    type Item = M::Made;

    type State = Budget;

    type Fault = ListFault;

    ghost refusal = { list_refusal };

    ghost step = { λ _ file. made_step M.made file };

    ghost full = { λ _ file. past file };

    #[tactic(auto, unfolding(crate::specs::Listed::attachment, crate::specs::Listed::spent, crate::specs::Shown::made_step))]
    fn step_in<P: Span>(
        &self,
        alloc: Global,
        span: &mut P,
        at: u64,
        left: Budget,
    ) -> Result<(M::Made, u64, Budget), Halt<ListFault>> {
        let (block, fields) = whole_in(span, at)?;
        if fields.embedded > left.embedded {
            return Err(Halt::Fault(ListFault::TooMany {
                what: What::Block,
                at,
            }));
        }
        let left = Budget {
            embedded: left.embedded - fields.embedded,
            ..left
        };
        attachment_in::<M, P>(alloc, span, &block, fields, left)
    }

    #[tactic(auto, unfolding(crate::specs::Listed::past))]
    fn full_in<P: Span>(&self, span: &mut P, at: u64) -> Halt<ListFault> {
        match whole_in(span, at) {
            Ok(_) => Halt::Fault(ListFault::TooMany {
                what: What::Block,
                at,
            }),
            Err(halt) => halt,
        }
    }
}

/// What is made of the attachments along the chain that the fourth link of the header begins.
#[tactic(auto, unfolding(crate::specs::Shown::header_made))]
fn header_made_in<M: Make, P: Span>(
    alloc: Global,
    span: &mut P,
) -> Result<Rows<M::Made>, Halt<ListFault>>
    ensures reads { Reads P.Span span.old span.new true list_refusal result (λ file. header_made M.made file) }
    ensures first { (f : List ℕ) → P.bytes span.old ≡ Some f → HidesNone P.may_want result (block f 64 Hd) }
{
    let block = block_of(span, HEADER_AT, Kind::Hd)?;
    let first = link_in(span, &block, 3)?;
    let walk = Attachments::<M> { of: PhantomData };
    let (rows, _, _) = chain_in(alloc, &walk, span, first, MOST_ATTACHMENTS, WHOLE_BUDGET)?;
    Ok(rows)
}

/// The attachments along the chain that the fourth link of the header begins.
pub(crate) fn header_attachments_in<P: Span>(
    alloc: Global,
    span: &mut P,
) -> Result<Rows<Attachment>, Halt<ListFault>>
    ensures reads { Reads P.Span span.old span.new true list_refusal result (λ file. header_attachments file) }
    ensures first { (f : List ℕ) → P.bytes span.old ≡ Some f → HidesNone P.may_want result (block f 64 Hd) }
{
    header_made_in::<Whole, P>(alloc, span)
}

/// What is listed of the attachments of a file whose identification is that of a finalized one, along the chain of ATBLOCKs that
/// the fourth link of the header begins. The embedded data is read piece by piece, and none of it is kept. The limits are those of
/// `read_attachments`.
///
/// # Errors
/// The first of these along the chain, as of `read_attachments`: `Bad` exactly where the header, an ATBLOCK with its embedded data
/// or a text does not stand whole, and `TooMany` exactly where an ATBLOCK or a text would pass a limit; and the span's own.
pub fn list_in<P: Span>(alloc: Global, span: &mut P) -> Result<Rows<Entry>, Halt<ListFault>>
    ensures reads { Reads P.Span span.old span.new true list_refusal result (λ file. each_of entry_of (header_attachments file)) }
{
    header_made_in::<Listed, P>(alloc, span)
}
