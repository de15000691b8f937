ghost use Rattle.std.specs.Prelude.{◌≡◌, ◌≢◌, ◌+◌, ◌-◌, ◌^◌, ◌<◌, ◌↔◌, ◌++◌, ◌∷◌, [], ℕ, List, Some, Ok, length, true, IsTrue, IfOk, IfErr, IfSome, IfNone, OnOk};
ghost use Rattle.mdf_format.specs.declared.kind.Kind.TheVariants.{Dl};
ghost use Rattle.mdf_block.specs.Refusal.{GivesOf, HidesNone};
ghost use Rattle.mdf_block.specs.Reads.{Reads};
ghost use Rattle.mdf_block.specs.Block.{block, IsInside, IsFilled};
ghost use Rattle.mdf_block.specs.Each.{each};
ghost use Rattle.mdf_stream.specs.Parts.{IsPartInside, ArePartsInside, stream_of, stream_size};
ghost use Rattle.mdf_stream.specs.Link.{data_refusal, data_block, named_block, listed_parts, one_part, data_parts, part_of, joined, first_kind};
ghost use Rattle.mdf_stream.specs.Truth.{IsTrueOfLink, IfFault};
ghost use Rattle.mdf_stream.specs.Stream.{IsStream};

use crate::{DataFault, DataView, Part};
use mdf_block::{BlockAt, Kind, Walk, block_in, chain_in, is_named_in, link_in};
use mdf_num::{Halt, Memory, Rows, SliceSpan, Span};
use std::alloc::Global;

/// How many blocks a data link may lead to, the DLBLOCKs counted.
pub const MOST_BLOCKS: u64 = 1_048_576;

/// How many bytes a stream has fewer than. No file's blocks have as many, so that more count as want of memory.
const LONGEST: u64 = 1 << 62;

/// A block, with the faults of this crate.
fn block_of<P: Span>(span: &mut P, at: u64, want: Kind) -> Result<BlockAt, Halt<DataFault>>
    ensures reads { Reads P.Span span.old span.new P.may_want data_refusal result (λ file. block file at want) }
    ensures inside { IfOk result (IsInside (P.size span.old)) }
    ensures filled { IfOk result (IsFilled want) }
{
    block_in(span, at, want).map_err(Halt::raised)
}

/// The body of a block.
fn part_of(block: &BlockAt) -> Part
    ensures { result ≡ part_of block.now }
{
    Part {
        at: block.body_at,
        len: block.body_len,
    }
}

/// The block of data at `at`, and how many more may come.
#[tactic(auto, unfolding(crate::specs::Link::data_block, crate::specs::Link::one_less))]
fn data_block_in<P: Span>(
    span: &mut P,
    at: u64,
    want: Kind,
    left: u64,
) -> Result<(Part, u64), Halt<DataFault>>
    ensures reads { Reads P.Span span.old span.new P.may_want data_refusal result (λ file. data_block file want at left) }
    ensures inside { IfOk result (λ found. IsPartInside (P.size span.old) found.0) }
{
    let block = block_of(span, at, want)?;
    if left == 0 {
        return Err(Halt::Fault(DataFault::TooMany { at }));
    }
    Ok((part_of(&block), left - 1))
}

/// The blocks of data that the links of a DLBLOCK after the first name, and how many more may come.
fn named_in<P: Span>(
    alloc: Global,
    span: &mut P,
    block: &BlockAt,
    want: Kind,
    most: u64,
) -> Result<(Rows<Part>, u64), Halt<DataFault>>
    requires inside { IsInside (P.size span.old) block.now }
    ensures reads { Reads P.Span span.old span.new true data_refusal result (λ file. each (named_block file want block.now.at) 1 (block.now.links - 1) most) }
    ensures inside { IfOk result (λ found. ArePartsInside (P.size span.old) found.0) }
{
    let mut parts = Rows::empty(alloc);
    let mut left = most;
    for k in 1..block.links {
        let link = link_in(span, block, k)?;
        let (part, rest) = data_block_in(span, link, want, left)?;
        parts.push(part)?;
        left = rest;
    }
    Ok((parts, left))
}

/// The DLBLOCKs of a data link, each with its blocks of data of the kind that is wanted.
#[derive(Drop)]
struct Lists {
    want: Kind,
}

impl Walk for Lists {
    ghost use Rattle.mdf_format.specs.declared.kind.Kind.TheVariants.{Dl};
    ghost use Rattle.mdf_block.specs.declared.what.What.TheVariants as whats;
    ghost use Rattle.mdf_block.specs.Chain.{full};
    ghost use Rattle.mdf_stream.specs.Parts.{ArePartsInside};
    ghost use Rattle.mdf_stream.specs.Link.{data_list};

    type Item = Rows<Part>;

    type State = u64;

    type Fault = DataFault;

    ghost refusal = { data_refusal };

    ghost step = { λ lists file. data_list file lists.want };

    ghost full = { λ _ file. full whats.Block Dl file };

    ghost gives = { λ _. ArePartsInside };

    #[tactic(auto, unfolding(crate::specs::Link::data_list, crate::specs::Link::one_less))]
    fn step_in<P: Span>(
        &self,
        alloc: Global,
        span: &mut P,
        at: u64,
        left: u64,
    ) -> Result<(Rows<Part>, u64, u64), Halt<DataFault>> {
        let block = block_of(span, at, Kind::Dl)?;
        if left == 0 {
            return Err(Halt::Fault(DataFault::TooMany { at }));
        }
        let (parts, rest) = named_in(alloc, span, &block, self.want, left - 1)?;
        let next = link_in(span, &block, 0)?;
        Ok((parts, next, rest))
    }

    #[tactic(auto, unfolding(mdf_block::specs::Chain::full))]
    fn full_in<P: Span>(&self, span: &mut P, at: u64) -> Halt<DataFault> {
        match block_of(span, at, Kind::Dl) {
            Ok(_) => Halt::Fault(DataFault::TooMany { at }),
            Err(halt) => halt,
        }
    }
}

/// Whether a part ends before the last u64.
fn is_bounded(part: Part) -> bool
    ensures { IsTrue result ↔ (part.at + part.len < 2 ^ 64) }
{
    part.len <= u64::MAX - part.at
}

/// Whether a view with so many bytes more has fewer than 2^62.
fn has_room(view: &DataView, len: u64) -> bool
    ensures { IsTrue result ↔ (stream_size view.now + len < 2 ^ 62) }
{
    len < LONGEST - view.len()
}

/// Adds a part at the end of a view.
///
/// # Errors
/// Want of memory, as which count too a part that ends behind the last u64 and a stream of 2^62 bytes and more.
pub fn add_part(view: &mut DataView, part: Part) -> Result<(), Memory>
    ensures { OnOk result (view.new ≡ view.old ++ part ∷ []) }
{
    if !is_bounded(part) || !has_room(view, part.len) {
        return Err(Memory);
    }
    view.add(part.at, part.len)
}

/// Adds parts at the end of a view.
fn add_all(view: &mut DataView, parts: &[Part]) -> Result<(), Memory>
    ensures { OnOk result (view.new ≡ view.old ++ parts.now) }
{
    for part in parts {
        add_part(view, *part)?;
    }
    Ok(())
}

/// The parts of all lists, as one view.
fn view_of(alloc: Global, lists: &[Rows<Part>]) -> Result<DataView, Memory>
    ensures { IfOk result (λ view. view ≡ joined lists.now) }
{
    let mut view = DataView::empty(alloc);
    for list in lists {
        add_all(&mut view, list.as_slice())?;
    }
    Ok(view)
}

/// The blocks of data that the DLBLOCKs from `at` on list, as one view. The first of them is looked at before any memory is
/// taken.
fn listed_in<P: Span>(
    alloc: Global,
    span: &mut P,
    at: u64,
    want: Kind,
) -> Result<DataView, Halt<DataFault>>
    requires some { at ≢ 0 }
    ensures reads { Reads P.Span span.old span.new true data_refusal result (λ file. listed_parts file want at) }
    ensures first { (f : List ℕ) → P.bytes span.old ≡ Some f → HidesNone P.may_want result (block f at Dl) }
    ensures inside { IfOk result (ArePartsInside (P.size span.old)) }
{
    block_of(span, at, Kind::Dl)?;
    let (lists, _, _) = chain_in(alloc, &Lists { want }, span, at, MOST_BLOCKS, MOST_BLOCKS)?;
    let view = view_of(alloc, lists.as_slice())?;
    Ok(view)
}

/// The one block of data at `at`, as a view.
fn one_in<P: Span>(
    alloc: Global,
    span: &mut P,
    at: u64,
    want: Kind,
) -> Result<DataView, Halt<DataFault>>
    ensures reads { Reads P.Span span.old span.new true data_refusal result (λ file. one_part file want at) }
    ensures first { (f : List ℕ) → P.bytes span.old ≡ Some f → HidesNone P.may_want result (block f at want) }
    ensures inside { IfOk result (ArePartsInside (P.size span.old)) }
{
    let block = block_of(span, at, want)?;
    let mut view = DataView::empty(alloc);
    add_part(&mut view, part_of(&block))?;
    Ok(view)
}

/// What a data link at `at` leads to, read through a span: nothing for 0, the body of the block of the kind that is
/// wanted, or the bodies of the blocks that a chain of DLBLOCKs lists. Offsets, counts and flags of a DLBLOCK are passed
/// over.
///
/// # Errors
/// As `view_data`, and the span's own. The span is as before in what it tells. Want of memory is told only where the block
/// that the link names stands.
#[tactic(auto, unfolding(crate::specs::Link::data_parts))]
pub fn view_data_in<P: Span>(
    alloc: Global,
    span: &mut P,
    at: u64,
    want: Kind,
) -> Result<DataView, Halt<DataFault>>
    ensures reads { Reads P.Span span.old span.new true data_refusal result (λ file. data_parts file want at) }
    ensures first { (f : List ℕ) → P.bytes span.old ≡ Some f → HidesNone P.may_want result (block f at (first_kind f want at)) }
    ensures refused { (f : List ℕ) → P.bytes span.old ≡ Some f → IfErr result (IfFault (IsTrueOfLink f want at)) }
    ensures inside { IfOk result (ArePartsInside (P.size span.old)) }
{
    if at == 0 {
        return Ok(DataView::empty(alloc));
    }
    if is_named_in(span, at, Kind::Dl)? {
        return listed_in(alloc, span, at, want);
    }
    one_in(alloc, span, at, want)
}

/// What a data link at `at` leads to: nothing for 0, the body of the block of the kind that is wanted, or the bodies of
/// the blocks that a chain of DLBLOCKs lists. Offsets, counts and flags of a DLBLOCK are passed over.
///
/// # Errors
/// The first fault in the order of the links, each DLBLOCK before the blocks that it lists, and these before the next
/// DLBLOCK: `Bad` exactly where no block of the kind stands whole (a DLBLOCK where one is named or comes next, 0 among
/// what it lists), `Compressed` exactly where a DZBLOCK or an HLBLOCK is named in place of a DT, an SD or a DL,
/// `TooMany` at the block past 1,048,576; and `Memory`.
pub fn view_data(alloc: Global, bytes: &[u8], at: u64, want: Kind) -> Result<DataView, DataFault>
    ensures exact { GivesOf data_refusal result (data_parts bytes.now want at) }
    ensures first { IfErr result (λ fault. IfNone (data_refusal fault) ((b : BlockAt) × (block bytes.now at (first_kind bytes.now want at) ≡ Ok b))) }
    ensures stream { IfOk result (λ view. IsStream bytes.now at want (stream_of bytes.now view)) }
    ensures refused { IfErr result (λ fault. IfSome (data_refusal fault) (IsTrueOfLink bytes.now want at)) }
    ensures inside { IfOk result (ArePartsInside (length bytes.now)) }
{
    match view_data_in(alloc, &mut SliceSpan::new(bytes), at, want) {
        Ok(view) => Ok(view),
        Err(Halt::Fault(fault)) => Err(fault),
        Err(Halt::Failed) => unreachable!(),
        Err(Halt::Memory) => Err(DataFault::Memory),
    }
}
