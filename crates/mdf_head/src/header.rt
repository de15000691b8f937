ghost use Rattle.std.specs.Prelude.{◌≡◌, ◌+◌, ◌≤◌, ℕ, List, Some, true, length, IfOk, IfErr, IfSome, OnErr};
ghost use Rattle.mdf_block.specs.Refusal.{GivesAnd, GivesSlice, HidesNone};
ghost use Rattle.mdf_block.specs.Reads.{Reads, Says};
ghost use Rattle.mdf_head.specs.Head.{header, head, head_refusal, text_size, IsHead, HasHeader, LacksHead};

use crate::chain::histories_in;
use crate::field::head_in;
use crate::lower::{block_of, text_of};
use crate::{Head, HeadFault, History};
use mdf_block::{Kind, link_in};
use mdf_num::{Halt, Rows, SliceSpan, Span};
use std::alloc::Global;

/// Where the header stands.
const HEADER_AT: u64 = 64;

/// The header, the address of the first entry of the history, and how many bytes of texts may still come.
fn header_in<P: Span>(
    alloc: Global,
    span: &mut P,
    left: u64,
) -> Result<(Head, u64, u64), Halt<HeadFault>>
    ensures reads { Reads P.Span span.old span.new true head_refusal result (λ file. header file left) }
    ensures first { (f : List ℕ) → P.bytes span.old ≡ Some f → HidesNone P.may_want result (header f left) }
{
    let block = block_of(span, HEADER_AT, Kind::Hd)?;
    let comment = link_in(span, &block, 5)?;
    let (comment, left) = text_of(alloc, span, comment, left)?;
    let first_dg = link_in(span, &block, 0)?;
    let first_fh = link_in(span, &block, 1)?;
    let head = head_in(span, &block, comment, first_dg)?;
    Ok((head, first_fh, left))
}

/// The header and the history, and how many bytes of texts may still come.
#[tactic(auto, unfolding(crate::specs::Head::head))]
fn headed_in<P: Span>(
    alloc: Global,
    span: &mut P,
    left: u64,
) -> Result<((Head, Rows<History>), u64), Halt<HeadFault>>
    ensures reads { Reads P.Span span.old span.new true head_refusal result (λ file. head file left) }
    ensures first { (f : List ℕ) → P.bytes span.old ≡ Some f → HidesNone P.may_want result (header f left) }
{
    let (head, first, left) = header_in(alloc, span, left)?;
    let (rows, _, left) = histories_in(alloc, span, first, left)?;
    Ok(((head, rows), left))
}

/// The header and the file history, read through a span. The budget, which is the number of bytes that texts may still
/// have, falls by the lengths of the texts. After a refusal it is as before.
///
/// # Errors
/// As `read_head`, and the span's own.
pub fn read_head_in<P: Span>(
    alloc: Global,
    span: &mut P,
    budget: &mut u64,
) -> Result<(Head, Rows<History>), Halt<HeadFault>>
    ensures reads { Says P.Span span.old span.new true head_refusal result (λ file. GivesAnd head_refusal result budget.new (head file budget.old)) }
    ensures found { (f : List ℕ) → P.bytes span.old ≡ Some f → IfOk result (λ found. IsHead f found.0 found.1) }
    ensures first { (f : List ℕ) → P.bytes span.old ≡ Some f → HidesNone P.may_want result (header f budget.old) }
    ensures budget { OnErr result (budget.new ≡ budget.old) }
{
    let (found, left) = headed_in(alloc, span, *budget)?;
    *budget = left;
    Ok(found)
}

/// The header and the file history: HD at address 64, its comment, and the chain of FH blocks, each with its comment.
/// The budget, which is the number of bytes that texts may still have, falls by the lengths of the texts. After a
/// refusal it is as before.
///
/// # Errors
/// The first fault in that order: `Bad` exactly where no block of the kind stands whole, `TooMany` exactly where a text
/// is longer than the budget or an FH is the 65,536th; and `Memory`, which comes only where HD and its comment are there.
pub fn read_head(
    alloc: Global,
    bytes: &[u8],
    budget: &mut u64,
) -> Result<(Head, Rows<History>), HeadFault>
    ensures exact { GivesSlice head_refusal result budget.new (head bytes.now budget.old) }
    ensures found { IfOk result (λ found. IsHead bytes.now found.0 found.1) }
    ensures spent { IfOk result (λ found. budget.new + text_size found.0 found.1 ≡ budget.old) }
    ensures few { IfOk result (λ found. length found.1 ≤ 65535) }
    ensures refused { IfErr result (λ fault. IfSome (head_refusal fault) (LacksHead bytes.now budget.old)) }
    ensures first { IfErr result (λ fault. fault ≡ HeadFault.Memory → HasHeader bytes.now budget.old) }
    ensures budget { OnErr result (budget.new ≡ budget.old) }
{
    match read_head_in(alloc, &mut SliceSpan::new(bytes), budget) {
        Ok(found) => Ok(found),
        Err(Halt::Fault(fault)) => Err(fault),
        Err(Halt::Failed) => unreachable!(),
        Err(Halt::Memory) => Err(HeadFault::Memory),
    }
}
