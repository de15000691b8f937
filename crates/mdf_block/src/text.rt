ghost use Rattle.std.specs.Prelude.{◌≡◌, ◌+◌, ◌≤◌, ℕ, List, Some, length, true, IfOk, IfErr, OnErr};
ghost use Rattle.std.specs.List.{position_or_len};
ghost use Rattle.mdf_format.specs.Number.{bytes_at};
ghost use Rattle.mdf_block.specs.Refusal.{GivesAnd, GivesSlice, HidesNone};
ghost use Rattle.mdf_block.specs.Reads.{Looks, Reads, Says};
ghost use Rattle.mdf_block.specs.Block.{IsInside};
ghost use Rattle.mdf_block.specs.Text.{is_zero, text, note, note_refusal, note_size, IsNote, HasNoNote};

use crate::block::whole_in;
use crate::name::{has_name_in, name_of};
use crate::{BlockAt, Note, NoteFault};
use mdf_format::Kind;
use mdf_num::{Bytes, Halt, SliceSpan, Span, Stop};
use std::alloc::Global;

/// How many bytes of a text are looked at in one go.
const CHUNK: u64 = 64;

/// The place of the first zero byte, or the length.
fn zero_of(bytes: &[u8]) -> usize
    ensures place { result ≡ position_or_len is_zero bytes.now }
    ensures within { result ≤ length bytes.now }
{
    for (i, byte) in bytes.iter().enumerate() {
        if *byte == 0 {
            return i;
        }
    }
    bytes.len()
}

/// The place of the first zero byte in a chunk, or the chunk's length.
fn zero_in<P: Span>(span: &mut P, at: u64, count: u64) -> Result<u64, Stop>
    requires chunk { count ≤ CHUNK }
    requires there { at + count ≤ P.size span.old }
    ensures reads { Looks P.Span span.old span.new P.may_want result (λ file n. n ≡ position_or_len is_zero (bytes_at count file at)) }
    ensures within { IfOk result (λ n. n ≤ count) }
{
    let mut chunk = [0u8; CHUNK as usize];
    let part = &mut chunk[..count as usize];
    span.fill(at, part)?;
    Ok(zero_of(part) as u64)
}

/// How many bytes of the body come before its first zero byte.
fn text_len_in<P: Span>(span: &mut P, block: &BlockAt) -> Result<u64, Stop>
    requires { IsInside (P.size span.old) block.now }
    ensures reads { Looks P.Span span.old span.new P.may_want result (λ file n. n ≡ position_or_len is_zero (bytes_at block.now.body_len file block.now.body_at)) }
    ensures within { IfOk result (λ n. n ≤ block.now.body_len) }
{
    let start = block.body_at;
    let len = block.body_len;
    let mut done = 0;
    while done < len {
        let count = CHUNK.min(len - done);
        let zero = zero_in(span, start + done, count)?;
        if zero < count {
            return Ok(done + zero);
        }
        done += count;
    }
    Ok(len)
}

/// A copy of the bytes from `at` on.
fn bytes_in<P: Span>(alloc: Global, span: &mut P, at: u64, len: u64) -> Result<Bytes, Stop>
    requires { at + len ≤ P.size span.old }
    ensures reads { Looks P.Span span.old span.new true result (λ file b. b ≡ bytes_at len file at) }
{
    let mut items = vec![in alloc; 0u8; len as usize]?;
    span.fill(at, items.as_mut_slice())?;
    Ok(Bytes::from_vec(items))
}

/// The text of the block of this kind at `at`, and how many bytes of texts may still come.
fn text_in<P: Span>(
    alloc: Global,
    span: &mut P,
    at: u64,
    kind: Kind,
    left: u64,
) -> Result<(Bytes, u64), Halt<NoteFault>>
    ensures reads { Reads P.Span span.old span.new true note_refusal result (λ file. text file at kind left) }
    ensures memory { (f : List ℕ) → P.bytes span.old ≡ Some f → HidesNone P.may_want result (text f at kind left) }
{
    let block = match whole_in(span, at, kind)? {
        Some(block) => block,
        None => return Err(Halt::Fault(NoteFault::Bad { at })),
    };
    let len = text_len_in(span, &block)?;
    if len > left {
        return Err(Halt::Fault(NoteFault::TooMany { at }));
    }
    let bytes = bytes_in(alloc, span, block.body_at, len)?;
    Ok((bytes, left - len))
}

/// The text that a link names, and how many bytes of texts may still come after it.
///
/// # Errors
/// As `note_at`, and the span's own.
#[tactic(auto, unfolding(crate::specs::Text::note))]
pub fn noted_in<P: Span>(
    alloc: Global,
    span: &mut P,
    at: u64,
    left: u64,
) -> Result<(Note, u64), Halt<NoteFault>>
    ensures reads { Reads P.Span span.old span.new true note_refusal result (λ file. note file at left) }
    ensures memory { (f : List ℕ) → P.bytes span.old ≡ Some f → HidesNone P.may_want result (note f at left) }
{
    if at == 0 {
        return Ok((Note::Nothing, left));
    }
    if has_name_in(span, at, &name_of(Kind::Md))? {
        let (bytes, left) = text_in(alloc, span, at, Kind::Md, left)?;
        return Ok((Note::Xml(bytes), left));
    }
    let (bytes, left) = text_in(alloc, span, at, Kind::Tx, left)?;
    Ok((Note::Plain(bytes), left))
}

/// The text that a link names, where 0 names none. The budget, which is the number of bytes that texts may still have,
/// falls by the text's length. After a refusal it is as before.
///
/// # Errors
/// As `note_at`, and the span's own.
pub fn note_in<P: Span>(
    alloc: Global,
    span: &mut P,
    at: u64,
    budget: &mut u64,
) -> Result<Note, Halt<NoteFault>>
    ensures reads { Says P.Span span.old span.new true note_refusal result (λ file. GivesAnd note_refusal result budget.new (note file at budget.old)) }
    ensures memory { (f : List ℕ) → P.bytes span.old ≡ Some f → HidesNone P.may_want result (note f at budget.old) }
    ensures budget { OnErr result (budget.new ≡ budget.old) }
{
    let (note, left) = noted_in(alloc, span, at, *budget)?;
    *budget = left;
    Ok(note)
}

/// The text that a link names, where 0 names none: the bytes before the first zero byte of a TXBLOCK's or an MDBLOCK's
/// body, or all of it. The budget, which is the number of bytes that texts may still have, falls by the text's length.
/// After a refusal it is as before.
///
/// # Errors
/// `Bad` exactly where an address other than 0 has neither block, `TooMany` exactly where the text is longer than the
/// budget, and `Memory`, which takes the place of no other fault.
pub fn note_at(alloc: Global, bytes: &[u8], at: u64, budget: &mut u64) -> Result<Note, NoteFault>
    ensures found { IfOk result (IsNote bytes.now at) }
    ensures spent { IfOk result (λ found. budget.new + note_size found ≡ budget.old) }
    ensures refused { IfErr result (HasNoNote bytes.now at budget.old) }
    ensures budget { OnErr result (budget.new ≡ budget.old) }
    ensures exact { GivesSlice note_refusal result budget.new (note bytes.now at budget.old) }
{
    match note_in(alloc, &mut SliceSpan::new(bytes), at, budget) {
        Ok(note) => Ok(note),
        Err(Halt::Fault(fault)) => Err(fault),
        Err(Halt::Failed) => unreachable!(),
        Err(Halt::Memory) => Err(NoteFault::Memory),
    }
}
