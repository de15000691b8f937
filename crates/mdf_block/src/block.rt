ghost use Rattle.std.specs.Prelude.{◌≡◌, ◌+◌, ◌≤◌, ◌↔◌, [], Some, length, IfOk, IfErr, IfSome, MatchOption, IsTrue};
ghost use Rattle.mdf_format.specs.Block.{header_size, least_links, least_body, body_at, body_size, IsBlock};
ghost use Rattle.mdf_block.specs.Refusal.{GivesOf};
ghost use Rattle.mdf_block.specs.Reads.{Looks, Reads};
ghost use Rattle.mdf_block.specs.Block.{the_block, block, block_refusal, Begins, IsLaid, HasNoBlock, IsAboutData, IsInside, IsFilled};

use crate::field::u16_field;
use crate::name::{has_name_in, is_compressed_in, least_body, least_links, name_of};
use crate::word::{body_in, is_there, u64_in};
use crate::{BlockAt, BlockFault};
use mdf_format::Kind;
use mdf_num::{Halt, SliceSpan, Span, Stop};

/// Whether the body has the least bytes of its kind, the values of a CCBLOCK among them.
fn is_filled_in<P: Span>(span: &mut P, block: &BlockAt) -> Result<bool, Stop>
    requires { IsInside (P.size span.old) block.now }
    ensures reads { Looks P.Span span.old span.new P.may_want result (λ file b. block.now ≡ the_block file block.now.at block.now.kind → (IsTrue b ↔ (least_body block.now.kind (body_at file block.now.at) ≤ body_size file block.now.at))) }
    ensures least { IfOk result (λ b. IsTrue b → least_body block.now.kind [] ≤ block.now.body_len) }
{
    if block.body_len < least_body(block.kind) {
        return Ok(false);
    }
    match block.kind {
        Kind::Cc => {
            let mut front = [0u8; 8];
            body_in(span, block, &mut front)?;
            let values = u16_field(&front, 6) as u64;
            Ok(values <= (block.body_len - 24) / 8)
        }
        _ => Ok(true),
    }
}

/// Whether the header of a block of this kind begins at `at`.
fn begins_in<P: Span>(span: &mut P, at: u64, want: Kind) -> Result<bool, Stop>
    ensures reads { Looks P.Span span.old span.new P.may_want result (λ file b. (IsTrue b ↔ Begins file at want)) }
    ensures there { IfOk result (λ b. IsTrue b → at + 24 ≤ P.size span.old) }
{
    if at % 8 != 0 || !is_there(span.len(), at, 24) {
        return Ok(false);
    }
    has_name_in(span, at, &name_of(want))
}

/// Whether a block of so many bytes, with so many links, lies in so much room and has the least links of its kind.
fn is_laid(size: u64, links: u64, room: u64, want: Kind) -> bool
    ensures { IsTrue result ↔ (header_size links ≤ size × size ≤ room × least_links want ≤ links) }
{
    if size < 24 || size > room || links > (size - 24) / 8 || links < least_links(want) {
        return false;
    }
    true
}

/// The block whose header begins at `at`, if it lies inside and has the least links of its kind.
fn laid_in<P: Span>(span: &mut P, at: u64, want: Kind) -> Result<Option<BlockAt>, Stop>
    requires { at + 24 ≤ P.size span.old }
    ensures reads { Looks P.Span span.old span.new P.may_want result (λ file found. MatchOption found (¬ IsLaid file at want) (λ b. IsLaid file at want × (b ≡ the_block file at want))) }
    ensures inside { IfOk result (λ found. IfSome found (IsInside (P.size span.old))) }
    ensures kind { IfOk result (λ found. IfSome found (λ b. b.kind ≡ want)) }
    ensures linked { IfOk result (λ found. IfSome found (λ b. least_links want ≤ b.links)) }
{
    let room = span.len() - at;
    let size = u64_in(span, at + 8)?;
    let links = u64_in(span, at + 16)?;
    if !is_laid(size, links, room, want) {
        return Ok(None);
    }
    Ok(Some(BlockAt {
        at,
        kind: want,
        links,
        body_at: at + 24 + 8 * links,
        body_len: size - 24 - 8 * links,
    }))
}

/// The block of this kind that stands whole at `at`, if one does.
pub(crate) fn whole_in<P: Span>(span: &mut P, at: u64, want: Kind) -> Result<Option<BlockAt>, Stop>
    ensures reads { Looks P.Span span.old span.new P.may_want result (λ file found. MatchOption found (¬ IsBlock file at want) (λ b. IsBlock file at want × (b ≡ the_block file at want))) }
    ensures inside { IfOk result (λ found. IfSome found (IsInside (P.size span.old))) }
    ensures filled { IfOk result (λ found. IfSome found (IsFilled want)) }
{
    if !begins_in(span, at, want)? {
        return Ok(None);
    }
    match laid_in(span, at, want)? {
        Some(block) => {
            if is_filled_in(span, &block)? {
                Ok(Some(block))
            } else {
                Ok(None)
            }
        }
        None => Ok(None),
    }
}

/// The block of the kind that is wanted at `at`, read through a span.
///
/// # Errors
/// `Compressed` where a DZBLOCK or an HLBLOCK is named and data is wanted, else `Bad` where no block of that kind
/// stands whole there with the least links and the least body of its kind; and the span's own.
pub fn block_in<P: Span>(span: &mut P, at: u64, want: Kind) -> Result<BlockAt, Halt<BlockFault>>
    ensures reads { Reads P.Span span.old span.new P.may_want block_refusal result (λ file. block file at want) }
    ensures data { IfErr result (IsAboutData want) }
    ensures inside { IfOk result (IsInside (P.size span.old)) }
    ensures filled { IfOk result (IsFilled want) }
{
    if is_compressed_in(span, at, want)? {
        return Err(Halt::Fault(BlockFault::Compressed { at }));
    }
    match whole_in(span, at, want)? {
        Some(block) => Ok(block),
        None => Err(Halt::Fault(BlockFault::Bad { at, want })),
    }
}

/// The block of the kind that is wanted at `at`.
///
/// # Errors
/// `Compressed` exactly where `at` is a multiple of 8, a DZBLOCK or an HLBLOCK is named there, and data is wanted.
/// Otherwise `Bad` exactly where no block of that kind stands whole there with the least links and the least body of
/// its kind.
pub fn block_at(bytes: &[u8], at: u64, want: Kind) -> Result<BlockAt, BlockFault>
    ensures found { IfOk result (λ b. IsBlock bytes.now at want × (b ≡ the_block bytes.now at want)) }
    ensures refused { IfErr result (HasNoBlock bytes.now at want) }
    ensures exact { GivesOf block_refusal result (block bytes.now at want) }
    ensures inside { IfOk result (IsInside (length bytes.now)) }
    ensures filled { IfOk result (IsFilled want) }
{
    match block_in(&mut SliceSpan::new(bytes), at, want) {
        Ok(block) => Ok(block),
        Err(Halt::Fault(fault)) => Err(fault),
        Err(_) => unreachable!(),
    }
}
