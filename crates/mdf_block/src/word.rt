ghost use Rattle.std.specs.Prelude.{◌≡◌, ◌+◌, ◌*◌, ◌≤◌, ◌<◌, ◌↔◌, IsTrue, length};
ghost use Rattle.mdf_format.specs.Number.{le_number, bytes_at};
ghost use Rattle.mdf_format.specs.Block.{link_at};
ghost use Rattle.mdf_block.specs.Reads.{Looks};
ghost use Rattle.mdf_block.specs.Block.{IsInside};

use crate::BlockAt;
use mdf_num::{SliceSpan, Span, Stop, u64_at};

/// Whether so many bytes from `at` on are among the first `len`.
pub(crate) fn is_there(len: u64, at: u64, count: u64) -> bool
    ensures { IsTrue result ↔ (at + count ≤ len) }
{
    at <= len && count <= len - at
}

/// The number in the 8 bytes from `at` on.
pub(crate) fn u64_in<P: Span>(span: &mut P, at: u64) -> Result<u64, Stop>
    requires { at + 8 ≤ P.size span.old }
    ensures reads { Looks P.Span span.old span.new P.may_want result (λ file n. n ≡ le_number (bytes_at 8 file at)) }
{
    let mut word = [0u8; 8];
    span.fill(at, &mut word)?;
    Ok(u64_at(&word, 0).unwrap_or(0))
}

/// Link `k` of the block, counted from 0: an address, and 0 for none.
pub fn link_in<P: Span>(span: &mut P, block: &BlockAt, k: u64) -> Result<u64, Stop>
    requires inside { IsInside (P.size span.old) block.now }
    requires number { k < block.now.links }
    ensures reads { Looks P.Span span.old span.new P.may_want result (λ file n. n ≡ link_at file block.now.at k) }
{
    u64_in(span, block.at + 24 + 8 * k)
}

/// Link `k` of the block, counted from 0: an address, and 0 for none. The block is one that `block_at` gave for these
/// bytes.
pub fn link_of(bytes: &[u8], block: &BlockAt, k: u64) -> u64
    requires inside { IsInside (length bytes.now) block.now }
    requires number { k < block.now.links }
    ensures { result ≡ link_at bytes.now block.now.at k }
{
    match link_in(&mut SliceSpan::new(bytes), block, k) {
        Ok(link) => link,
        Err(_) => unreachable!(),
    }
}

/// Fills the buffer with the front of the block's body.
pub fn body_in<P: Span>(span: &mut P, block: &BlockAt, buf: &mut [u8]) -> Result<(), Stop>
    requires inside { IsInside (P.size span.old) block.now }
    requires room { length buf.old ≤ block.now.body_len }
    ensures reads { Looks P.Span span.old span.new P.may_want result (λ file _. buf.new ≡ bytes_at (length buf.old) file block.now.body_at) }
{
    span.fill(block.body_at, buf)
}
