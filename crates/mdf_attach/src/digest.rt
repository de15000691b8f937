ghost use Rattle.std.specs.Prelude.{◌≡◌, ◌+◌, ◌^◌, ◌≤◌, ◌<◌, ◌++◌, ℕ, List, length, Some, OnOk};
ghost use Rattle.md5.specs.Md5.{Holds, md5};
ghost use Rattle.mdf_format.specs.Number.{bytes_at};
ghost use Rattle.mdf_num.specs.Halt.{StopCause};
ghost use Rattle.mdf_block.specs.Reads.{Looks};
ghost use Rattle.mdf_block.specs.Block.{IsInside};
ghost use Rattle.mdf_attach.specs.Says.{verdict_of};

use crate::Verdict;
use crate::check::{compared, is_checked};
use crate::field::Fields;
use md5::{Digest, Md5};
use mdf_block::BlockAt;
use mdf_num::{Span, Stop};

/// How many bytes are taken in one go.
const PIECE: u64 = 4096;

/// Fills a piece with the bytes from `at` on, and takes it into a digest.
fn take_in<P: Span>(span: &mut P, hasher: &mut Md5, piece: &mut [u8], at: u64) -> Result<(), Stop>
    requires { at + length piece.old ≤ P.size span.old }
    ensures taken { OnOk result ((file : List ℕ) → P.bytes span.old ≡ Some file → (m : List ℕ) → Holds hasher.old m → Holds hasher.new (m ++ bytes_at (length piece.old) file at)) }
    ensures same { P.bytes span.new ≡ P.bytes span.old }
    ensures size { P.size span.new ≡ P.size span.old }
    ensures cause { StopCause P.may_want (P.faults span.old) (P.faults span.new) result }
{
    span.fill(at, piece)?;
    hasher.update(piece);
    Ok(())
}

/// The MD5 of the bytes from `at` on, of which no more than a piece is in memory.
fn digest_in<P: Span>(span: &mut P, at: u64, len: u64) -> Result<[u8; 16], Stop>
    requires there { at + len ≤ P.size span.old }
    requires fits { at + len < 2 ^ 64 }
    ensures reads { Looks P.Span span.old span.new P.may_want result (λ file digest. digest ≡ md5 (bytes_at len file at)) }
{
    let mut hasher = Md5::new();
    let mut piece = [0u8; PIECE as usize];
    let mut done = 0;
    while done < len {
        let count = PIECE.min(len - done);
        take_in(span, &mut hasher, &mut piece[..count as usize], at + done)?;
        done += count;
    }
    Ok(hasher.finalize())
}

/// What is said of the MD5 of the attachment of a block with these fields. Its embedded data is read piece by piece.
pub(crate) fn verdict_in<P: Span>(
    span: &mut P,
    block: &BlockAt,
    fields: &Fields,
) -> Result<Verdict, Stop>
    requires inside { IsInside (P.size span.old) block.now }
    requires holds { 40 + fields.now.embedded ≤ block.now.body_len }
    ensures reads { Looks P.Span span.old span.new P.may_want result (λ file verdict. verdict ≡ verdict_of fields.now.flags fields.now.md5 (bytes_at fields.now.embedded file (block.now.body_at + 40))) }
{
    if !is_checked(fields.flags) {
        return Ok(Verdict::Unchecked);
    }
    let digest = digest_in(span, block.body_at + 40, fields.embedded)?;
    Ok(compared(digest, fields.md5))
}
