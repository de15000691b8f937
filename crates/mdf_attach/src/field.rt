ghost use Rattle.std.specs.Prelude.{◌≡◌, ◌+◌, ◌≤◌, true, length, IfOk};
ghost use Rattle.mdf_format.specs.Number.{bytes_at};
ghost use Rattle.mdf_format.specs.declared.kind.Kind.TheVariants.{At};
ghost use Rattle.mdf_block.specs.Reads.{Looks, Reads};
ghost use Rattle.mdf_block.specs.Block.{body_of, IsInside, IsFilled};
ghost use Rattle.mdf_attach.specs.Listed.{fields_of, whole, list_refusal};

use crate::fault::ListFault;
use crate::lower::block_of;
use mdf_block::{BlockAt, Kind, body_in, u16_field, u64_field};
use mdf_num::{Bytes, Halt, Span, Stop};
use std::alloc::Global;

/// What stands in the first 40 bytes of the body of an attachment, before the embedded data.
#[derive(Clone, Copy)]
pub(crate) struct Fields {
    pub(crate) flags: u16,
    pub(crate) creator: u16,
    pub(crate) md5: [u8; 16],
    pub(crate) original: u64,
    /// How many bytes the embedded data has.
    pub(crate) embedded: u64,
}

/// The MD5 in the body of an attachment.
fn md5_of(body: &[u8]) -> [u8; 16]
    requires { 40 ≤ length body.now }
    ensures { result ≡ bytes_at 16 body.now 8 }
{
    let mut md5 = [0u8; 16];
    md5.copy_from_slice(&body[8..24]);
    md5
}

/// The fields of an attachment.
fn fields_in<P: Span>(span: &mut P, block: &BlockAt) -> Result<Fields, Stop>
    requires inside { IsInside (P.size span.old) block.now }
    requires filled { IsFilled At block.now }
    ensures reads { Looks P.Span span.old span.new P.may_want result (λ file fields. fields ≡ fields_of (body_of file block.now)) }
{
    let mut body = [0u8; 40];
    body_in(span, block, &mut body)?;
    Ok(Fields {
        flags: u16_field(&body, 0),
        creator: u16_field(&body, 2),
        md5: md5_of(&body),
        original: u64_field(&body, 24),
        embedded: u64_field(&body, 32),
    })
}

/// The block of the attachment at `at`, whose embedded data lies in its body, and its fields.
#[tactic(auto, unfolding(crate::specs::Listed::whole, crate::specs::Listed::held))]
pub(crate) fn whole_in<P: Span>(span: &mut P, at: u64) -> Result<(BlockAt, Fields), Halt<ListFault>>
    ensures reads { Reads P.Span span.old span.new P.may_want list_refusal result (λ file. whole file at) }
    ensures inside { IfOk result (λ found. IsInside (P.size span.old) found.0) }
    ensures filled { IfOk result (λ found. IsFilled At found.0) }
    ensures holds { IfOk result (λ found. 40 + found.1.embedded ≤ found.0.body_len) }
{
    let block = block_of(span, at, Kind::At)?;
    let fields = fields_in(span, &block)?;
    if fields.embedded > block.body_len - 40 {
        return Err(Halt::Fault(ListFault::Bad { at, want: Kind::At }));
    }
    Ok((block, fields))
}

/// A copy of the embedded data, which has so many bytes.
pub(crate) fn content_in<P: Span>(
    alloc: Global,
    span: &mut P,
    block: &BlockAt,
    len: u64,
) -> Result<Bytes, Stop>
    requires inside { IsInside (P.size span.old) block.now }
    requires holds { 40 + len ≤ block.now.body_len }
    ensures reads { Looks P.Span span.old span.new true result (λ file content. content ≡ bytes_at len file (block.now.body_at + 40)) }
{
    let mut items = vec![in alloc; 0u8; len as usize]?;
    span.fill(block.body_at + 40, items.as_mut_slice())?;
    Ok(Bytes::from_vec(items))
}
