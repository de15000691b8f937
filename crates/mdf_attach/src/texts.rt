ghost use Rattle.std.specs.Prelude.{◌≤◌, true};
ghost use Rattle.mdf_block.specs.Reads.{Reads};
ghost use Rattle.mdf_block.specs.Block.{IsInside};
ghost use Rattle.mdf_attach.specs.Listed.{texts, list_refusal};

use crate::fault::ListFault;
use crate::lower::text_of;
use mdf_block::{BlockAt, Note};
use mdf_num::{Halt, Span};
use std::alloc::Global;

/// The texts of an attachment.
#[derive(Drop)]
pub(crate) struct Texts {
    /// The name of its file.
    pub(crate) name: Note,
    /// The MIME type.
    pub(crate) mime: Note,
    /// The comment.
    pub(crate) comment: Note,
}

/// The texts of the attachment of a block, and how many bytes of texts may still come.
#[tactic(auto, unfolding(crate::specs::Listed::texts))]
pub(crate) fn texts_in<P: Span>(
    alloc: Global,
    span: &mut P,
    block: &BlockAt,
    left: u64,
) -> Result<(Texts, u64), Halt<ListFault>>
    requires inside { IsInside (P.size span.old) block.now }
    requires linked { 4 ≤ block.now.links }
    ensures reads { Reads P.Span span.old span.new true list_refusal result (λ file. texts file block.now.at left) }
{
    let (name, left) = text_of(alloc, span, block, 1, left)?;
    let (mime, left) = text_of(alloc, span, block, 2, left)?;
    let (comment, left) = text_of(alloc, span, block, 3, left)?;
    let texts = Texts {
        name,
        mime,
        comment,
    };
    Ok((texts, left))
}
