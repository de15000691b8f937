ghost use Rattle.std.specs.Prelude.{◌≤◌, true};
ghost use Rattle.mdf_block.specs.Reads.{Reads};
ghost use Rattle.mdf_block.specs.Block.{IsInside};
ghost use Rattle.mdf_conv.specs.Conv.{texts, conv_refusal};

use crate::link::words_at;
use crate::{Budget, ConvFault};
use mdf_block::{BlockAt, Note};
use mdf_num::{Halt, Span};
use std::alloc::Global;

/// The texts of a conversion (CCBLOCK), or of a source (SIBLOCK).
#[derive(Drop)]
pub struct Texts {
    /// The name.
    pub name: Note,
    /// The unit; of a source the path.
    pub unit: Note,
    /// The comment.
    pub comment: Note,
}

/// The texts of the source or of the conversion of a block, and what may still come.
#[tactic(auto, unfolding(crate::specs::Conv::texts))]
pub(crate) fn texts_in<P: Span>(
    alloc: Global,
    span: &mut P,
    block: &BlockAt,
    budget: Budget,
) -> Result<(Texts, Budget), Halt<ConvFault>>
    requires inside { IsInside (P.size span.old) block.now }
    requires linked { 3 ≤ block.now.links }
    ensures reads { Reads P.Span span.old span.new true conv_refusal result (λ file. texts file block.now.at budget) }
{
    let (name, left) = words_at(alloc, span, block, 0, budget)?;
    let (unit, left) = words_at(alloc, span, block, 1, left)?;
    let (comment, left) = words_at(alloc, span, block, 2, left)?;
    let texts = Texts {
        name,
        unit,
        comment,
    };
    Ok((texts, left))
}
