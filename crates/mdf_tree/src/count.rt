ghost use Rattle.std.specs.Prelude.{ℕ, ◌≡◌, ◌^◌, ◌<◌, length, sum_by, IfOk, OnErr};
ghost use Rattle.mdf_tree.specs.Count.{ref_count, conv_count};
ghost use Rattle.mdf_tree.specs.Group.{conv_part};

use crate::number::plus;
use crate::text::note_count;
use mdf_conv::{Conversion, Ref};
use mdf_num::Memory;

/// How many conversions lie in one another at most, as they are read.
pub(crate) const LEVELS: u64 = 4;

/// How many blocks a reference has, with so many levels of conversions.
#[cycle(count)]
#[tactic(auto, unfolding(crate::specs::Count::ref_count))]
pub(crate) fn ref_count(found: &Ref, levels: u64) -> Result<u32, Memory>
    ensures count { IfOk result (λ count. count ≡ ref_count (conv_count levels) found.now) }
    ensures past { OnErr result (2 ^ 30 < ref_count (conv_count levels) found.now) }
{
    match found {
        Ref::Nothing => Ok(0),
        Ref::Words(note) => Ok(note_count(note)),
        Ref::Conv(boxed) => conv_count(boxed.get(), levels),
    }
}

/// How many blocks references have in all.
#[cycle(count)]
fn refs_count(refs: &[Ref], levels: u64) -> Result<u32, Memory>
    ensures count { IfOk result (λ count. count ≡ sum_by (ref_count (conv_count levels)) refs.now) }
    ensures past { OnErr result (2 ^ 30 < sum_by (ref_count (conv_count levels)) refs.now) }
{
    let mut count = 0;
    for found in refs {
        count = plus(count, ref_count(found, levels)?)?;
    }
    Ok(count)
}

/// How many blocks a conversion has, with so many levels.
#[cycle(count)]
#[tactic(auto, unfolding(crate::specs::Count::conv_count, crate::specs::Count::conv_count_by))]
fn conv_count(conv: &Conversion, levels: u64) -> Result<u32, Memory>
    ensures count { IfOk result (λ count. count ≡ conv_count levels conv.now) }
    ensures past { OnErr result (2 ^ 30 < conv_count levels conv.now) }
{
    if levels == 0 {
        return Ok(0);
    }
    let texts = 1 + note_count(&conv.name) + note_count(&conv.unit) + note_count(&conv.comment);
    plus(texts, refs_count(conv.refs.as_slice(), levels - 1)?)
}

/// How many blocks the conversion of a channel has, if there is one.
#[tactic(auto, unfolding(crate::specs::Group::conv_part))]
pub(crate) fn conv_part_count(conv: &Option<Conversion>) -> Result<u32, Memory>
    ensures count { IfOk result (λ count. (n : ℕ) → count ≡ length (conv_part n conv.now)) }
    ensures past { OnErr result ((n : ℕ) → 2 ^ 30 < length (conv_part n conv.now)) }
{
    match conv {
        None => Ok(0),
        Some(conv) => conv_count(conv, LEVELS),
    }
}
