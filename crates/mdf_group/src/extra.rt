ghost use Rattle.std.specs.Prelude.{◌≡◌, ◌-◌, ◌≤◌, IfOk};
ghost use Rattle.mdf_block.specs.Reads.{Looks};
ghost use Rattle.mdf_block.specs.Block.{IsInside};
ghost use Rattle.mdf_group.specs.Link.{links_named};

use mdf_block::{BlockAt, link_in};
use mdf_conv::link_count;
use mdf_num::{Span, Stop};

/// How many links of a channel after the eighth name something.
pub(crate) fn extra_in<P: Span>(span: &mut P, block: &BlockAt) -> Result<u64, Stop>
    requires inside { IsInside (P.size span.old) block.now }
    requires linked { 8 ≤ block.now.links }
    ensures reads { Looks P.Span span.old span.new P.may_want result (λ file n. n ≡ links_named file block.now.at 8 (block.now.links - 8)) }
    ensures few { IfOk result (λ n. n ≤ block.now.links) }
{
    let mut extra = 0;
    for k in 8..block.links {
        let link = link_in(span, block, k)?;
        extra += link_count(link);
    }
    Ok(extra)
}
