ghost use Rattle.std.specs.Prelude.{◌≡◌};
ghost use Rattle.mdf_block.specs.Reads.{Looks};
ghost use Rattle.mdf_block.specs.Block.{is_named};

use crate::name::{has_name_in, name_of};
use mdf_format::Kind;
use mdf_num::{Span, Stop};

/// Whether the first four bytes of a block of this kind stand at `at`.
///
/// # Errors
/// The span's own. It is as before in what it tells.
pub fn is_named_in<P: Span>(span: &mut P, at: u64, kind: Kind) -> Result<bool, Stop>
    ensures reads { Looks P.Span span.old span.new P.may_want result (λ file b. b ≡ is_named file at kind) }
{
    has_name_in(span, at, &name_of(kind))
}
