ghost use Rattle.std.specs.Prelude.{◌≤◌, length, IfOk, IfErr, IsSome};
ghost use Rattle.mdf_block.specs.Refusal.{GivesOf};
ghost use Rattle.mdf_block.specs.Reads.{Reads};
ghost use Rattle.mdf_head.specs.Ident.{identify};
ghost use Rattle.mdf_content.specs.Fault.{read_refusal};
ghost use Rattle.mdf_model.specs.Tree.{finalized};

use mdf_content::ReadFault;
use mdf_head::{Ident, IdentFault, ident};
use mdf_num::{Halt, Span};

/// What the first 64 bytes say, with the faults of reading.
///
/// # Errors
/// `NotMdf`, then `Version`, as `ident` of mdf_head.
pub fn identity_of(bytes: &[u8]) -> Result<Ident, ReadFault>
    ensures exact { GivesOf read_refusal result (identify bytes.now) }
    ensures plain { IfErr result (λ fault. IsSome (read_refusal fault)) }
    ensures long { IfOk result (λ _. 64 ≤ length bytes.now) }
{
    match ident(bytes) {
        Ok(id) => Ok(id),
        Err(IdentFault::NotMdf) => Err(ReadFault::NotMdf),
        Err(IdentFault::Version { ver }) => Err(ReadFault::Version { ver }),
    }
}

/// The identification of a file. It takes no memory of its own.
///
/// # Errors
/// `NotMdf`, then `Version`, as `ident`; and the span's own.
pub fn identity_in<P: Span>(span: &mut P) -> Result<Ident, Halt<ReadFault>>
    ensures reads { Reads P.Span span.old span.new P.may_want read_refusal result (λ file. identify file) }
{
    if span.len() < 64 {
        return Err(Halt::Fault(ReadFault::NotMdf));
    }
    let mut front = [0u8; 64];
    span.fill(0, &mut front)?;
    match identity_of(&front) {
        Ok(id) => Ok(id),
        Err(fault) => Err(Halt::Fault(fault)),
    }
}

/// The identification of a finalized file. It takes no memory of its own.
///
/// # Errors
/// `NotMdf`, then `Version`, as `ident`; then `Unfinalized` exactly where the file says that it is not finalized; and the
/// span's own.
#[tactic(auto, unfolding(crate::specs::Tree::finalized))]
pub fn finalized_in<P: Span>(span: &mut P) -> Result<Ident, Halt<ReadFault>>
    ensures reads { Reads P.Span span.old span.new P.may_want read_refusal result (λ file. finalized file) }
{
    let id = identity_in(span)?;
    if !id.finalized {
        return Err(Halt::Fault(ReadFault::Unfinalized {
            std: id.std_flags,
            custom: id.custom_flags,
        }));
    }
    Ok(id)
}
