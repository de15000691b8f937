ghost use Rattle.std.specs.Prelude.{IfOk, IfErr};
ghost use Rattle.mdf_format.specs.Identification.{IsMdf, HasReadVersion};
ghost use Rattle.mdf_block.specs.Refusal.{GivesOf};
ghost use Rattle.mdf_head.specs.Ident.{IsIdent, HasNoIdent, identify, ident_refusal};

use crate::{Ident, IdentFault};
use mdf_block::u16_field;

/// What the first 64 bytes say, as facts.
fn ident_of(bytes: &[u8]) -> Result<Ident, IdentFault>
    ensures mdf { IfOk result (λ _. IsMdf bytes.now × HasReadVersion bytes.now) }
    ensures found { IfOk result (IsIdent bytes.now) }
    ensures refused { IfErr result (HasNoIdent bytes.now) }
{
    if bytes.len() < 64 {
        return Err(IdentFault::NotMdf);
    }
    let name = &bytes[..8];
    let finalized = name == b"MDF     ".as_slice();
    if !finalized && name != b"UnFinMF ".as_slice() {
        return Err(IdentFault::NotMdf);
    }
    let ver = u16_field(bytes, 28);
    if ver < 400 || ver > 419 {
        return Err(IdentFault::Version { ver });
    }
    Ok(Ident {
        finalized,
        ver,
        std_flags: u16_field(bytes, 60),
        custom_flags: u16_field(bytes, 62),
    })
}

/// What the first 64 bytes say.
///
/// # Errors
/// `NotMdf` exactly where there are fewer than 64 bytes, or the first 8 are those neither of a finalized nor of an
/// unfinalized MDF file. Otherwise `Version` exactly where the version is not one of 4.00 to 4.19.
pub fn ident(bytes: &[u8]) -> Result<Ident, IdentFault>
    ensures mdf { IfOk result (λ _. IsMdf bytes.now × HasReadVersion bytes.now) }
    ensures found { IfOk result (IsIdent bytes.now) }
    ensures refused { IfErr result (HasNoIdent bytes.now) }
    ensures exact { GivesOf ident_refusal result (identify bytes.now) }
{
    ident_of(bytes)
}
