ghost use Rattle.std.specs.Prelude.{◌≡◌, ◌≤◌, length, IfOk, IfErr, IsSome};
ghost use Rattle.mdf_block.specs.Refusal.{GivesOf};
ghost use Rattle.mdf_content.specs.Fault.{read_refusal};
ghost use Rattle.tool_complete.specs.Flags.{is_mendable, unfinished};

use mdf_content::ReadFault;
use mdf_head::Ident;
use mdf_model::identity_of;

/// Whether a word of standard flags says that cycle counts are to be updated, or the length of the last DTBLOCK, or both, and
/// nothing else.
fn is_mendable(word: u16) -> bool
    ensures { result ≡ is_mendable word }
{
    word == 1 || word == 4 || word == 5
}

/// The identification of a file that another tool left unfinished, and that can be mended.
///
/// # Errors
/// `NotMdf`, then `Version`, as `identity_of`; then `NotRecording` exactly where the file is finalized, its custom word is
/// not 0, or its standard word is none of 1, 4 and 5.
#[tactic(auto, unfolding(crate::specs::Flags::unfinished))]
pub fn unfinished_of(bytes: &[u8]) -> Result<Ident, ReadFault>
    ensures exact { GivesOf read_refusal result (unfinished bytes.now) }
    ensures plain { IfErr result (λ fault. IsSome (read_refusal fault)) }
    ensures long { IfOk result (λ _. 64 ≤ length bytes.now) }
{
    let id = identity_of(bytes)?;
    if id.finalized || id.custom_flags != 0 || !is_mendable(id.std_flags) {
        return Err(ReadFault::NotRecording {
            std: id.std_flags,
            custom: id.custom_flags,
        });
    }
    Ok(id)
}
