ghost use Rattle.std.specs.Prelude.{◌≡◌, List, IfOk, IfErr, MatchResult};
ghost use Rattle.mdf_format.specs.Block.{IsBlock};
ghost use Rattle.mdf_format.specs.declared.kind.Kind.TheVariants.{Hd};
ghost use Rattle.mdf_attach.specs.Listed.{attachments, header_attachments, IsFirst, GivesList};
ghost use Rattle.mdf_attach.specs.Stands.{BeginsFinalized, AreAttachments, AreFew};
ghost use Rattle.mdf_attach.specs.Lacks.{LacksAttachments};

use crate::fault::ListFault;
use crate::list::header_attachments_in;
use crate::{AttachFault, Attachment};
use mdf_head::{IdentFault, ident};
use mdf_num::{Halt, Rows, SliceSpan};
use std::alloc::Global;

/// Nothing, where the file begins as a finalized one.
#[tactic(auto, unfolding(crate::specs::Listed::attachments))]
fn finalized_of(bytes: &[u8]) -> Result<(), AttachFault>
    ensures found { IfOk result (λ _. attachments bytes.now ≡ header_attachments bytes.now) }
    ensures begins { IfOk result (λ _. BeginsFinalized bytes.now) }
    ensures exact { IfErr result (λ fault. IsFirst fault (attachments bytes.now)) }
    ensures refused { IfErr result (LacksAttachments bytes.now) }
{
    match ident(bytes) {
        Ok(id) => {
            if !id.finalized {
                return Err(AttachFault::Unfinalized {
                    std: id.std_flags,
                    custom: id.custom_flags,
                });
            }
            Ok(())
        }
        Err(IdentFault::NotMdf) => Err(AttachFault::NotMdf),
        Err(IdentFault::Version { ver }) => Err(AttachFault::Version { ver }),
    }
}

/// The attachments behind the identification.
fn list_of(alloc: Global, bytes: &[u8]) -> Result<Rows<Attachment>, AttachFault>
    ensures exact { GivesList result (header_attachments bytes.now) }
    ensures first { IfErr result (λ fault. fault ≡ AttachFault.Memory → IsBlock bytes.now 64 Hd) }
{
    match header_attachments_in(alloc, &mut SliceSpan::new(bytes)) {
        Ok(rows) => Ok(rows),
        Err(Halt::Fault(ListFault::Bad { at, want })) => Err(AttachFault::Bad { at, want }),
        Err(Halt::Fault(ListFault::TooMany { at, .. })) => Err(AttachFault::TooMany { at }),
        Err(Halt::Failed) => unreachable!(),
        Err(Halt::Memory) => Err(AttachFault::Memory),
    }
}

/// The attachments of a finalized file, along the chain of ATBLOCKs that the fourth link of the header begins, each with
/// its texts and a copy of its embedded data. At most 65,535 are read, with 536,870,912 bytes of embedded data and
/// 67,108,864 bytes of texts in all.
///
/// # Errors
/// `NotMdf`, `Version` and `Unfinalized` exactly where the identification is none, of another version, or that of an
/// unfinalized file. Otherwise the first of these along the chain, of each ATBLOCK before its name, MIME type and
/// comment: `Bad` exactly where the header, an ATBLOCK with its embedded data or a text does not stand whole, and
/// `TooMany` exactly where an ATBLOCK or a text would pass a limit. And `Memory`, which comes only where the header is
/// there.
pub fn read_attachments(alloc: Global, bytes: &[u8]) -> Result<Rows<Attachment>, AttachFault>
    ensures exact { GivesList result (attachments bytes.now) }
    ensures found { IfOk result (AreAttachments bytes.now) }
    ensures few { IfOk result AreFew }
    ensures refused { IfErr result (LacksAttachments bytes.now) }
    ensures complete { (rows : List Attachment) → AreAttachments bytes.now rows → AreFew rows → MatchResult result (λ found. found ≡ rows) (λ fault. fault ≡ AttachFault.Memory) }
{
    finalized_of(bytes)?;
    list_of(alloc, bytes)
}
