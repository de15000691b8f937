ghost use Rattle.std.specs.Prelude.{◌≡◌};
ghost use Rattle.mdf_format.specs.declared.kind.Kind.TheVariants.{At};
ghost use Rattle.mdf_block.specs.Block.{is_named};
ghost use Rattle.mdf_command.specs.Attached.{attach_fault, many_fault};

use crate::fault::Fault;
use mdf_attach::AttachFault;
use mdf_block::{Kind, What, is_named_in};
use mdf_content::ReadFault;
use mdf_num::SliceSpan;

/// Whether an attachment begins at the address.
fn is_attachment(file: &[u8], at: u64) -> bool
    ensures { result ≡ is_named file.now at At }
{
    match is_named_in(&mut SliceSpan::new(file), at, Kind::At) {
        Ok(named) => named,
        Err(_) => unreachable!(),
    }
}

/// The fault of an attachment, or else of a text, that is one too many.
fn many_fault(attachment: bool, at: u64) -> Fault
    ensures { result ≡ many_fault attachment at }
{
    if attachment {
        Fault::Attached { at }
    } else {
        Fault::Read(ReadFault::TooMany {
            what: What::Text,
            at,
        })
    }
}

/// The fault of a file whose attachments are not read. Whether an attachment or a text is one too many, the block at its address
/// says.
pub fn attach_fault(file: &[u8], fault: AttachFault) -> Fault
    ensures { result ≡ attach_fault file.now fault }
{
    match fault {
        AttachFault::NotMdf => Fault::Read(ReadFault::NotMdf),
        AttachFault::Version { ver } => Fault::Read(ReadFault::Version { ver }),
        AttachFault::Unfinalized { std, custom } => {
            Fault::Read(ReadFault::Unfinalized { std, custom })
        }
        AttachFault::Bad { at, want } => Fault::Read(ReadFault::Block { at, want }),
        AttachFault::TooMany { at } => many_fault(is_attachment(file, at), at),
        AttachFault::Memory => Fault::Memory,
    }
}
