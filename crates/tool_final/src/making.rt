ghost use Rattle.std.specs.Prelude.{◌≡◌, true, IfOk, IfErr, IfNone};
ghost use Rattle.mdf_block.specs.Refusal.{GivesOf};
ghost use Rattle.mdf_content.specs.Fault.{read_refusal};
ghost use Rattle.mdf_disk.specs.Crash.{Adds};
ghost use Rattle.mdf_disk.specs.Goes.{GoesOn};
ghost use Rattle.mdf_disk.specs.State.{state_of};
ghost use Rattle.mdf_seal.specs.Seal.{IsBlank};
ghost use Rattle.mdf_session.specs.Identified.{IsIdentifiedRecording};
ghost use Rattle.mdf_session.specs.Session.{session};
ghost use Rattle.mdf_spell.specs.Standing.{AreBytes};
ghost use Rattle.tool_final.specs.Finalize.{FinalizeEnds, IsFinalizeImage};
ghost use Rattle.tool_final.specs.Finalized.{IsMadeOf};

use crate::{report_of, spell_session};
use mdf_content::ReadFault;
use mdf_disk::Disk;
use mdf_num::{Bytes, Memory};
use mdf_session::{Session, session_of};
use mdf_tool::{Made, Report, ToolFault, write_made};
use std::alloc::Global;

/// Nothing: the elements of a slice of bytes are bytes.
fn are_bytes(bytes: &[u8])
    ensures { AreBytes bytes.now }
{
    let _len = bytes.len();
}

/// The session of a file, whose memory becomes that of its records.
fn session_read(alloc: Global, file: Bytes) -> Result<Session, ReadFault>
    ensures exact { GivesOf read_refusal result (session file) }
    ensures first { IfErr result (λ fault. IfNone (read_refusal fault) (IsIdentifiedRecording file)) }
    ensures bytes { AreBytes file }
{
    are_bytes(file.as_slice());
    session_of(alloc, file)
}

/// The finalized file of a session, and what is told of it.
fn made_of(alloc: Global, session: Session, now_ns: u64) -> Result<Made, Memory>
    ensures { IfOk result (IsMadeOf session now_ns) }
{
    let report = report_of(&session)?;
    let bytes = spell_session(alloc, session, now_ns)?;
    Ok(Made { bytes, report })
}

/// Writes the finalized file of a recording at `now_ns` (ns since 1970) under a seal, on a disk that is attached with an
/// empty file, and answers what is told of it. The memory of the input becomes that of
/// the records, so that they are held once until the output is made.
///
/// # Errors
/// `Read` where the file is no recording, with the first fault of `read_session`; `Memory` where memory runs out: of both no
/// call of the disk was made. `Failed` where the disk failed.
pub fn finalize<C: Disk>(
    alloc: Global,
    file: Bytes,
    now_ns: u64,
    out: &mut C,
) -> Result<Report, ToolFault>
    requires attached { C.attached out.old ≡ true }
    requires blank { IsBlank (C.content out.old) (C.story out.old) }
    ensures ends { FinalizeEnds file now_ns (state_of C.Disk out.old) (state_of C.Disk out.new) result }
    ensures any_moment { Adds (C.story out.old) (C.story out.new) (IsFinalizeImage file now_ns) }
    ensures goes_on { GoesOn C.Disk out.old out.new }
{
    let session = session_read(alloc, file)?;
    let made = made_of(alloc, session, now_ns)?;
    write_made(out, made)
}
