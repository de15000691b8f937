ghost use Rattle.std.specs.Prelude.{IfOk};
ghost use Rattle.mdf_spell.specs.Counts.{IsCounted};
ghost use Rattle.tool_final.specs.Finalized.{AreSessionBlocks, IsSessionFile, IsSessionFront, IsOfSession, KeepsSession};

use mdf_block::Draft;
use mdf_num::{Memory, Pieces};
use mdf_session::Session;
use mdf_spell::{FINALIZED_IDENT, Front, Recovered, finalized_front, with_data};
use std::alloc::Global;

/// What a session has recovered of its recording.
fn recovered_of<'a>(session: &'a Session) -> Recovered<'a>
    ensures of { IsOfSession session.now result }
    ensures counted { IsCounted result }
{
    Recovered {
        head: session.head(),
        history: session.history().as_slice(),
        row: &session.rows().as_slice()[0],
        counts: session.counts(),
        totals: session.totals(),
        content: session.content().as_slice(),
        streams: session.streams().as_slice(),
    }
}

/// The front of the finalized file of a session: its blocks up to the first one of data.
fn front_of(alloc: Global, session: &Session, now_ns: u64) -> Result<Front, Memory>
    ensures { IfOk result (IsSessionFront session.now now_ns) }
{
    let recovered = recovered_of(session);
    let front = finalized_front(alloc, &recovered, now_ns)?;
    Ok(front)
}

/// The blocks of the finalized file of a session, whose records are moved into them, and of which nothing else is left.
fn blocks_of(alloc: Global, session: Session, now_ns: u64) -> Result<Draft, Memory>
    ensures { IfOk result (AreSessionBlocks session now_ns) }
{
    let front = front_of(alloc, &session, now_ns)?;
    let (content, streams) = session.into_data();
    with_data(alloc, front, content, streams.as_slice())
}

/// The finalized file of a session: its header, its history with the entry of this finalizing at `now_ns` (ns since 1970) as
/// its last, and its first data group, unsorted, with its records in the order of the recording. The records are moved out of the session
/// and into the file: so they are held once.
///
/// # Errors
/// `Memory` where memory runs out, or where there are more than 2^30 blocks.
pub fn spell_session(alloc: Global, session: Session, now_ns: u64) -> Result<Pieces, Memory>
    ensures of { IfOk result (IsSessionFile session now_ns) }
    ensures keeps { IfOk result (KeepsSession session now_ns) }
{
    let blocks = blocks_of(alloc, session, now_ns)?;
    blocks.into_pieces(&FINALIZED_IDENT)
}
