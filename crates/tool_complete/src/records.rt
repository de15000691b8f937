ghost use Rattle.std.specs.Prelude.{◌≡◌, ◌*◌, ◌-◌, ◌<◌, ◌≤◌, Some, length, IsTrue, IfOk, IfSome};
ghost use Rattle.mdf_stream.specs.Parts.{ArePartsInside, stream_of, stream_size};
ghost use Rattle.mdf_data.specs.Record.{IsIdSize, IsPieceAt, piece_at};
ghost use Rattle.mdf_data.specs.Splitting.{advanced};
ghost use Rattle.mdf_content.specs.Layouts.{has_id_size};
ghost use Rattle.mdf_content.specs.Records.{record_size};
ghost use Rattle.tool_complete.specs.Records.{IsTally, count_alone, if_whole, whole_alone, whole_records, whole_with_ids};

use crate::tally::Tally;
use mdf_content::{known_groups, record_size};
use mdf_data::{DataView, Piece, Splitter};
use mdf_group::{DataRow, GroupRow};
use mdf_num::{Memory, Rows};
use std::alloc::Global;

/// The next whole record of a stream; none where it ends or none begins.
fn next_whole(splitter: &mut Splitter, bytes: &[u8], view: &DataView) -> Option<Piece>
    requires inside { ArePartsInside (length bytes.now) view.now }
    requires within { splitter.old.place ≤ stream_size view.now }
    ensures found { result ≡ if_whole (piece_at (stream_of bytes.now view.now) splitter.old.id_size splitter.old.known splitter.old.place (stream_size view.now - splitter.old.place)) }
    ensures piece { IfSome result (IsPieceAt (stream_size view.now) splitter.old.id_size splitter.old.known splitter.old.place) }
    ensures next { IfSome result (λ piece. splitter.new ≡ advanced splitter.old (Some piece)) }
{
    match splitter.next(bytes, view) {
        Ok(found) => found,
        Err(_) => None,
    }
}

/// Counts the whole records of a stream with ids.
fn tally_with_ids(
    alloc: Global,
    bytes: &[u8],
    view: &DataView,
    row: &DataRow,
) -> Result<Tally, Memory>
    requires ids { IsIdSize row.now.id_size }
    requires inside { ArePartsInside (length bytes.now) view.now }
    ensures within { IfOk result (λ tally. tally.whole ≤ stream_size view.now) }
    ensures tally { IfOk result (IsTally (length row.now.groups) (whole_with_ids (stream_of bytes.now view.now) (stream_size view.now) row.now)) }
{
    let groups = row.groups.as_slice();
    if groups.len() as u64 > u32::MAX as u64 {
        return Err(Memory);
    }
    let known = known_groups(alloc, groups)?;
    let mut splitter = Splitter::new(row.id_size, known);
    let Ok(mut counts) = vec![in alloc; 0u64; groups.len()] else {
        return Err(Memory);
    };
    let mut whole = 0;
    'records: while let Some(piece) = next_whole(&mut splitter, bytes, view) {
        counts[piece.which as usize] += 1;
        whole = piece.at + piece.len;
    }
    Ok(Tally {
        counts: Rows::from_vec(counts),
        whole,
    })
}

/// How many records of the one group a stream of so many bytes without ids has. Records without bytes are as many as the group
/// says.
fn count_alone(total: u64, group: &GroupRow) -> u64
    ensures count { result ≡ count_alone total group.now }
    ensures within { result * record_size group.now ≤ total }
{
    if group.is_variable() {
        return 0;
    }
    match record_size(group) {
        0 => group.cycles,
        size => total / size,
    }
}

/// Counts the whole records of a stream of so many bytes without ids, of the one group, if there is one.
fn tally_alone(alloc: Global, total: u64, groups: &[GroupRow]) -> Result<Tally, Memory>
    requires { length groups.now < 2 }
    ensures within { IfOk result (λ tally. tally.whole ≤ total) }
    ensures tally { IfOk result (IsTally (length groups.now) (whole_alone total groups.now)) }
{
    let mut counts = Rows::empty(alloc);
    if groups.is_empty() {
        return Ok(Tally { counts, whole: 0 });
    }
    let group = &groups[0];
    let count = count_alone(total, group);
    counts.push(count)?;
    Ok(Tally {
        counts,
        whole: count * record_size(group),
    })
}

/// Counts the whole records of the stream of a data group.
#[tactic(auto, unfolding(crate::specs::Records::whole_records))]
pub(crate) fn tally_of(
    alloc: Global,
    bytes: &[u8],
    view: &DataView,
    row: &DataRow,
) -> Result<Tally, Memory>
    requires ids { IsTrue (has_id_size row.now) }
    requires inside { ArePartsInside (length bytes.now) view.now }
    ensures within { IfOk result (λ tally. tally.whole ≤ stream_size view.now) }
    ensures tally { IfOk result (IsTally (length row.now.groups) (whole_records (stream_of bytes.now view.now) (stream_size view.now) row.now)) }
{
    if row.id_size == 0 {
        return tally_alone(alloc, view.len(), row.groups.as_slice());
    }
    tally_with_ids(alloc, bytes, view, row)
}
