ghost use Rattle.std.specs.Prelude.{ℕ, ◌≡◌, List, IfOk};
ghost use Rattle.std.specs.List.{AllByRecursion};
ghost use Rattle.mdf_attach.specs.Stands.{AreFew};
ghost use Rattle.tool_sort.specs.Kept.{StandsIn};
ghost use Rattle.tool_attach.specs.Attached.{attached_file, IsAttachedOf, IsAttachmentWritable};
ghost use Rattle.tool_attach.specs.Making.{IsMadeWith};

use crate::draft::attached_draft;
use mdf_attach::Attachment;
use mdf_model::Measurement;
use mdf_num::{Memory, Pieces, Rows};
use mdf_spell::FINALIZED_IDENT;
use mdf_tool::Made;
use std::alloc::Global;
use tool_sort::report_of;

/// The sorted file of a measurement with these attachments.
fn spell_attached(
    alloc: Global,
    measurement: Measurement,
    rows: Rows<Attachment>,
    now_ns: u64,
) -> Result<Pieces, Memory>
    ensures written { IfOk result (λ bytes. bytes ≡ attached_file measurement rows now_ns) }
    ensures keeps { (file : List ℕ) → StandsIn file measurement → AllByRecursion IsAttachmentWritable rows → AreFew rows
        → IfOk result (IsAttachedOf measurement rows now_ns) }
{
    let blocks = attached_draft(alloc, measurement, rows, now_ns)?;
    blocks.into_pieces(&FINALIZED_IDENT)
}

/// The same with what is told of it.
pub(crate) fn make_attached(
    alloc: Global,
    measurement: Measurement,
    rows: Rows<Attachment>,
    now_ns: u64,
) -> Result<Made, Memory>
    ensures made { IfOk result (IsMadeWith measurement rows now_ns) }
    ensures keeps { (file : List ℕ) → StandsIn file measurement → AllByRecursion IsAttachmentWritable rows → AreFew rows
        → IfOk result (λ made. IsAttachedOf measurement rows now_ns made.bytes) }
{
    let report = report_of(&measurement)?;
    let bytes = spell_attached(alloc, measurement, rows, now_ns)?;
    Ok(Made { bytes, report })
}
