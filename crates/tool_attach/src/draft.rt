ghost use Rattle.std.specs.Prelude.{◌≡◌, ◌<◌, ◌^◌, length, IfOk, OnOk};
ghost use Rattle.std.specs.List.{AllByRecursion};
ghost use Rattle.mdf_block.specs.declared.link.Link.TheVariants as links;
ghost use Rattle.mdf_block.specs.Draft.{HasLink, with_link};
ghost use Rattle.mdf_tree.specs.Group.{next_if};
ghost use Rattle.mdf_model.specs.declared.part.Measure.{Measure};
ghost use Rattle.tool_attach.specs.Attached.{attached_blocks};

use crate::place::place_attachments;
use mdf_attach::Attachment;
use mdf_block::Draft;
use mdf_model::Measurement;
use mdf_num::{Memory, Rows};
use mdf_tree::next_number;
use std::alloc::Global;
use tool_sort::sorted_draft;

/// The number of the header among the blocks of a file.
const HEADER: u32 = 0;

/// The number of its link to the first attachment.
const FIRST_ATTACHMENT: u32 = 3;

/// Where there are attachments, makes the header name the next block as the first one.
fn name_first(draft: &mut Draft, some: bool) -> Result<(), Memory>
    requires linked { HasLink draft.old 0 3 }
    requires free { with_link draft.old 0 3 links.Nothing ≡ draft.old }
    ensures { OnOk result (draft.new ≡ with_link draft.old 0 3 (next_if some (length draft.old))) }
{
    if some {
        let first = next_number(draft)?;
        draft.link(HEADER, FIRST_ATTACHMENT, first);
    }
    Ok(())
}

/// The blocks of the sorted file of a measurement with these attachments. The records are moved into them, and what is left of both is
/// given back to the allocator.
pub(crate) fn attached_draft(
    alloc: Global,
    measurement: Measurement,
    rows: Rows<Attachment>,
    now_ns: u64,
) -> Result<Draft, Memory>
    ensures placed { IfOk result (λ blocks. blocks ≡ attached_blocks measurement rows now_ns) }
    ensures fit { OnOk result (AllByRecursion (λ (m : Measure). m.count < 2 ^ 64) measurement.groups) }
{
    let mut draft = sorted_draft(alloc, measurement, "attach", now_ns)?;
    name_first(&mut draft, !rows.is_empty())?;
    place_attachments(alloc, &mut draft, rows.as_slice())?;
    Ok(draft)
}
