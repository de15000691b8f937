ghost use Rattle.std.specs.Prelude.{◌≡◌, ◌≤◌, length, IfOk};
ghost use Rattle.mdf_group.specs.Recordable.{AreRecordable};
ghost use Rattle.mdf_gate.specs.Gated.{IsRecordingHead};
ghost use Rattle.mdf_spell.specs.Recording.{head_file};
ghost use Rattle.mdf_carried.specs.Recovers.{IsReadHead};

use mdf_format::Form;
use mdf_group::GroupRow;
use mdf_num::{Bytes, Memory, Rows};
use mdf_spell::recording_head;
use std::alloc::Global;

/// The head of a recording of these groups, up to the place where its data begin, with this start time in ns and in this
/// form: what `recording_head` gives.
///
/// # Errors
/// `Memory` where memory runs out.
pub(crate) fn head_for(
    alloc: Global,
    start_ns: u64,
    rows: &Rows<GroupRow>,
    form: Form,
) -> Result<Bytes, Memory>
    requires { AreRecordable rows.now }
    ensures head { IfOk result (λ head. head ≡ head_file form start_ns rows.now) }
    ensures recording { IfOk result (λ head. IsRecordingHead head) }
    ensures short { IfOk result (λ head. length head ≤ 524288) }
    ensures readable { IfOk result (λ _. IsReadHead form start_ns rows.now) }
{
    let head = recording_head(alloc, start_ns, rows, form)?;
    Ok(head)
}
