ghost use Rattle.std.specs.Prelude.{◌≡◌, ◌+◌, ◌≤◌, ◌<◌, ◌^◌, length, IfOk, IfErr, OnErr};
ghost use Rattle.mdf_format.specs.Number.{aligned};
ghost use Rattle.mdf_format.specs.Form.{form_of};
ghost use Rattle.mdf_block.specs.Refusal.{Refuses};
ghost use Rattle.mdf_gate.specs.Units.{opened_from};
ghost use Rattle.mdf_gate.specs.Recording.{HasNoOpened};
ghost use Rattle.mdf_gate.specs.Opened.{IsCountOf};
ghost use Rattle.mdf_gate.specs.Fault.{HasFault, gate_refusal};
ghost use Rattle.mdf_gate.specs.Scan.{AreCounted};

use crate::recording::{first_place, form_of};
use crate::unit::{is_open, unit_at};
use crate::{GateFault, Opened};
use mdf_block::BlockAt;
use mdf_format::Form;
use mdf_num::align8;

/// Counts the unit of this data block too, and goes to the place after it.
fn count_unit(count: Opened, unit: BlockAt) -> Opened
    requires there { count.next + 24 ≤ unit.body_at }
    requires short { unit.body_at + unit.body_len ≤ 2 ^ 63 }
    requires blocks { count.blocks ≤ count.next }
    requires bytes { count.bytes ≤ count.next }
    ensures blocks { result.blocks ≡ count.blocks + 1 }
    ensures bytes { result.bytes ≡ count.bytes + unit.body_len }
    ensures first { result.first ≡ count.first }
    ensures next { result.next ≡ aligned (unit.body_at + unit.body_len) }
    ensures later { count.next + 24 ≤ result.next }
    ensures still_blocks { result.blocks ≤ result.next }
    ensures still_bytes { result.bytes ≤ result.next }
{
    Opened {
        blocks: count.blocks + 1,
        bytes: count.bytes + unit.body_len,
        first: count.first,
        next: align8(unit.body_at + unit.body_len),
    }
}

/// Counts the units from a place on, from gate to gate, up to the first closed one.
fn scan(bytes: &[u8], form: Form, first: u64) -> Result<Opened, GateFault>
    requires { length bytes.now ≤ 2 ^ 63 }
    ensures counted { IfOk result (AreCounted form bytes.now first) }
    ensures refused { IfErr result (λ fault. Refuses (gate_refusal fault) (opened_from form bytes.now (length bytes.now) first)) }
{
    let mut count = Opened {
        blocks: 0,
        bytes: 0,
        first,
        next: first,
    };
    while is_open(bytes, count.next) {
        let unit = unit_at(bytes, form, count.next)?;
        count = count_unit(count, unit);
    }
    Ok(count)
}

/// Counts the opened blocks of a recording. It goes from gate to gate and looks at no byte of their data. It takes no
/// memory.
///
/// # Errors
/// The first of these that fails, in this order: `NotMdf` exactly where no identification stands at the start,
/// `Version` where its version is not read, `NotRecording` where it is not that of a recording, and `Bad` where no
/// whole block of the kind stands at the address: the header at 64, the first data group, a data link that is a
/// place, and at each open place the unit of its form. In form 1 that is a data block. In form 2 it is a list block of 56
/// bytes with two links, of which the second names the address after it; then a data block there; and then the first of
/// the links names the next place, or the list block is the one that is told.
pub fn opened(bytes: &[u8]) -> Result<Opened, GateFault>
    requires { length bytes.now ≤ 2 ^ 63 }
    ensures opened { IfOk result (IsCountOf bytes.now) }
    ensures fault { IfErr result (HasFault bytes.now) }
    ensures not_opened { OnErr result (HasNoOpened bytes.now) }
{
    let first = first_place(bytes)?;
    scan(bytes, form_of(bytes), first)
}
