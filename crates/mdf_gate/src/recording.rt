ghost use Rattle.std.specs.Prelude.{◌≡◌, ◌≤◌, ◌↔◌, length, IsTrue, IfOk, IfErr, OnOk, OnErr};
ghost use Rattle.mdf_gate.specs.declared.answer.GateFault.TheVariants.{Bad};
ghost use Rattle.mdf_format.specs.Block.{IsBlock};
ghost use Rattle.mdf_block.specs.Block.{the_block, IsInside, IsFilled};
ghost use Rattle.mdf_format.specs.Form.{NamesForm, form_of};
ghost use Rattle.mdf_gate.specs.Recording.{IsPlace, IsRecording, first_place};
ghost use Rattle.mdf_gate.specs.Fault.{HasFault};

use crate::GateFault;
use mdf_block::{BlockAt, block_at, link_of, u16_field};
use mdf_format::{Form, Kind};
use mdf_head::{Ident, ident};

/// The address of the header.
const HEADER: u64 = 64;

/// The block of a kind that the form of a recording wants at an address.
pub fn wanted_block(bytes: &[u8], at: u64, want: Kind) -> Result<BlockAt, GateFault>
    ensures found { IfOk result (λ block. IsBlock bytes.now at want × (block ≡ the_block bytes.now at want)) }
    ensures inside { IfOk result (IsInside (length bytes.now)) }
    ensures filled { IfOk result (IsFilled want) }
    ensures fault { IfErr result (λ fault. fault ≡ Bad at want) }
    ensures none { OnErr result (¬ IsBlock bytes.now at want) }
{
    match block_at(bytes, at, want) {
        Ok(block) => Ok(block),
        Err(_) => Err(GateFault::Bad { at, want }),
    }
}

/// The form of a recording.
pub fn form_of(bytes: &[u8]) -> Form
    requires { 64 ≤ length bytes.now }
    ensures { result ≡ form_of bytes.now }
{
    Form::of_word(u16_field(bytes, 62))
}

/// Whether an identification is that of a recording: not finalized, and with the custom word of a form.
fn is_in_form(id: &Ident) -> bool
    ensures { IsTrue result ↔ ((¬ IsTrue id.now.finalized) × NamesForm id.now.custom_flags) }
{
    !id.finalized && Form::is_word(id.custom_flags)
}

/// Whether data can begin at this place.
fn is_place(place: u64) -> bool
    ensures { IsTrue result ↔ IsPlace place }
{
    place != 0 && place % 8 == 0
}

/// The first place of a recording. What makes a file one is looked at in order: the identification, the version, the
/// form, the header, the first data group, and the data link of that.
pub fn first_place(bytes: &[u8]) -> Result<u64, GateFault>
    ensures recording { OnOk result (IsRecording bytes.now) }
    ensures place { IfOk result (λ place. place ≡ first_place bytes.now) }
    ensures fault { IfErr result (HasFault bytes.now) }
    ensures none { OnErr result (¬ IsRecording bytes.now) }
{
    let id = ident(bytes)?;
    if !is_in_form(&id) {
        return Err(GateFault::NotRecording {
            std: id.std_flags,
            custom: id.custom_flags,
        });
    }
    let header = wanted_block(bytes, HEADER, Kind::Hd)?;
    let group_at = link_of(bytes, &header, 0);
    let group = wanted_block(bytes, group_at, Kind::Dg)?;
    let place = link_of(bytes, &group, 2);
    if !is_place(place) {
        return Err(GateFault::Bad {
            at: place,
            want: Kind::Dt,
        });
    }
    Ok(place)
}
