ghost use Rattle.std.specs.Prelude.{◌≡◌, ◌+◌, ◌≤◌, ◌<◌, length};
ghost use Rattle.mdf_format.specs.Field.{signed_number};
ghost use Rattle.mdf_format.specs.declared.kind.Kind.TheVariants.{Hd, Fh};
ghost use Rattle.mdf_block.specs.Block.{body_of, IsInside, IsFilled};
ghost use Rattle.mdf_block.specs.Reads.{Looks};
ghost use Rattle.mdf_head.specs.Head.{signed_at, the_head, the_history};

use crate::{Head, History};
use mdf_block::{BlockAt, Note, body_in, u16_field, u64_field};
use mdf_num::{Span, Stop};

/// A number of 16 bits as two's complement.
fn signed(value: u16) -> i16
    ensures { result ≡ signed_number 16 value }
{
    if value < 1 << 15 {
        value as i16
    } else {
        -1 - (u16::MAX - value) as i16
    }
}

/// The signed number in the 2 bytes of a body from `at` on.
fn i16_field(body: &[u8], at: u64) -> i16
    requires { at + 2 ≤ length body.now }
    ensures { result ≡ signed_at body.now at }
{
    signed(u16_field(body, at))
}

/// The header of a block, with this comment and this address of the first data group.
pub(crate) fn head_in<P: Span>(
    span: &mut P,
    block: &BlockAt,
    comment: Note,
    first_dg: u64,
) -> Result<Head, Stop>
    requires inside { IsInside (P.size span.old) block.now }
    requires filled { IsFilled Hd block.now }
    ensures reads { Looks P.Span span.old span.new P.may_want result (λ file head. head ≡ the_head (body_of file block.now) comment first_dg) }
{
    let mut body = [0u8; 32];
    body_in(span, block, &mut body)?;
    Ok(Head {
        start: u64_field(&body, 0),
        zone: i16_field(&body, 8),
        daylight: i16_field(&body, 10),
        time_flags: body[12],
        time_class: body[13],
        flags: body[14],
        angle: u64_field(&body, 16),
        distance: u64_field(&body, 24),
        comment,
        first_dg,
    })
}

/// The entry of the history of a block, with this comment.
pub(crate) fn entry_in<P: Span>(
    span: &mut P,
    block: &BlockAt,
    comment: Note,
) -> Result<History, Stop>
    requires inside { IsInside (P.size span.old) block.now }
    requires filled { IsFilled Fh block.now }
    ensures reads { Looks P.Span span.old span.new P.may_want result (λ file entry. entry ≡ the_history block.now.at (body_of file block.now) comment) }
{
    let mut body = [0u8; 16];
    body_in(span, block, &mut body)?;
    Ok(History {
        at: block.at,
        time: u64_field(&body, 0),
        zone: i16_field(&body, 8),
        daylight: i16_field(&body, 10),
        flags: body[12],
        comment,
    })
}
