ghost use Rattle.std.specs.Prelude.{◌≡◌, ◌+◌, ◌*◌, ◌≤◌, ◌<◌, ◌^◌, Ok, true};
ghost use Rattle.mdf_format.specs.declared.kind.Kind.TheVariants.{Cc, Si};
ghost use Rattle.mdf_block.specs.Refusal.{Gives};
ghost use Rattle.mdf_block.specs.Reads.{Looks, Says};
ghost use Rattle.mdf_block.specs.Block.{body_of, IsInside, IsFilled};
ghost use Rattle.mdf_conv.specs.Conv.{HoldsValues, numbers_at, source_front, source_with, the_front, conv_numbers, conversion_with, conv_refusal};

use crate::front::{ConvFront, ConvNumbers, SourceFront};
use crate::texts::Texts;
use crate::{ConvFault, Conversion, Ref, SourceInfo, link_count};
use mdf_block::{BlockAt, Kind, body_in, link_in, u16_field, u64_field};
use mdf_num::{Halt, Numbers, Rows, Span, Stop};
use std::alloc::Global;

/// The numbers in the body of a source.
pub(crate) fn source_front_in<P: Span>(span: &mut P, block: &BlockAt) -> Result<SourceFront, Stop>
    requires inside { IsInside (P.size span.old) block.now }
    requires filled { IsFilled Si block.now }
    ensures reads { Looks P.Span span.old span.new P.may_want result (λ file front. front ≡ source_front (body_of file block.now)) }
{
    let mut body = [0u8; 8];
    body_in(span, block, &mut body)?;
    Ok(SourceFront {
        kind: body[0],
        bus: body[1],
        flags: body[2],
    })
}

/// The source with these numbers and texts.
pub(crate) fn source_of(front: SourceFront, texts: Texts) -> SourceInfo
    ensures { result ≡ source_with front texts }
{
    SourceInfo {
        kind: front.kind,
        bus: front.bus,
        flags: front.flags,
        name: texts.name,
        path: texts.unit,
        comment: texts.comment,
    }
}

/// So many numbers of 8 bytes, from `start` on.
fn numbers_in<P: Span>(alloc: Global, span: &mut P, start: u64, count: u64) -> Result<Numbers, Stop>
    requires there { start + 8 * count ≤ P.size span.old }
    requires fits { start + 8 * count < 2 ^ 64 }
    ensures reads { Looks P.Span span.old span.new true result (λ file numbers. numbers ≡ numbers_at file start count) }
{
    let mut numbers = Numbers::empty(alloc);
    for k in 0..count {
        let mut word = [0u8; 8];
        span.fill(start + 8 * k, &mut word)?;
        numbers.push(u64_field(&word, 0))?;
    }
    Ok(numbers)
}

/// The numbers in the first 24 bytes of the body of a conversion.
fn front_in<P: Span>(span: &mut P, block: &BlockAt) -> Result<ConvFront, Stop>
    requires inside { IsInside (P.size span.old) block.now }
    requires filled { IsFilled Cc block.now }
    ensures reads { Looks P.Span span.old span.new P.may_want result (λ file front. front ≡ the_front (body_of file block.now)) }
{
    let mut body = [0u8; 24];
    body_in(span, block, &mut body)?;
    Ok(ConvFront {
        kind: body[0],
        precision: body[1],
        flags: u16_field(&body, 2),
        count: u16_field(&body, 6),
        low: u64_field(&body, 8),
        high: u64_field(&body, 16),
    })
}

/// The numbers of the conversion of a block.
///
/// # Errors
/// `Bad` where the numbers that the body counts pass its end, which a span does not tell of a whole block.
pub(crate) fn conv_numbers_in<P: Span>(
    alloc: Global,
    span: &mut P,
    block: &BlockAt,
) -> Result<ConvNumbers, Halt<ConvFault>>
    requires inside { IsInside (P.size span.old) block.now }
    requires filled { IsFilled Cc block.now }
    ensures reads { Says P.Span span.old span.new true conv_refusal result (λ file. HoldsValues file block.now → Gives conv_refusal result (Ok (conv_numbers file block.now))) }
{
    let inverse = link_in(span, block, 3)?;
    let front = front_in(span, block)?;
    let count = front.count as u64;
    if count > (block.body_len - 24) / 8 {
        return Err(Halt::Fault(ConvFault::Bad {
            at: block.at,
            want: Kind::Cc,
        }));
    }
    let numbers = numbers_in(alloc, span, block.body_at + 24, count)?;
    Ok(ConvNumbers {
        front,
        numbers,
        inverse: link_count(inverse),
    })
}

/// The conversion with these numbers, texts and references.
pub(crate) fn conversion_of(found: ConvNumbers, texts: Texts, refs: Rows<Ref>) -> Conversion
    ensures { result ≡ conversion_with found texts refs }
{
    let front = found.front;
    Conversion {
        kind: front.kind,
        precision: front.precision,
        flags: front.flags,
        low: front.low,
        high: front.high,
        numbers: found.numbers,
        refs,
        name: texts.name,
        unit: texts.unit,
        comment: texts.comment,
    }
}
