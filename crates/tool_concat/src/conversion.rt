ghost use Rattle.std.specs.Prelude.{◌≡◌, ◌↔◌, IsTrue};
ghost use Rattle.tool_concat.specs.Same.{SameFront};

use crate::text::same_note;
use mdf_conv::{Conversion, Ref};

/// Whether two references are the same, with all that they refer to.
#[cycle(same)]
fn same_ref(one: &Ref, other: &Ref) -> bool
    ensures { IsTrue result ↔ (one.now ≡ other.now) }
{
    match one {
        Ref::Nothing => match other {
            Ref::Nothing => true,
            _ => false,
        },
        Ref::Words(note) => match other {
            Ref::Words(others) => same_note(note, others),
            _ => false,
        },
        Ref::Conv(boxed) => match other {
            Ref::Conv(others) => same_conversion(boxed.get(), others.get()),
            _ => false,
        },
    }
}

/// Whether references are the same, in order.
#[cycle(same)]
fn same_refs(one: &[Ref], other: &[Ref]) -> bool
    ensures { IsTrue result ↔ (one.now ≡ other.now) }
{
    if one.len() != other.len() {
        return false;
    }
    for k in 0..one.len() {
        if !same_ref(&one[k], &other[k]) {
            return false;
        }
    }
    true
}

/// Whether the numbers and the texts of two conversions are the same.
fn same_front(one: &Conversion, other: &Conversion) -> bool
    ensures { IsTrue result ↔ SameFront one.now other.now }
{
    one.kind == other.kind
        && one.precision == other.precision
        && one.flags == other.flags
        && one.low == other.low
        && one.high == other.high
        && one.numbers.as_slice() == other.numbers.as_slice()
        && same_note(&one.name, &other.name)
        && same_note(&one.unit, &other.unit)
        && same_note(&one.comment, &other.comment)
}

/// Whether two conversions are the same, with all that they refer to.
#[cycle(same)]
fn same_conversion(one: &Conversion, other: &Conversion) -> bool
    ensures { IsTrue result ↔ (one.now ≡ other.now) }
{
    same_front(one, other) && same_refs(one.refs.as_slice(), other.refs.as_slice())
}

/// Whether both have no conversion, or the same one.
pub(crate) fn same_conv(one: &Option<Conversion>, other: &Option<Conversion>) -> bool
    ensures { IsTrue result ↔ (one.now ≡ other.now) }
{
    match one {
        None => other.is_none(),
        Some(conv) => match other {
            None => false,
            Some(others) => same_conversion(conv, others),
        },
    }
}
