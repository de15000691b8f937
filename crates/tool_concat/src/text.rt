ghost use Rattle.std.specs.Prelude.{◌≡◌, ◌↔◌, IsTrue};

use mdf_block::Note;

/// Whether two texts are the same: both of a TXBLOCK or both of an MDBLOCK, with equal bytes.
pub(crate) fn same_note(one: &Note, other: &Note) -> bool
    ensures { IsTrue result ↔ (one.now ≡ other.now) }
{
    match one {
        Note::Nothing => match other {
            Note::Nothing => true,
            _ => false,
        },
        Note::Plain(bytes) => match other {
            Note::Plain(others) => bytes.as_slice() == others.as_slice(),
            _ => false,
        },
        Note::Xml(bytes) => match other {
            Note::Xml(others) => bytes.as_slice() == others.as_slice(),
            _ => false,
        },
    }
}
