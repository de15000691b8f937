// The words of the command, and the names of the parts.
ghost use Rattle.std.specs.Prelude.{◌≡◌, ◌↔◌, true, IfOk, MatchOption};
ghost use Rattle.mdf_rotate.specs.Words.{AsksNoRotation, AsksToRotate, part_name};

use itoa::Buffer;
use mdf_num::{Bytes, Memory, Rows};
use std::alloc::Global;

/// Whether a word is this text.
fn is(word: &[u8], text: &[u8]) -> bool
    ensures { (result ≡ true) ↔ (word.now ≡ text.now) }
{
    word == text
}

/// The output of a rotation, if the words ask for one.
pub(crate) fn output_in(words: &Rows<Bytes>) -> Option<&Bytes>
    ensures { MatchOption result (AsksNoRotation words.now) (λ output. AsksToRotate words.now output.now) }
{
    match words.as_slice() {
        [name, output] if is(name.as_slice(), b"rotate") => Some(output),
        _ => None,
    }
}

/// The name of a part.
pub fn part_name(alloc: Global, output: &Bytes, number: u64) -> Result<Bytes, Memory>
    ensures { IfOk result (λ name. name ≡ part_name output.now number) }
{
    let mut name = Vec::from_slice(alloc, output.as_slice())?;
    name.extend_from_slice(b".")?;
    name.extend_from_slice(Buffer::new().format(number).as_bytes())?;
    Ok(Bytes::from_vec(name))
}
