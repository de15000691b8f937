ghost use Rattle.std.specs.Prelude.{◌≡◌, ◌∷◌, ◌≤◌, [], length, map};
ghost use Rattle.std.specs.List.{flat_map};
ghost use Rattle.mdf_port.specs.State.{sink_state};
ghost use Rattle.mdf_command.specs.Texts.{Gives, line, piece_text, pieces_text, shown, shown_text, status_after};

use crate::room::{ROOM, Room};
use itoa::Buffer;
use mdf_num::Failed;
use mdf_port::{Sink, give_all};

/// A part of a printed line.
#[derive(Clone, Copy)]
pub enum Piece<'a> {
    Text(&'a [u8]),
    /// A number, in decimal.
    Number(u64),
    /// A sum of numbers, in decimal.
    Sum(u128),
    /// A name: `?` for each control character of it, and `-` for an empty one.
    Name(&'a [u8]),
}

/// What is printed of a name's byte.
fn shown(byte: u8) -> u8
    ensures { result ∷ [] ≡ shown byte }
{
    if byte < 0x20 || byte == 0x7F {
        b'?'
    } else {
        byte
    }
}

/// Gives the bytes of a part of a name at once. They are no more than a line that is given at once may have.
fn give_part<K: Sink>(sink: &mut K, part: &[u8]) -> Result<(), Failed>
    requires few { length part.now ≤ 256 }
    ensures { Gives (flat_map shown part.now) (sink_state K.Sink sink.old) (sink_state K.Sink sink.new) result }
{
    let mut bytes = [0u8; ROOM];
    let mut i = 0;
    while i < part.len() {
        bytes[i] = shown(part[i]);
        i += 1;
    }
    give_all(sink, &bytes[..part.len()])
}

/// Gives the bytes of a name, as many at once as a line may have.
fn give_shown<K: Sink>(sink: &mut K, text: &[u8]) -> Result<(), Failed>
    ensures { Gives (flat_map shown text.now) (sink_state K.Sink sink.old) (sink_state K.Sink sink.new) result }
{
    let mut rest = text;
    while !rest.is_empty() {
        let (part, behind) = rest.split_at(rest.len().min(ROOM));
        give_part(sink, part)?;
        rest = behind;
    }
    Ok(())
}

/// Gives a name.
fn give_name<K: Sink>(sink: &mut K, name: &[u8]) -> Result<(), Failed>
    ensures { Gives (shown_text name.now) (sink_state K.Sink sink.old) (sink_state K.Sink sink.new) result }
{
    match name {
        [] => give_all(sink, b"-"),
        [..] => give_shown(sink, name),
    }
}

/// Gives a part of a line.
fn give_piece<K: Sink>(sink: &mut K, piece: Piece<'_>) -> Result<(), Failed>
    ensures { Gives (piece_text piece.entry) (sink_state K.Sink sink.old) (sink_state K.Sink sink.new) result }
{
    match piece {
        Piece::Text(text) => give_all(sink, text),
        Piece::Number(number) => give_all(sink, Buffer::new().format(number).as_bytes()),
        Piece::Sum(sum) => give_all(sink, Buffer::new().format(sum).as_bytes()),
        Piece::Name(name) => give_name(sink, name),
    }
}

/// Gives these parts, one behind the other.
fn give_pieces<K: Sink>(sink: &mut K, pieces: &[Piece<'_>]) -> Result<(), Failed>
    ensures { Gives (pieces_text pieces.now) (sink_state K.Sink sink.old) (sink_state K.Sink sink.new) result }
{
    for piece in pieces {
        give_piece(sink, *piece)?;
    }
    Ok(())
}

/// Gives these parts and LF, one behind the other.
fn give_in_parts<K: Sink>(sink: &mut K, pieces: &[Piece<'_>]) -> Result<(), Failed>
    ensures { Gives (line (map piece_text pieces.now)) (sink_state K.Sink sink.old) (sink_state K.Sink sink.new) result }
{
    give_pieces(sink, pieces)?;
    give_all(sink, b"\n")
}

/// Gives a line of these parts, which ends with LF: at once where it has up to 256 bytes, and else part by part, a name by 256 bytes at a
/// time. It takes no memory.
///
/// # Errors
/// `Failed` where the sink failed; then it has a front of the line.
pub fn give_line<K: Sink>(sink: &mut K, pieces: &[Piece<'_>]) -> Result<(), Failed>
    ensures { Gives (line (map piece_text pieces.now)) (sink_state K.Sink sink.old) (sink_state K.Sink sink.new) result }
{
    let mut room = Room::new();
    match give_in_parts(&mut room, pieces) {
        Ok(()) => give_all(sink, room.bytes()),
        Err(_) => give_in_parts(sink, pieces),
    }
}

/// The program's status, which is the command's; only a 0 becomes 6 where the text could not be written.
pub fn status_after(given: Result<(), Failed>, status: u8) -> u8
    ensures { result ≡ status_after given status }
{
    match given {
        Ok(()) => status,
        Err(_) if status == 0 => 6,
        Err(_) => status,
    }
}
