//! What the thread of an input does.
ghost use Rattle.std.specs.Prelude.{◌≤◌, length};

use crossbeam_channel::{Receiver, Sender};
use std::alloc::Global;
use std::io::{self, Read};
use std::sync::Wait;

/// How many bytes are read at once, at most.
pub(crate) const ROOM: usize = 65_536;

/// Bytes that were read and are not taken yet: those from `start` up to `end`.
#[derive(Drop)]
pub(crate) struct Piece {
    bytes: Vec<u8>,
    start: usize,
    end: usize,
    ghost front: { start ≤ end },
    ghost within: { end ≤ length bytes.items },
}

impl Piece {
    /// Gives the next bytes into the front of `buf`: how many, and what is left, or the room where nothing is.
    pub(crate) fn give(self, buf: &mut [u8]) -> (usize, Result<Piece, Vec<u8>>)
        ensures { result.0 ≤ length buf.old }
    {
        let Piece { bytes, start, end } = self;
        let count = buf.len().min(end - start);
        buf[..count].copy_from_slice(&bytes[start..start + count]);
        let start = start + count;
        if start < end {
            (count, Ok(Piece { bytes, start, end }))
        } else {
            (count, Err(bytes))
        }
    }
}

/// What one read brought, or why it failed.
pub(crate) type Brought = io::Result<Piece>;

/// Reads into each room that comes, and sends on what each read brought, until the input ends or fails, or nobody asks for it any more.
pub(crate) fn read_on<R: Wait, F: Read>(
    rt: &R,
    input: &mut F,
    rooms: &Receiver<Vec<u8>, Global>,
    pieces: &Sender<Brought, Global>,
) {
    for mut bytes in rooms.iter(rt) {
        let brought = match input.read(bytes.as_mut_slice()) {
            Ok(0) => return,
            Ok(end) => Ok(Piece {
                bytes,
                start: 0,
                end,
            }),
            Err(error) => Err(error),
        };
        let failed = brought.is_err();
        if pieces.send(rt, brought).is_err() || failed {
            return;
        }
    }
}
