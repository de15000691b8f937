ghost use Rattle.std.specs.Prelude.{◌≡◌, ◌↔◌, ◌<◌, None, IfOk, IsSome};

use crate::Input;
use crate::reading::{Brought, Piece, ROOM, read_on};
use crossbeam_channel::{Receiver, RecvTimeoutError, Sender, bounded};
use mdf_num::{Failed, Memory, SystemFaults};
use mdf_port::Source;
use std::alloc::Global;
use std::io::{self, Error, Read};
use std::sync::Wait;
use std::time::{Clock, Duration};

/// How many milliseconds one waits for bytes that do not come.
const PATIENCE: u64 = 100;

/// How many reads go ahead of what is taken.
const AHEAD: usize = 2;

/// The bytes that come out of a file, which a thread of its own opens and reads. It does not tell what is left: what comes is known to
/// nobody before.
#[derive(Drop)]
pub struct InputFile<R: Wait + Clock> {
    rt: R,
    rooms: Option<Sender<Vec<u8>, Global>>,
    pieces: Option<Receiver<Brought, Global>>,
    piece: Option<Piece>,
    faults: SystemFaults,
}

/// What the thread of an input reads with.
#[derive(Drop)]
pub struct Reading {
    rooms: Receiver<Vec<u8>, Global>,
    pieces: Sender<Brought, Global>,
}

impl Reading {
    /// Reads what `opener` opens, until it ends or fails or nobody asks for it any more. It is to be called in a thread of its own, so
    /// that an input which nobody writes yet holds up nobody.
    pub fn run<R: Wait, F: Read + Drop, O: FnOnce() -> io::Result<F>>(self, rt: &R, opener: O)
        requires { O.pre opener }
    {
        match opener() {
            Ok(mut input) => read_on(rt, &mut input, &self.rooms, &self.pieces),
            Err(error) => drop(self.pieces.send(rt, Err(error))),
        }
    }
}

impl<R: Wait + Clock> InputFile<R> {
    /// An input of which nothing is read yet, and what its thread reads with.
    ///
    /// # Errors
    /// Want of memory.
    pub fn new(rt: R, alloc: Global) -> Result<(InputFile<R>, Reading), Memory>
    where
        R: Drop,
        ensures left { IfOk result (λ made. ⟦<InputFile<R> as Source>⟧.left made.0 ≡ None) }
        ensures faults { IfOk result (λ made. ⟦<InputFile<R> as Source>⟧.faults made.0 ≡ 0) }
    {
        let (rooms, their_rooms) = bounded(alloc, AHEAD)?;
        let (their_pieces, pieces) = bounded(alloc, AHEAD)?;
        for _room in 0..AHEAD {
            if rooms.try_send(&rt, vec![in alloc; 0; ROOM]?).is_err() {
                return Err(Memory);
            }
        }
        let reading = Reading {
            rooms: their_rooms,
            pieces: their_pieces,
        };
        let file = InputFile {
            rt,
            rooms: Some(rooms),
            pieces: Some(pieces),
            piece: None,
            faults: SystemFaults::zero(),
        };
        Ok((file, reading))
    }

    /// The error of the last call that failed. There is one exactly where a call has failed.
    pub fn last_error(&self) -> Option<Error>
        ensures { IsSome result ↔ (0 < ⟦<InputFile<R> as Source>⟧.faults self.now) }
    {
        self.faults.last()
    }

    /// The next piece, once it comes, or nothing at the end.
    fn next_piece(&mut self) -> io::Result<Option<Piece>>
        ensures { self.new.faults ≡ self.old.faults }
    {
        if let Some(piece) = self.piece.take() {
            return Ok(Some(piece));
        }
        match &self.pieces {
            Some(pieces) => match pieces.recv(&self.rt) {
                Ok(brought) => Ok(Some(brought?)),
                Err(_) => Ok(None),
            },
            None => Ok(None),
        }
    }

    /// Hands room back to the thread that reads.
    fn hand_back(&self, bytes: Vec<u8>) {
        if let Some(rooms) = &self.rooms {
            drop(rooms.send(&self.rt, bytes));
        }
    }
}

impl<R: Wait + Clock> Source for InputFile<R> {
    ghost left = { λ _. None };

    ghost faults = { λ s. s.faults.count };

    fn take(&mut self, buf: &mut [u8]) -> Result<usize, Failed> {
        let piece = match self.next_piece() {
            Ok(Some(piece)) => piece,
            Ok(None) => return Ok(0),
            Err(error) => return Err(self.faults.fail(error)),
        };
        let (count, left) = piece.give(buf);
        match left {
            Ok(piece) => self.piece = Some(piece),
            Err(bytes) => self.hand_back(bytes),
        }
        Ok(count)
    }

    fn faults(&self) -> u64 {
        self.faults.get()
    }
}

impl<R: Wait + Clock> Input for InputFile<R> {
    fn wait(&mut self) -> Result<bool, Failed> {
        if self.piece.is_some() {
            return Ok(true);
        }
        let Some(pieces) = &self.pieces else {
            return Ok(true);
        };
        match pieces.recv_timeout(&self.rt, Duration::from_millis(PATIENCE)) {
            Ok(Ok(piece)) => {
                self.piece = Some(piece);
                Ok(true)
            }
            Ok(Err(error)) => Err(self.faults.fail(error)),
            Err(RecvTimeoutError::Timeout) => Ok(false),
            Err(RecvTimeoutError::Disconnected) => Ok(true),
        }
    }

    fn close(&mut self) {
        self.rooms = None;
        self.pieces = None;
        self.piece = None;
    }
}
