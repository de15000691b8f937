ghost use Rattle.std.specs.Prelude.{◌≡◌, ◌-◌, ◌^◌, ◌≤◌, ◌<◌, length, IfOk, IfSome, OnErr};
ghost use Rattle.mdf_block.specs.Refusal.{GivesOf};
ghost use Rattle.mdf_block.specs.Reads.{Reads};
ghost use Rattle.mdf_stream.specs.Parts.{stream_of, stream_size, ArePartsInside};
ghost use Rattle.mdf_data.specs.Record.{IsIdSize, piece_at, split_refusal, IsPieceAt};
ghost use Rattle.mdf_data.specs.Splitting.{advanced};

use crate::record::{group_of, group_piece_in, id_here_in};
use crate::{DataView, Known, Piece, SplitFault};
use mdf_num::{Halt, Rows, SliceSpan, Span};
use std::marker::Model;

/// A place in a stream of records, and the groups that its records belong to.
#[derive(Drop)]
pub struct Splitter {
    id_size: u8,
    known: Rows<Known>,
    place: u64,
}

impl Model for Splitter {
    ghost use Rattle.std.specs.Prelude.{length, ◌<◌, ◌^◌};
    ghost use Rattle.mdf_data.specs.Record.{IsIdSize};
    ghost use Rattle.mdf_data.specs.Splitting.{Splitting};

    ghost Value = { Splitting };

    ghost view = { λ s. record { id_size = s.id_size; known = s.known; place = s.place } };

    ghost invariant = { λ s. IsIdSize s.id_size × (length s.known < 2 ^ 32) };
}

impl Splitter {
    /// At the begin of a stream whose records have ids of so many bytes and belong to these groups. An id that stands
    /// twice belongs to the first. It takes no memory.
    pub fn new(id_size: u8, known: Rows<Known>) -> Splitter
        requires id_size { IsIdSize id_size }
        requires few { length known < 2 ^ 32 }
        ensures { result ≡ record { id_size = id_size; known = known; place = 0 } }
    {
        Splitter {
            id_size,
            known,
            place: 0,
        }
    }

    /// The next whole record of the stream, read through a span, and None exactly at the end. It takes no memory of its
    /// own.
    ///
    /// # Errors
    /// As `next`, and the span's own. The splitter is as before.
    #[tactic(auto, unfolding(crate::specs::Record::piece_at))]
    pub fn next_in<P: Span>(
        &mut self,
        span: &mut P,
        view: &DataView,
    ) -> Result<Option<Piece>, Halt<SplitFault>>
        requires inside { ArePartsInside (P.size span.old) view.now }
        requires within { self.old.place ≤ stream_size view.now }
        ensures reads { Reads P.Span span.old span.new P.may_want split_refusal result
            (λ file. piece_at (stream_of file view.now) self.old.id_size self.old.known self.old.place (stream_size view.now - self.old.place)) }
        ensures piece { IfOk result (λ found. IfSome found (IsPieceAt (stream_size view.now) self.old.id_size self.old.known self.old.place)) }
        ensures next { IfOk result (λ found. self.new ≡ advanced self.old found) }
        ensures err { OnErr result (self.new ≡ self.old) }
        ensures within { self.new.place ≤ stream_size view.now }
    {
        let mut near = 0;
        let Some(id) = id_here_in(span, view, self.id_size, self.place, &mut near)? else {
            return Ok(None);
        };
        let group = group_of(self.known.as_slice(), id);
        let piece = group_piece_in(span, view, self.id_size, self.place, id, group, &mut near)?;
        self.place = piece.at + piece.len;
        Ok(Some(piece))
    }

    /// The next whole record of the stream, where its parts are of these bytes, and None exactly at the end. It takes no
    /// memory.
    ///
    /// # Errors
    /// `UnknownId` exactly where a whole id stands at the place and no group has it. `Cut` exactly where fewer bytes than
    /// an id has are left, or the record of a known id is not whole. The splitter is as before.
    pub fn next(&mut self, bytes: &[u8], view: &DataView) -> Result<Option<Piece>, SplitFault>
        requires inside { ArePartsInside (length bytes.now) view.now }
        requires within { self.old.place ≤ stream_size view.now }
        ensures found { GivesOf split_refusal result
            (piece_at (stream_of bytes.now view.now) self.old.id_size self.old.known self.old.place (stream_size view.now - self.old.place)) }
        ensures piece { IfOk result (λ found. IfSome found (IsPieceAt (stream_size view.now) self.old.id_size self.old.known self.old.place)) }
        ensures next { IfOk result (λ found. self.new ≡ advanced self.old found) }
        ensures err { OnErr result (self.new ≡ self.old) }
        ensures within { self.new.place ≤ stream_size view.now }
    {
        match self.next_in(&mut SliceSpan::new(bytes), view) {
            Ok(found) => Ok(found),
            Err(Halt::Fault(fault)) => Err(fault),
            Err(_) => unreachable!(),
        }
    }
}
