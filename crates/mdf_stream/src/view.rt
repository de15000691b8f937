ghost use Rattle.std.specs.Prelude.{◌≡◌, ◌+◌, ◌-◌, ◌^◌, ◌≤◌, ◌<◌, ◌↔◌, ◌++◌, ◌∷◌, [], ℕ, List, length, IsTrue, IfOk, OnOk, OnErr};
ghost use Rattle.mdf_format.specs.Number.{le_number, bytes_at};
ghost use Rattle.mdf_block.specs.Reads.{Looks};
ghost use Rattle.mdf_stream.specs.Parts.{AreBehind, stream_of, stream_size, ArePartsInside};
ghost use Rattle.mdf_stream.specs.Range.{parts_between};

use crate::Part;
use crate::stretch::{Stretch, are_behind, fill_in, front_of, number_in};
use mdf_num::{Memory, SliceSpan, Span, Stop};
use std::alloc::Global;
use std::marker::Model;

/// Parts of a file, read one behind the other as one stream of less than 2^62 bytes. Contracts see it as the list of
/// its parts.
#[derive(Debug, Drop)]
pub struct DataView {
    items: Vec<Stretch>,
    end: u64,
}

impl Model for DataView {
    ghost use Rattle.std.specs.Prelude.{List, ◌<◌, ◌^◌};
    ghost use Rattle.mdf_stream.specs.declared.part.Part.{Part};
    ghost use Rattle.mdf_stream.specs.Stretch.{parts_of, AreJoined};

    ghost Value = { List Part };

    ghost view = { λ v. parts_of v.items.items };

    ghost invariant = { λ v. AreJoined 0 v.items.items v.end × (v.end < 2 ^ 62) };
}

impl DataView {
    /// A stream of no bytes. It takes no memory.
    pub fn empty(alloc: Global) -> DataView
        ensures { result ≡ [] }
    {
        DataView {
            items: Vec::new(alloc),
            end: 0,
        }
    }

    /// How many parts there are.
    pub fn count(&self) -> usize
        ensures { result ≡ length self.now }
    {
        self.items.len()
    }

    /// How many bytes the stream has.
    pub fn len(&self) -> u64
        ensures size { result ≡ stream_size self.now }
        ensures small { result < 2 ^ 62 }
    {
        self.end
    }

    pub fn is_empty(&self) -> bool
        ensures { IsTrue result ↔ (stream_size self.now ≡ 0) }
    {
        self.len() == 0
    }

    /// Whether each part stands in the file at its place in the stream or behind it.
    pub fn is_behind(&self) -> bool
        ensures { IsTrue result ↔ AreBehind 0 self.now }
    {
        are_behind(self.items.as_slice(), self.end)
    }

    /// Adds the `len` bytes from `at` on at the end of the stream.
    ///
    /// # Errors
    /// Want of memory. The stream is as before.
    pub fn add(&mut self, at: u64, len: u64) -> Result<(), Memory>
        requires fits { at + len < 2 ^ 64 }
        requires room { stream_size self.old + len < 2 ^ 62 }
        ensures ok { OnOk result (self.new ≡ self.old ++ record { at = at; len = len } ∷ []) }
        ensures err { OnErr result (self.new ≡ self.old) }
    {
        let end = self.end + len;
        self.items.push(Stretch {
            part: Part { at, len },
            end,
        })?;
        self.end = end;
        Ok(())
    }

    /// The first part of the range of `len` bytes from a place of the stream on: where in the file its next bytes stand. Part `near`
    /// of the stream and the next are tried first: any number will do, and it becomes the number of the part that has it.
    pub fn first_part(&self, at: u64, len: u64, near: &mut usize) -> Part
        requires some { 0 < len }
        requires within { at + len ≤ stream_size self.now }
        ensures some { 0 < result.len }
        ensures most { result.len ≤ len }
        ensures inside { (size : ℕ) → ArePartsInside size self.now → result.at + result.len ≤ size }
        ensures bytes { (f : List ℕ) → ArePartsInside (length f) self.now → bytes_at result.len (stream_of f self.now) at ≡ bytes_at result.len f result.at }
        ensures range { parts_between self.now at len ≡ result ∷ parts_between self.now (at + result.len) (len - result.len) }
    {
        front_of(self.items.as_slice(), self.end, at, len, near)
    }

    /// As `read_in`, where part `near` of the stream and the next are tried first: any number will do, and it becomes the
    /// number of the part that was read last. Places that rise are found so without a search.
    ///
    /// # Errors
    /// The span's own. It is as before in what it tells.
    #[inline]
    pub fn read_near<P: Span>(
        &self,
        span: &mut P,
        at: u64,
        buf: &mut [u8],
        near: &mut usize,
    ) -> Result<(), Stop>
        requires inside { ArePartsInside (P.size span.old) self.now }
        requires within { at + length buf.old ≤ stream_size self.now }
        ensures reads { Looks P.Span span.old span.new P.may_want result (λ file _. buf.new ≡ bytes_at (length buf.old) (stream_of file self.now) at) }
    {
        fill_in(span, self.items.as_slice(), self.end, at, buf, near)
    }

    /// Fills the buffer with the bytes of the stream from `at` on.
    ///
    /// # Errors
    /// The span's own. It is as before in what it tells.
    pub fn read_in<P: Span>(&self, span: &mut P, at: u64, buf: &mut [u8]) -> Result<(), Stop>
        requires inside { ArePartsInside (P.size span.old) self.now }
        requires within { at + length buf.old ≤ stream_size self.now }
        ensures reads { Looks P.Span span.old span.new P.may_want result (λ file _. buf.new ≡ bytes_at (length buf.old) (stream_of file self.now) at) }
    {
        let mut near = 0;
        self.read_near(span, at, buf, &mut near)
    }

    /// Fills the buffer with the bytes of the stream from `at` on, where the parts are of these bytes.
    pub fn read(&self, bytes: &[u8], at: u64, buf: &mut [u8])
        requires inside { ArePartsInside (length bytes.now) self.now }
        requires within { at + length buf.old ≤ stream_size self.now }
        ensures { buf.new ≡ bytes_at (length buf.old) (stream_of bytes.now self.now) at }
    {
        match self.read_in(&mut SliceSpan::new(bytes), at, buf) {
            Ok(()) => (),
            Err(_) => unreachable!(),
        }
    }

    /// The number in the 4 bytes of the stream from `at` on. Part `near` of the stream and the next are tried first: any
    /// number will do, and it becomes the number of the part that was read last. Places that rise are found so without a
    /// search.
    ///
    /// # Errors
    /// The span's own. It is as before in what it tells.
    #[inline(always)]
    pub fn u32_near<P: Span>(&self, span: &mut P, at: u64, near: &mut usize) -> Result<u32, Stop>
        requires inside { ArePartsInside (P.size span.old) self.now }
        requires within { at + 4 ≤ stream_size self.now }
        ensures reads { Looks P.Span span.old span.new P.may_want result (λ file n. n ≡ le_number (bytes_at 4 (stream_of file self.now) at)) }
    {
        let number = self.number_near(span, at, 4, near)?;
        Ok(number as u32)
    }

    /// The number in the `count` bytes of the stream from `at` on. Part `near` of the stream and the next are tried first: any
    /// number will do, and it becomes the number of the part that was read last. Places that rise are found so without a
    /// search.
    ///
    /// # Errors
    /// The span's own. It is as before in what it tells.
    #[inline(always)]
    pub fn number_near<P: Span>(
        &self,
        span: &mut P,
        at: u64,
        count: u8,
        near: &mut usize,
    ) -> Result<u64, Stop>
        requires some { 0 < count }
        requires most { count ≤ 8 }
        requires inside { ArePartsInside (P.size span.old) self.now }
        requires within { at + count ≤ stream_size self.now }
        ensures reads { Looks P.Span span.old span.new P.may_want result (λ file n. n ≡ le_number (bytes_at count (stream_of file self.now) at)) }
        ensures fits { IfOk result (λ n. n < 256 ^ count) }
    {
        number_in(span, self.items.as_slice(), self.end, at, count, near)
    }
}
