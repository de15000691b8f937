ghost use Rattle.std.specs.Prelude.{◌≡◌, ◌+◌, ◌^◌, ◌≤◌, ◌<◌, ℕ, Bool, true, false, List, Option, Some, length, IfOk, OnOk, refl};
ghost use Rattle.mdf_format.specs.Number.{le_number, bytes_at};
ghost use Rattle.mdf_num.specs.Halt.{StopCause};
ghost use Rattle.mdf_num.specs.Span.{IsTold};

use crate::{Stop, number_of};

/// Bytes that are read piece by piece: a slice, or a file of which only some pages are in memory.
pub trait Span {
    /// The bytes, where the span tells them.
    ghost bytes: { Self → Option (List ℕ) };

    /// How many bytes there are, which every span says.
    ghost size: { Self → ℕ };

    /// How often the span has failed; a u64 that stays at its last value.
    ghost faults: { Self → ℕ };

    /// Whether a fill may want memory.
    ghost may_want: { Bool } = { true };

    /// How many bytes there are.
    fn len(&self) -> u64
        ensures { result ≡ size self.now };

    /// Fills the buffer with the bytes from `at` on.
    ///
    /// # Errors
    /// `Failed` where the device below failed, and `Memory`. The bytes stay as they are.
    fn fill(&mut self, at: u64, buf: &mut [u8]) -> Result<(), Stop>
        requires { at + length buf.old ≤ size self.old }
        ensures filled { OnOk result ((file : List ℕ) → bytes self.old ≡ Some file → buf.new ≡ bytes_at (length buf.old) file at) }
        ensures same { bytes self.new ≡ bytes self.old }
        ensures size { size self.new ≡ size self.old }
        ensures cause { StopCause may_want (faults self.old) (faults self.new) result };

    /// The number in the `count` bytes from `at` on.
    ///
    /// # Errors
    /// As `fill`.
    fn number(&mut self, at: u64, count: u8) -> Result<u64, Stop>
        requires some { 0 < count }
        requires most { count ≤ 8 }
        requires inside { at + count ≤ size self.old }
        ensures number { IfOk result (λ n. (file : List ℕ) → bytes self.old ≡ Some file → n ≡ le_number (bytes_at count file at)) }
        ensures fits { IfOk result (λ n. n < 256 ^ count) }
        ensures same { bytes self.new ≡ bytes self.old }
        ensures size { size self.new ≡ size self.old }
        ensures cause { StopCause may_want (faults self.old) (faults self.new) result }
    {
        let mut word = [0u8; 8];
        let part = &mut word[..count as usize];
        self.fill(at, part)?;
        Ok(number_of(part))
    }

    /// How often the span has failed.
    fn faults(&self) -> u64
        ensures { result ≡ faults self.now };

    ghost whole: { (span : Self) → IsTold (bytes span) (size span) };
}

/// A span over bytes in memory. It never fails, and wants no memory.
#[derive(Drop)]
pub struct SliceSpan<'a> {
    bytes: &'a [u8],
}

impl<'a> SliceSpan<'a> {
    /// Over these bytes.
    pub fn new(bytes: &'a [u8]) -> SliceSpan<'a>
        ensures bytes { ⟦<SliceSpan<'a> as Span>⟧.bytes result ≡ Some bytes.now }
        ensures size { ⟦<SliceSpan<'a> as Span>⟧.size result ≡ length bytes.now }
        ensures faults { ⟦<SliceSpan<'a> as Span>⟧.faults result ≡ 0 }
    {
        SliceSpan { bytes }
    }
}

impl Span for SliceSpan<'_> {
    ghost bytes = { λ s. Some s.bytes.now };

    ghost size = { λ s. length s.bytes.now };

    ghost faults = { λ _. 0 };

    ghost may_want = { false };

    fn len(&self) -> u64 {
        self.bytes.len() as u64
    }

    fn fill(&mut self, at: u64, buf: &mut [u8]) -> Result<(), Stop> {
        let start = at as usize;
        buf.copy_from_slice(&self.bytes[start..start + buf.len()]);
        Ok(())
    }

    fn number(&mut self, at: u64, count: u8) -> Result<u64, Stop> {
        let start = at as usize;
        Ok(number_of(&self.bytes[start..start + count as usize]))
    }

    fn faults(&self) -> u64 {
        0
    }

    ghost whole = { λ s. refl };
}
