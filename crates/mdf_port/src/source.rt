ghost use Rattle.std.specs.Prelude.{◌≡◌, ◌↔◌, ◌≤◌, ◌<◌, IsSome, Option, List, ℕ, length, IfOk, IfErr, OnOk, OnErr};
ghost use Rattle.std.specs.Io.KnownBytes.{ReadConsumes, Consumes, IsAtEnd};
ghost use Rattle.mdf_format.specs.Cause.{HasCause};
ghost use Rattle.mdf_port.specs.declared.source.TakeFault.TheVariants.{Failed as SourceFailed, Memory as NoMemory};
ghost use Rattle.mdf_port.specs.Source.{TakeCause, TakesFront};

use mdf_num::{Bytes, Failed, Memory, SystemFaults};
use std::alloc::Global;
use std::io::{self, Read};
use thiserror::Error;

/// What bytes are taken from.
pub trait Source {
    /// The bytes that are left, where the source tells them.
    ghost left: { Self → Option (List ℕ) };

    /// How often the source has failed; a u64 that stays at its last value.
    ghost faults: { Self → ℕ };

    /// Takes the next bytes into the front of `buf`, and answers how many; 0 is the end.
    ///
    /// # Errors
    /// `Failed` where the source failed; what is left stays.
    fn take(&mut self, buf: &mut [u8]) -> Result<usize, Failed>
        requires { 0 < length buf.old }
        ensures bound { IfOk result (λ n. n ≤ length buf.old) }
        ensures taken { ReadConsumes (left self.old) (left self.new) result buf.new }
        ensures cause { HasCause (faults self.old) (faults self.new) result }
        ensures calm { OnOk result (faults self.new ≡ faults self.old) };

    /// How often the source has failed.
    fn faults(&self) -> u64
        ensures { result ≡ faults self.now };
}

/// Why a source could not be taken whole.
#[derive(Clone, Copy, Debug, Error)]
pub enum TakeFault {
    /// The source failed.
    #[error("the source failed")]
    Failed,
    /// The source has more bytes than the limit.
    #[error("more than {limit} bytes")]
    TooLong { limit: u64 },
    /// Want of memory.
    #[error("want of memory")]
    Memory,
}

impl From<Failed> for TakeFault {
    ghost from_gives = { λ _ fault. fault ≡ SourceFailed };

    fn from(_: Failed) -> Self {
        TakeFault::Failed
    }
}

impl From<Memory> for TakeFault {
    ghost from_gives = { λ _ fault. fault ≡ NoMemory };

    fn from(_: Memory) -> Self {
        TakeFault::Memory
    }
}

/// Takes all that is left, at most `limit` bytes.
///
/// # Errors
/// `TooLong` only where more than the limit was left; want of memory or a fault may come first. `Failed` where the
/// source failed. `Memory` for want of memory, while what was taken is within the limit and the source did not fail. Then
/// a front of what was left has been taken.
pub fn take_all<S: Source>(alloc: Global, source: &mut S, limit: u64) -> Result<Bytes, TakeFault>
    ensures all { IfOk result (λ bytes. Consumes (S.left source.old) (S.left source.new) bytes) }
    ensures end { OnOk result (IsAtEnd (S.left source.new)) }
    ensures short { IfOk result (λ bytes. length bytes ≤ limit) }
    ensures front { OnErr result (TakesFront (S.left source.old) (S.left source.new)) }
    ensures cause { IfErr result
        (TakeCause (S.left source.old) (S.left source.new) (S.faults source.old) (S.faults source.new) limit) }
    ensures later { S.faults source.old ≤ S.faults source.new }
    ensures calm { OnOk result (S.faults source.new ≡ S.faults source.old) }
{
    let mut all = Bytes::empty(alloc);
    let mut buf = [0u8; 65536];
    'taking: loop {
        let count = source.take(&mut buf)?;
        if count == 0 {
            return Ok(all);
        }
        let len = all.as_slice().len() as u64;
        if count as u64 > limit - len {
            return Err(TakeFault::TooLong { limit });
        }
        all.push_slice(&buf[..count])?;
    }
}

/// A source over a reader of std.
#[derive(Drop)]
pub struct StdSource<R> {
    reader: R,
    faults: SystemFaults,
}

impl<R: Read> StdSource<R> {
    ghost use Rattle.mdf_port.specs.Faults.{source_faults};

    pub fn new(reader: R) -> StdSource<R>
        ensures left { ⟦<StdSource<R> as Source>⟧.left result ≡ R.remaining reader }
        ensures faults { ⟦<StdSource<R> as Source>⟧.faults result ≡ 0 }
    {
        StdSource {
            reader,
            faults: SystemFaults::zero(),
        }
    }

    /// The error of the last call that failed. There is one exactly where a call has failed.
    pub fn last_error(&self) -> Option<io::Error>
        ensures last { result ≡ (source_faults self.now).last }
        ensures met { IsSome result ↔ (0 < ⟦<StdSource<R> as Source>⟧.faults self.now) }
    {
        self.faults.last()
    }
}

impl<R: Read> Source for StdSource<R> {
    ghost left = { λ s. R.remaining s.reader };

    ghost faults = { λ s. s.faults.count };

    fn take(&mut self, buf: &mut [u8]) -> Result<usize, Failed> {
        self.faults.checked(self.reader.read(buf))
    }

    fn faults(&self) -> u64 {
        self.faults.get()
    }
}
