ghost use Rattle.std.specs.Prelude.{◌≡◌, ◌↔◌, ◌≤◌, ◌<◌, IsSome, Option, List, ℕ, length, IfOk, OnOk, OnErr};
ghost use Rattle.std.specs.Io.KnownBytes.{WriteAppends, Appends};
ghost use Rattle.mdf_format.specs.Cause.{HasCause};
ghost use Rattle.mdf_port.specs.Sink.{AppendsFront};

use mdf_num::{Failed, SystemFaults};
use std::io::{Error, ErrorKind, Write};

/// What bytes are given to.
pub trait Sink {
    /// The bytes that the sink holds, where it tells them.
    ghost held: { Self → Option (List ℕ) };

    /// How often the sink has failed; a u64 that stays at its last value.
    ghost faults: { Self → ℕ };

    /// Gives bytes. `Ok(n)` says that the first `n` of them were appended, at least one.
    ///
    /// # Errors
    /// `Failed` where the sink failed or took nothing; what it holds stays.
    fn give(&mut self, bytes: &[u8]) -> Result<usize, Failed>
        requires { 0 < length bytes.now }
        ensures some { IfOk result (λ n. 0 < n) }
        ensures bound { IfOk result (λ n. n ≤ length bytes.now) }
        ensures given { WriteAppends (held self.old) (held self.new) result bytes.now }
        ensures cause { HasCause (faults self.old) (faults self.new) result }
        ensures calm { OnOk result (faults self.new ≡ faults self.old) };

    /// How often the sink has failed.
    fn faults(&self) -> u64
        ensures { result ≡ faults self.now };
}

/// Gives all the bytes. It takes no memory.
///
/// # Errors
/// `Failed` where the sink failed; then it has a front of the bytes.
pub fn give_all<K: Sink>(sink: &mut K, bytes: &[u8]) -> Result<(), Failed>
    ensures ok { OnOk result (Appends (K.held sink.old) (K.held sink.new) bytes.now) }
    ensures err { OnErr result (AppendsFront (K.held sink.old) (K.held sink.new) bytes.now) }
    ensures cause { HasCause (K.faults sink.old) (K.faults sink.new) result }
    ensures calm { OnOk result (K.faults sink.new ≡ K.faults sink.old) }
{
    let mut at = 0;
    while at < bytes.len() {
        at += sink.give(&bytes[at..])?;
    }
    Ok(())
}

/// A sink over a writer of std. Each call writes at once, so the writer keeps nothing back to be flushed.
#[derive(Drop)]
pub struct StdSink<W> {
    writer: W,
    faults: SystemFaults,
}

impl<W: Write> StdSink<W> {
    ghost use Rattle.mdf_port.specs.Faults.{sink_faults};

    /// Over a writer that buffers nothing, as standard output is.
    pub fn new(writer: W) -> StdSink<W>
        ensures held { ⟦<StdSink<W> as Sink>⟧.held result ≡ W.contents writer }
        ensures faults { ⟦<StdSink<W> as Sink>⟧.faults result ≡ 0 }
    {
        StdSink {
            writer,
            faults: SystemFaults::zero(),
        }
    }

    /// The error of the last call that failed. There is one exactly where a call has failed.
    pub fn last_error(&self) -> Option<Error>
        ensures last { result ≡ (sink_faults self.now).last }
        ensures met { IsSome result ↔ (0 < ⟦<StdSink<W> as Sink>⟧.faults self.now) }
    {
        self.faults.last()
    }
}

impl<W: Write> Sink for StdSink<W> {
    ghost held = { λ s. W.contents s.writer };

    ghost faults = { λ s. s.faults.count };

    fn give(&mut self, bytes: &[u8]) -> Result<usize, Failed> {
        match self.writer.write(bytes) {
            Ok(n) if n > 0 => Ok(n),
            Ok(_) => Err(self.faults.fail(Error::from(ErrorKind::WriteZero))),
            Err(error) => Err(self.faults.fail(error)),
        }
    }

    fn faults(&self) -> u64 {
        self.faults.get()
    }
}
