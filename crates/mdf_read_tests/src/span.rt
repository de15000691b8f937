use mdf_num::{FaultCount, Span, Stop};

/// A span over bytes that fails or wants memory after some calls.
pub(crate) struct Stopping<'a> {
    bytes: &'a [u8],
    calls: u64,
    stop: Stop,
    faults: FaultCount,
}

impl Drop for Stopping<'_> {
    fn drop(self) {
        let Stopping {
            bytes: _,
            calls: _,
            stop: _,
            faults: _,
        } = self;
    }
}

impl Span for Stopping<'_> {
    ghost use Rattle.std.specs.Prelude.{Some, length, refl};

    ghost bytes = { λ s. Some s.bytes.now };

    ghost size = { λ s. length s.bytes.now };

    ghost faults = { λ s. s.faults };

    fn len(&self) -> u64 {
        self.bytes.len() as u64
    }

    fn fill(&mut self, at: u64, buf: &mut [u8]) -> Result<(), Stop> {
        if self.calls == 0 {
            if let Stop::Failed = self.stop {
                let _ = self.faults.fail();
            }
            return Err(self.stop);
        }
        self.calls -= 1;
        let start = at as usize;
        buf.copy_from_slice(&self.bytes[start..start + buf.len()]);
        Ok(())
    }

    fn faults(&self) -> u64 {
        self.faults.get()
    }

    ghost whole = { λ s. refl };
}

/// A span over these bytes that stops after so many calls.
pub(crate) fn span_over(bytes: &[u8], calls: u64, stop: Stop) -> Stopping<'_> {
    Stopping {
        bytes,
        calls,
        stop,
        faults: FaultCount::zero(),
    }
}
