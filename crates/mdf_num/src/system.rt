ghost use Rattle.std.specs.Prelude.{◌≡◌, ◌+◌, ◌-◌, ◌^◌, ◌↔◌, ◌<◌, ◌≤◌, min, Some, IsSome, IfErr, OnOk, OnErr};
ghost use Rattle.mdf_format.specs.Cause.{Rose, HasCause};
ghost use Rattle.mdf_num.specs.System.{IsAnswer};

use crate::{Failed, FaultCount};
use std::io::{self, Error};

/// How often an object of the operating system has failed, and the error that it gave last.
#[derive(Drop)]
pub struct SystemFaults {
    count: FaultCount,
    last: Option<Error>,
    ghost met: { IsSome last ↔ (0 < count) },
}

impl SystemFaults {
    /// No fault yet.
    pub fn zero() -> SystemFaults
        ensures { result.count ≡ 0 }
    {
        SystemFaults {
            count: FaultCount::zero(),
            last: None,
        }
    }

    /// Counts a fault, keeps its error in place of the one before, and answers the fault.
    pub fn fail(&mut self, error: Error) -> Failed
        ensures last { self.new.last ≡ Some error }
        ensures count { self.new.count ≡ min (self.old.count + 1) (2 ^ 64 - 1) }
        ensures rose { Rose self.old.count self.new.count }
        ensures later { self.old.count ≤ self.new.count }
    {
        self.last = Some(error);
        self.count.fail()
    }

    /// The answer of a call on the system. An error is counted and kept.
    ///
    /// # Errors
    /// `Failed` exactly where the call gave an error.
    pub fn checked<T: Drop>(&mut self, outcome: io::Result<T>) -> Result<T, Failed>
        ensures answer { IsAnswer outcome result }
        ensures same { OnOk outcome (self.new ≡ self.old) }
        ensures last { IfErr outcome (λ error. self.new.last ≡ Some error) }
        ensures count { OnErr outcome (self.new.count ≡ min (self.old.count + 1) (2 ^ 64 - 1)) }
        ensures cause { HasCause self.old.count self.new.count result }
    {
        match outcome {
            Ok(answer) => Ok(answer),
            Err(error) => Err(self.fail(error)),
        }
    }

    /// How many faults there were, up to the last u64.
    pub fn get(&self) -> u64
        ensures { result ≡ self.now.count }
    {
        self.count.get()
    }

    /// The error of the last fault. There is one exactly where there was a fault.
    pub fn last(&self) -> Option<Error>
        ensures last { result ≡ self.now.last }
        ensures met { IsSome result ↔ (0 < self.now.count) }
    {
        self.last
    }
}
