ghost use Rattle.std.specs.Prelude.{◌≡◌};
ghost use Rattle.mdf_num.specs.Halt.{Raises};

use crate::Memory;
use std::alloc::AllocError;
use thiserror::Error;

/// Why a span did not fill a buffer.
#[derive(Clone, Copy, Debug, Error)]
pub enum Stop {
    /// The device below failed. The span's count of faults says that it did.
    #[error("a device failed")]
    Failed,
    /// Want of memory.
    #[error("want of memory")]
    Memory,
}

/// Why a reader over a span stopped. Want of memory is never inside the fault.
#[derive(Debug, Drop)]
pub enum Halt<E> {
    /// What the bytes themselves are refused for.
    Fault(E),
    /// The device below failed. The span's count of faults says that it did.
    Failed,
    /// Want of memory.
    Memory,
}

impl<E> Halt<E> {
    /// Why the reader above stops, where one below it stopped for this.
    pub fn raised<F: From<E>>(self) -> Halt<F>
        ensures { Raises F.from_gives self result }
    {
        match self {
            Halt::Fault(fault) => Halt::Fault(F::from(fault)),
            Halt::Failed => Halt::Failed,
            Halt::Memory => Halt::Memory,
        }
    }
}

impl From<Memory> for Stop {
    ghost use Rattle.mdf_num.specs.declared.halt.Stop.TheVariants as stops;

    ghost from_gives = { λ _ stop. stop ≡ stops.Memory };

    fn from(_: Memory) -> Self {
        Stop::Memory
    }
}

impl From<AllocError> for Stop {
    ghost use Rattle.mdf_num.specs.declared.halt.Stop.TheVariants as stops;

    ghost from_gives = { λ _ stop. stop ≡ stops.Memory };

    fn from(_: AllocError) -> Self {
        Stop::Memory
    }
}

impl<E> From<Stop> for Halt<E> {
    ghost use Rattle.mdf_num.specs.Halt.{halt_of};

    ghost from_gives = { λ stop halt. halt ≡ halt_of E stop };

    fn from(stop: Stop) -> Self {
        match stop {
            Stop::Failed => Halt::Failed,
            Stop::Memory => Halt::Memory,
        }
    }
}

impl<E> From<Memory> for Halt<E> {
    ghost use Rattle.mdf_num.specs.Halt.{memory_halt};

    ghost from_gives = { λ _ halt. halt ≡ memory_halt E };

    fn from(_: Memory) -> Self {
        Halt::Memory
    }
}
