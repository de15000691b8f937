use mdf_num::Memory;
use thiserror::Error;

/// Why a script is refused.
#[derive(Clone, Copy, Debug, Error)]
pub enum ScriptFault {
    /// The first line, counted from 1, that no rule admits after the lines before it. Where the script ends too early
    /// it is the line after the last one.
    #[error("line {line} of the script")]
    Line { line: u64 },
    #[error("want of memory")]
    Memory,
}

impl From<Memory> for ScriptFault {
    ghost use Rattle.std.specs.Prelude.{◌≡◌};
    ghost use Rattle.acq_script.specs.declared.fault.ScriptFault.TheVariants as faults;

    ghost from_gives = { λ _ fault. fault ≡ faults.Memory };

    fn from(_: Memory) -> Self {
        ScriptFault::Memory
    }
}
