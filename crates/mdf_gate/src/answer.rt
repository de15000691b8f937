use mdf_format::Kind;
use mdf_head::IdentFault;
use thiserror::Error;

/// What is opened of a recording.
#[derive(Clone, Copy, Debug)]
pub struct Opened {
    /// How many blocks are opened.
    pub blocks: u64,
    /// How many bytes of data they have in all, without their headers.
    pub bytes: u64,
    /// The first place: the data link of the first data group.
    pub first: u64,
    /// The last place, which is closed: where the next block is to stand.
    pub next: u64,
}

/// Why a file has no opened blocks.
#[derive(Clone, Copy, Debug, Error)]
pub enum GateFault {
    /// It does not begin with an identification (IDBLOCK).
    #[error("not MDF")]
    NotMdf,
    /// Its version is none of 4.00 to 4.19.
    #[error("version {ver}")]
    Version { ver: u16 },
    /// It is finalized, or its custom word is not that of a recording.
    #[error("not a recording")]
    NotRecording { std: u16, custom: u16 },
    /// No whole block of this kind stands where the form of a recording wants one.
    #[error("no whole block of the kind that is wanted at {at}")]
    Bad { at: u64, want: Kind },
}

impl From<IdentFault> for GateFault {
    ghost use Rattle.std.specs.Prelude.{◌≡◌};
    ghost use Rattle.mdf_gate.specs.Fault.{fault_of_ident};

    ghost from_gives = { λ ident fault. fault ≡ fault_of_ident ident };

    fn from(fault: IdentFault) -> Self {
        match fault {
            IdentFault::NotMdf => GateFault::NotMdf,
            IdentFault::Version { ver } => GateFault::Version { ver },
        }
    }
}
