// How a log ends.
use acq_lines::Halt;
use mdf_command::Fault;

/// Why a source stopped.
#[derive(Clone, Copy, Debug)]
pub enum Stop {
    /// Nothing more came of it, and all its tasks were done.
    Halted(Halt),
    /// A task of it was not done.
    Refused,
}

/// How a source of a log ended.
#[derive(Clone, Copy, Debug)]
pub struct SourceEnd {
    /// How many of its samples were accepted, in all parts.
    pub accepted: u128,
    /// How many of its lines no rule admits.
    pub bad: u64,
    /// Whether what was read of its input ends in the middle of a line, where no whole line is left of it.
    pub cut: bool,
    /// Whether its sink failed, and it was not told of all that is durable.
    pub deaf: bool,
    pub stop: Stop,
}

/// How a log ended.
#[derive(Drop)]
pub enum LogEnd {
    /// The setup is of another number of sources than there are inputs: of so many.
    Inputs {
        sources: u8,
    },
    /// No part was begun.
    Refused(Fault),
    /// Parts were begun and closed: how each source ended, how many samples they have in all, how many of them are durable, how
    /// many a reader finds shown of the last part, where they are looked at live and nothing went wrong, and what went wrong, if
    /// anything did.
    Closed {
        sources: Vec<SourceEnd>,
        samples: u128,
        durable: u128,
        live: Option<u64>,
        fault: Option<Fault>,
    },
}
