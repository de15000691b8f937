ghost use Rattle.std.specs.Prelude.{◌≡◌};
ghost use Rattle.mdf_command.specs.declared.fault.Fault.TheVariants.{Gate, Device, Memory as NoMemory};
ghost use Rattle.mdf_command.specs.Faults.{fault_of_load, fault_of_script, fault_of_take, fault_of_tool, gate_line, read_line, refusal_line};
ghost use Rattle.mdf_command.specs.Load.{fault_of_read};
ghost use Rattle.mdf_command.specs.Parts.{parts_line};
ghost use Rattle.mdf_content.specs.Fault.{read_refusal};
ghost use Rattle.mdf_block.specs.Refusal.{Cycles, Offset};
ghost use Rattle.mdf_port.specs.State.{sink_state};
ghost use Rattle.mdf_command.specs.Texts.{Gives};

use crate::parts::{Parts, give_parts};
use acq_script::ScriptFault;
use mdf_content::ReadFault;
use mdf_disk::LoadFault;
use mdf_gate::GateFault;
use mdf_num::{Failed, Memory};
use mdf_port::{Sink, TakeFault};
use mdf_tool::ToolFault;

/// Why a command ends with a status other than 0.
#[derive(Clone, Copy, Debug)]
pub enum Fault {
    /// The input has no opened blocks.
    Gate(GateFault),
    /// The source of the script failed.
    Source,
    /// A disk failed.
    Device,
    /// The input has more bytes than an input may have.
    InputOver { size: u64, limit: u64 },
    /// The script has more bytes than a script may have.
    ScriptOver { limit: u64 },
    /// The next sample would pass the session limit: what the history costs, what the sample costs, and the limit.
    SessionFull { held: u64, size: u64, limit: u64 },
    /// Want of memory.
    Memory,
    /// No rule admits this line of the script after the lines before it, counted from 1.
    Script { line: u64 },
    /// The input is refused. Want of memory is never in it.
    Read(ReadFault),
    /// The input has only so many groups with samples, and none of the number that was said.
    NoGroup { said: u64, groups: u32 },
    /// This group is not the same in both inputs, or one of them has no such group.
    Differs { group: u32 },
    /// An offset of this channel of this group is not held by its bits once it is moved.
    Wide { group: u32, channel: u32 },
    /// The attachment at the address is one too many.
    Attached { at: u64 },
}

impl Fault {
    ghost use Rattle.mdf_command.specs.Faults.{fault_status, fault_line};

    /// The program's status.
    pub fn status(&self) -> u8
        ensures { result ≡ fault_status self.now }
    {
        match self {
            Fault::Gate(_) => 3,
            Fault::Source => 2,
            Fault::Device => 4,
            Fault::InputOver { .. } | Fault::ScriptOver { .. } | Fault::SessionFull { .. } => 5,
            Fault::Memory => 7,
            Fault::Script { .. } => 8,
            Fault::Read(ReadFault::Memory) => 7,
            Fault::Read(_)
            | Fault::NoGroup { .. }
            | Fault::Differs { .. }
            | Fault::Wide { .. }
            | Fault::Attached { .. } => 3,
        }
    }

    /// Gives the line that is printed. It takes no memory.
    pub fn give<K: Sink>(&self, sink: &mut K) -> Result<(), Failed>
        ensures { Gives (fault_line self.now) (sink_state K.Sink sink.old) (sink_state K.Sink sink.new) result }
    {
        give_parts(sink, self.parts())
    }

    /// The parts of the line.
    fn parts(&self) -> Parts
        ensures { parts_line result ≡ fault_line self.now }
    {
        match *self {
            Fault::Gate(fault) => read_parts(read_fault_of(fault)),
            Fault::Device => Parts::Words(b"device fault"),
            Fault::InputOver { size, limit } => Parts::Two(b"input over ", size, b" ", limit),
            Fault::Source => Parts::Words(b"source fault"),
            Fault::ScriptOver { limit } => Parts::One(b"script over ", limit),
            Fault::SessionFull { held, size, limit } => {
                Parts::Three(b"session full ", held, b" ", size, b" ", limit)
            }
            Fault::Memory => Parts::Words(b"want of memory"),
            Fault::Script { line } => Parts::One(b"script line ", line),
            Fault::Read(fault) => read_parts(fault),
            Fault::NoGroup { said, groups } => {
                Parts::Two(b"no group ", said, b" of ", u64::from(groups))
            }
            Fault::Differs { group } => Parts::One(b"differs group ", u64::from(group)),
            Fault::Wide { group, channel } => Parts::Two(
                b"wide group ",
                u64::from(group),
                b" channel ",
                u64::from(channel),
            ),
            Fault::Attached { at } => Parts::One(b"too many AT at ", at),
        }
    }
}

/// The same fault of a reader of finalized files.
fn read_fault_of(fault: GateFault) -> ReadFault
    ensures { read_line (read_refusal result) ≡ gate_line fault }
{
    match fault {
        GateFault::NotMdf => ReadFault::NotMdf,
        GateFault::Version { ver } => ReadFault::Version { ver },
        GateFault::NotRecording { std, custom } => ReadFault::NotRecording { std, custom },
        GateFault::Bad { at, want } => ReadFault::Block { at, want },
    }
}

/// The parts of the line of a group that has fewer records than it says.
fn cycles_parts(group: u64, said: u64, found: u64) -> Parts
    ensures { parts_line result ≡ refusal_line (Cycles group said found) }
{
    Parts::Three(b"cycles group ", group, b" said ", said, b" found ", found)
}

/// The parts of the line of an offset that meets no value.
fn offset_parts(channel: u64, row: u64, offset: u64) -> Parts
    ensures { parts_line result ≡ refusal_line (Offset channel row offset) }
{
    Parts::Three(b"offset ", offset, b" channel ", channel, b" row ", row)
}

/// The parts of the line of an input that could not be read.
fn read_parts(fault: ReadFault) -> Parts
    ensures { parts_line result ≡ read_line (read_refusal fault) }
{
    match fault {
        ReadFault::NotMdf => Parts::Words(b"not MDF"),
        ReadFault::Unfinalized { std, custom } => {
            Parts::Two(b"unfinalized ", u64::from(std), b" ", u64::from(custom))
        }
        ReadFault::NotRecording { std, custom } => {
            Parts::Two(b"not a recording ", u64::from(std), b" ", u64::from(custom))
        }
        ReadFault::Version { ver } => Parts::One(b"version ", u64::from(ver)),
        ReadFault::Block { at, want } => Parts::Block(at, want),
        ReadFault::Compressed { at } => Parts::One(b"compressed at ", at),
        ReadFault::TooMany { what, at } => Parts::Many(what, at),
        ReadFault::Deep { at } => Parts::One(b"deep at ", at),
        ReadFault::ChannelKind { at, kind } => {
            Parts::Two(b"channel kind ", u64::from(kind), b" at ", at)
        }
        ReadFault::ChannelType { at, value } => {
            Parts::Two(b"channel type ", u64::from(value), b" at ", at)
        }
        ReadFault::Layout { at } => Parts::One(b"layout at ", at),
        ReadFault::UnknownId { id, at } => Parts::Two(b"unknown id ", id, b" at ", at),
        ReadFault::Cut { at } => Parts::One(b"cut at ", at),
        ReadFault::Cycles { group, said, found } => cycles_parts(u64::from(group), said, found),
        ReadFault::Offset {
            channel,
            row,
            offset,
        } => offset_parts(u64::from(channel), row, offset),
        ReadFault::Memory => Parts::Words(b"want of memory"),
    }
}

impl From<GateFault> for Fault {
    ghost from_gives = { λ gate fault. fault ≡ Gate gate };

    fn from(fault: GateFault) -> Self {
        Fault::Gate(fault)
    }
}

impl From<ReadFault> for Fault {
    ghost from_gives = { λ read fault. fault ≡ fault_of_read read };

    fn from(fault: ReadFault) -> Self {
        match fault {
            ReadFault::Memory => Fault::Memory,
            fault => Fault::Read(fault),
        }
    }
}

impl From<Failed> for Fault {
    ghost from_gives = { λ _ fault. fault ≡ Device };

    fn from(_: Failed) -> Self {
        Fault::Device
    }
}

impl From<LoadFault> for Fault {
    ghost from_gives = { λ load fault. fault ≡ fault_of_load load };

    fn from(fault: LoadFault) -> Self {
        match fault {
            LoadFault::Failed => Fault::Device,
            LoadFault::TooLong { size, limit } => Fault::InputOver { size, limit },
            LoadFault::Memory => Fault::Memory,
        }
    }
}

impl From<Memory> for Fault {
    ghost from_gives = { λ _ fault. fault ≡ NoMemory };

    fn from(_: Memory) -> Self {
        Fault::Memory
    }
}

impl From<TakeFault> for Fault {
    ghost from_gives = { λ take fault. fault ≡ fault_of_take take };

    fn from(fault: TakeFault) -> Self {
        match fault {
            TakeFault::Failed => Fault::Source,
            TakeFault::TooLong { limit } => Fault::ScriptOver { limit },
            TakeFault::Memory => Fault::Memory,
        }
    }
}

impl From<ScriptFault> for Fault {
    ghost from_gives = { λ script fault. fault ≡ fault_of_script script };

    fn from(fault: ScriptFault) -> Self {
        match fault {
            ScriptFault::Line { line } => Fault::Script { line },
            ScriptFault::Memory => Fault::Memory,
        }
    }
}

impl From<ToolFault> for Fault {
    ghost from_gives = { λ tool fault. fault ≡ fault_of_tool tool };

    fn from(fault: ToolFault) -> Self {
        match fault {
            ToolFault::Read(fault) => Fault::Read(fault),
            ToolFault::Failed => Fault::Device,
            ToolFault::Memory => Fault::Memory,
        }
    }
}
