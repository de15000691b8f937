// The lines that a recording and a log end with alike.
ghost use Rattle.std.specs.Prelude.{◌≡◌};
ghost use Rattle.mdf_command.specs.Texts.{Gives};
ghost use Rattle.mdf_port.specs.State.{sink_state};
ghost use Rattle.mdf_record.specs.Record.{source_line, totals_line};

use mdf_command::Piece::{Number, Sum, Text};
use mdf_command::give_line;
use mdf_num::Failed;
use mdf_port::Sink;

/// Gives the line on how many samples of a source were accepted.
///
/// # Errors
/// `Failed` if the sink failed; then it has a front of the line.
pub fn give_accepted<K: Sink>(sink: &mut K, source: u64, accepted: u128) -> Result<(), Failed>
    ensures { Gives (source_line source accepted) (sink_state K.Sink sink.old) (sink_state K.Sink sink.new) result }
{
    give_line(
        sink,
        &[
            Text(b"source "),
            Number(source),
            Text(b" accepted "),
            Sum(accepted),
        ],
    )
}

/// Gives the line on all samples: how many there are, and how many of them are durable.
///
/// # Errors
/// `Failed` if the sink failed; then it has a front of the line.
pub fn give_totals<K: Sink>(sink: &mut K, samples: u128, durable: u128) -> Result<(), Failed>
    ensures { Gives (totals_line samples durable) (sink_state K.Sink sink.old) (sink_state K.Sink sink.new) result }
{
    give_line(
        sink,
        &[
            Text(b"samples "),
            Sum(samples),
            Text(b" durable "),
            Sum(durable),
        ],
    )
}
