ghost use Rattle.std.specs.Prelude.{◌≡◌};
ghost use Rattle.mdf_command.specs.Texts.{Gives};
ghost use Rattle.mdf_port.specs.State.{sink_state};
ghost use Rattle.acq_lines.specs.Told.{durable_line};

use mdf_command::{Piece, give_line};
use mdf_num::Failed;
use mdf_port::Sink;

/// Gives the line that so many samples of a source are durable, at once: several sources may share what is behind their sinks.
///
/// # Errors
/// `Failed` if the sink failed; then it has a front of the line.
pub fn give_durable<K: Sink>(sink: &mut K, source: u8, count: u128) -> Result<(), Failed>
    ensures { Gives (durable_line source count) (sink_state K.Sink sink.old) (sink_state K.Sink sink.new) result }
{
    give_line(
        sink,
        &[
            Piece::Text(b"source "),
            Piece::Number(u64::from(source)),
            Piece::Text(b" durable "),
            Piece::Sum(count),
        ],
    )
}
