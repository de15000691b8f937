ghost use Rattle.mdf_port.specs.State.{sink_state};
ghost use Rattle.mdf_command.specs.Texts.{Gives};
ghost use Rattle.mdf_inspect.specs.Check.{verdict_line};

use mdf_command::Piece::Text;
use mdf_command::give_line;
use mdf_num::Failed;
use mdf_port::Sink;

/// Gives the line that says whether a file is valid or only readable.
pub fn give_verdict<K: Sink>(sink: &mut K, strict: bool) -> Result<(), Failed>
    ensures { Gives (verdict_line strict) (sink_state K.Sink sink.old) (sink_state K.Sink sink.new) result }
{
    if strict {
        give_line(sink, &[Text(b"valid")])
    } else {
        give_line(sink, &[Text(b"readable")])
    }
}
