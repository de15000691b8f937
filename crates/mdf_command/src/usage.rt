ghost use Rattle.mdf_command.specs.Texts.{Prints, usage_line};
ghost use Rattle.mdf_port.specs.State.{sink_state};

use crate::report::Piece::Text;
use crate::report::{give_line, status_after};
use mdf_port::Sink;

/// What is printed where the words are no command.
const USAGE: &[u8] =
    b"usage: opened IN | record OUT | finalize IN OUT | check IN | info IN | sort IN OUT | cut IN OUT FROM TO | concat A B OUT | export IN GROUP | gen N OUT | attachments IN | attach A B OUT | rotate OUT";

/// Prints the usage line, and answers the program's status.
pub fn run_usage<K: Sink>(sink: &mut K) -> u8
    ensures { Prints usage_line 1 (sink_state K.Sink sink.old) (sink_state K.Sink sink.new) result }
{
    let given = give_line(sink, &[Text(USAGE)]);
    status_after(given, 1)
}
