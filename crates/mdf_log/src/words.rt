// The words of the program.
ghost use Rattle.std.specs.Prelude.{◌≡◌, ◌↔◌, true, MatchOption};
ghost use Rattle.mdf_port.specs.State.{sink_state};
ghost use Rattle.mdf_command.specs.Texts.{Prints};
ghost use Rattle.mdf_log.specs.Words.{AreRead, AsksNoLog, AsksToLog, is_standard, log_usage_line, request_of};

use mdf_command::Piece::Text;
use mdf_command::{give_line, status_after};
use mdf_num::{Bytes, Rows};
use mdf_port::Sink;

/// How many names a log reads at most: that of its setup, and 16 inputs.
const MOST_NAMES: usize = 17;

/// What the words ask for: a log of these inputs, with this setup, into the parts of this output.
#[derive(Clone, Copy)]
pub struct LogWords<'a> {
    pub output: &'a Bytes,
    pub setup: &'a Bytes,
    pub inputs: &'a [Bytes],
}

/// Whether a word is that of the standard input: `-`.
pub fn is_standard(word: &[u8]) -> bool
    ensures { result ≡ is_standard word.now }
{
    word == b"-".as_slice()
}

/// Whether these are a setup and 1 to 16 inputs, of which at most one is the standard input.
fn are_read(names: &[Bytes]) -> bool
    ensures { (result ≡ true) ↔ AreRead names.now }
{
    if names.len() < 2 || names.len() > MOST_NAMES {
        return false;
    }
    let standard = names
        .iter()
        .filter(|word| is_standard(word.as_slice()))
        .count();
    standard <= 1
}

/// The log that the words ask for, if they do: `OUT SETUP IN..`, with 1 to 16 inputs; at most one of them and the setup is `-`.
pub fn log_words(words: &Rows<Bytes>) -> Option<LogWords<'_>>
    ensures { MatchOption result (AsksNoLog words.now) (λ log. AsksToLog words.now (request_of log)) }
{
    let [output, names @ ..] = words.as_slice() else {
        return None;
    };
    if !are_read(names) {
        return None;
    }
    let [setup, inputs @ ..] = names else {
        return None;
    };
    Some(LogWords {
        output,
        setup,
        inputs,
    })
}

/// Prints the usage line, and answers the program's status.
pub fn run_log_usage<K: Sink>(sink: &mut K) -> u8
    ensures { Prints log_usage_line 1 (sink_state K.Sink sink.old) (sink_state K.Sink sink.new) result }
{
    let given = give_line(sink, &[Text(b"usage: mdf4log OUT SETUP IN..")]);
    status_after(given, 1)
}
