// The parts of a fault's line.
ghost use Rattle.std.specs.Prelude.{◌≡◌};
ghost use Rattle.mdf_command.specs.Faults.{refusal_line, text_line, texts_line, what_text};
ghost use Rattle.mdf_command.specs.Parts.{parts_line};
ghost use Rattle.mdf_block.specs.Refusal.{Bad, TooMany};
ghost use Rattle.mdf_port.specs.State.{sink_state};
ghost use Rattle.mdf_command.specs.Texts.{Gives};

use crate::report::Piece::{Number, Text};
use crate::report::give_line;
use mdf_block::{What, name_of};
use mdf_format::Kind;
use mdf_num::Failed;
use mdf_port::Sink;

/// What the line of a fault has.
#[derive(Clone, Copy)]
pub enum Parts {
    /// A text.
    Words(&'static [u8]),
    /// A text and a number.
    One(&'static [u8], u64),
    /// Two texts with a number each.
    Two(&'static [u8], u64, &'static [u8], u64),
    /// Three texts with a number each.
    Three(&'static [u8], u64, &'static [u8], u64, &'static [u8], u64),
    /// The address where no block of this kind stands.
    Block(u64, Kind),
    /// What there is too many of, and where.
    Many(What, u64),
}

/// The word for what there is too many of.
fn what_text(what: What) -> &'static [u8]
    ensures { result.now ≡ what_text what }
{
    match what {
        What::Fh => b"FH",
        What::Dg => b"DG",
        What::Cg => b"CG",
        What::Cn => b"CN",
        What::Cc => b"CC",
        What::Text => b"text",
        What::Block => b"block",
        What::Sample => b"sample",
    }
}

/// Gives a line of a text and a number.
fn give_text<K: Sink>(sink: &mut K, text: &[u8], number: u64) -> Result<(), Failed>
    ensures { Gives (text_line text.now number) (sink_state K.Sink sink.old) (sink_state K.Sink sink.new) result }
{
    give_line(sink, &[Text(text), Number(number)])
}

/// Gives a line of two texts with a number each.
fn give_texts<'x, K: Sink>(
    sink: &mut K,
    text: &'x [u8],
    number: u64,
    more: &'x [u8],
    next: u64,
) -> Result<(), Failed>
    ensures { Gives (texts_line text.now number more.now next) (sink_state K.Sink sink.old) (sink_state K.Sink sink.new) result }
{
    give_line(
        sink,
        &[Text(text), Number(number), Text(more), Number(next)],
    )
}

/// Gives the line of a block that does not stand at an address.
fn give_block<K: Sink>(sink: &mut K, at: u64, want: Kind) -> Result<(), Failed>
    ensures { Gives (refusal_line (Bad at want)) (sink_state K.Sink sink.old) (sink_state K.Sink sink.new) result }
{
    let name = name_of(want);
    give_line(
        sink,
        &[
            Text(b"block at "),
            Number(at),
            Text(b" is not "),
            Text(&name),
        ],
    )
}

/// Gives the line of what there is too many of.
fn give_many<K: Sink>(sink: &mut K, what: What, at: u64) -> Result<(), Failed>
    ensures { Gives (refusal_line (TooMany what at)) (sink_state K.Sink sink.old) (sink_state K.Sink sink.new) result }
{
    give_line(
        sink,
        &[
            Text(b"too many "),
            Text(what_text(what)),
            Text(b" at "),
            Number(at),
        ],
    )
}

/// Gives the line of these parts.
pub(crate) fn give_parts<K: Sink>(sink: &mut K, parts: Parts) -> Result<(), Failed>
    ensures { Gives (parts_line parts) (sink_state K.Sink sink.old) (sink_state K.Sink sink.new) result }
{
    match parts {
        Parts::Words(text) => give_line(sink, &[Text(text)]),
        Parts::One(text, number) => give_text(sink, text, number),
        Parts::Two(text, number, more, next) => give_texts(sink, text, number, more, next),
        Parts::Three(first, one, second, two, third, three) => give_line(
            sink,
            &[
                Text(first),
                Number(one),
                Text(second),
                Number(two),
                Text(third),
                Number(three),
            ],
        ),
        Parts::Block(at, want) => give_block(sink, at, want),
        Parts::Many(what, at) => give_many(sink, what, at),
    }
}
