ghost use Rattle.std.specs.Prelude.{◌≡◌, ◌↔◌, ◌∷◌, [], true, MatchOption};
ghost use Rattle.mdf_command.specs.Words.{Asks, IsCount, IsNoCount, IsUsage};
ghost use Rattle.mdf_command.specs.Commands.{request_of};

use crate::bound::bound_of;
use mdf_num::{Bytes, Rows};
use script_line::number_of;

/// How many samples are generated at most.
const MOST_GENERATED: u64 = 1_000_000;

/// What is shown of a file.
pub enum Aspect {
    /// `opened IN`: how many opened blocks a recording has.
    Opened,
    /// `check IN`: whether it is as the standard has a finalized file.
    Verdict,
    /// `info IN`: what it holds.
    Contents,
    /// `export IN GROUP`: the table of the group of this number, counted from 0.
    Table { group: u64 },
    /// `attachments IN`: its attachments.
    Attachments,
}

/// What is made of a file.
pub enum Product {
    /// `finalize IN OUT`: the finished file of a recording.
    Finalized,
    /// `sort IN OUT`: the sorted file of a finished one.
    Sorted,
    /// `cut IN OUT FROM TO`: so, from a number on and below another, each from -2^63 to 2^64 - 1.
    Cut { from: i128, to: i128 },
}

/// What is made of two files.
pub enum Union {
    /// `concat A B OUT`: the sorted file of two finished ones, the second behind the first.
    Concat,
    /// `attach A B OUT`: the sorted file of the second, with the attachments of the first.
    Attach,
}

/// Where a script comes from.
pub enum Origin {
    /// `record OUT`: from the source.
    Source,
    /// `gen N OUT`: it is generated, for so many samples, from 1 to 1,000,000.
    Generated { samples: u64 },
}

/// What the command words ask for.
pub enum Command<'a> {
    /// To show a file.
    Show {
        input: &'a Bytes,
        aspect: Aspect,
    },
    /// To make a file of another one.
    Make {
        input: &'a Bytes,
        output: &'a Bytes,
        product: Product,
    },
    /// To make a file of two.
    Join {
        input: &'a Bytes,
        second: &'a Bytes,
        output: &'a Bytes,
        union: Union,
    },
    /// To record into a file.
    Record {
        output: &'a Bytes,
        origin: Origin,
    },
}

/// Whether a word is this text.
fn is(word: &[u8], text: &[u8]) -> bool
    ensures { (result ≡ true) ↔ (word.now ≡ text.now) }
{
    word == text
}

/// How many samples are to be generated, if this word is a number of 1 to 1,000,000.
fn samples_of(word: &[u8]) -> Option<u64>
    ensures { MatchOption result (IsNoCount word.now) (IsCount word.now) }
{
    let samples = number_of(word)?;
    if samples < 1 || samples > MOST_GENERATED {
        return None;
    }
    Some(samples)
}

/// The command of this name with one argument, if there is one.
fn with_one<'a>(name: &[u8], only: &'a Bytes) -> Option<Command<'a>>
    ensures { MatchOption result (IsUsage (name.now ∷ only.now ∷ [])) (λ command. Asks (name.now ∷ only.now ∷ []) (request_of command)) }
{
    if is(name, b"opened") {
        return Some(Command::Show {
            input: only,
            aspect: Aspect::Opened,
        });
    }
    if is(name, b"check") {
        return Some(Command::Show {
            input: only,
            aspect: Aspect::Verdict,
        });
    }
    if is(name, b"info") {
        return Some(Command::Show {
            input: only,
            aspect: Aspect::Contents,
        });
    }
    if is(name, b"attachments") {
        return Some(Command::Show {
            input: only,
            aspect: Aspect::Attachments,
        });
    }
    if is(name, b"record") {
        return Some(Command::Record {
            output: only,
            origin: Origin::Source,
        });
    }
    None
}

/// The command of this name with two arguments, if there is one.
fn with_two<'a>(name: &[u8], first: &'a Bytes, second: &'a Bytes) -> Option<Command<'a>>
    ensures { MatchOption result (IsUsage (name.now ∷ first.now ∷ second.now ∷ [])) (λ command. Asks (name.now ∷ first.now ∷ second.now ∷ []) (request_of command)) }
{
    if is(name, b"finalize") {
        return Some(Command::Make {
            input: first,
            output: second,
            product: Product::Finalized,
        });
    }
    if is(name, b"sort") {
        return Some(Command::Make {
            input: first,
            output: second,
            product: Product::Sorted,
        });
    }
    if is(name, b"export") {
        let group = number_of(second.as_slice())?;
        return Some(Command::Show {
            input: first,
            aspect: Aspect::Table { group },
        });
    }
    if is(name, b"gen") {
        let samples = samples_of(first.as_slice())?;
        return Some(Command::Record {
            output: second,
            origin: Origin::Generated { samples },
        });
    }
    None
}

/// The command of this name with three arguments, if there is one.
fn with_three<'a>(
    name: &[u8],
    input: &'a Bytes,
    second: &'a Bytes,
    output: &'a Bytes,
) -> Option<Command<'a>>
    ensures { MatchOption result (IsUsage (name.now ∷ input.now ∷ second.now ∷ output.now ∷ [])) (λ command. Asks (name.now ∷ input.now ∷ second.now ∷ output.now ∷ []) (request_of command)) }
{
    if is(name, b"concat") {
        return Some(Command::Join {
            input,
            second,
            output,
            union: Union::Concat,
        });
    }
    if is(name, b"attach") {
        return Some(Command::Join {
            input,
            second,
            output,
            union: Union::Attach,
        });
    }
    None
}

/// The command of this name with four arguments, if there is one.
fn with_four<'a>(
    name: &[u8],
    input: &'a Bytes,
    output: &'a Bytes,
    from: &Bytes,
    to: &Bytes,
) -> Option<Command<'a>>
    ensures { MatchOption result (IsUsage (name.now ∷ input.now ∷ output.now ∷ from.now ∷ to.now ∷ [])) (λ command. Asks (name.now ∷ input.now ∷ output.now ∷ from.now ∷ to.now ∷ []) (request_of command)) }
{
    if is(name, b"cut") {
        let from = bound_of(from.as_slice())?;
        let to = bound_of(to.as_slice())?;
        return Some(Command::Make {
            input,
            output,
            product: Product::Cut { from, to },
        });
    }
    None
}

/// The command that the words name, if any.
pub fn command_of(words: &Rows<Bytes>) -> Option<Command<'_>>
    ensures { MatchOption result (IsUsage words.now) (λ command. Asks words.now (request_of command)) }
{
    let [first, arguments @ ..] = words.as_slice() else {
        return None;
    };
    let name = first.as_slice();
    match arguments {
        [only] => with_one(name, only),
        [first, second] => with_two(name, first, second),
        [input, second, output] => with_three(name, input, second, output),
        [input, output, from, to] => with_four(name, input, output, from, to),
        _ => None,
    }
}
