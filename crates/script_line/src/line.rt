ghost use Rattle.std.specs.Prelude.{◌≡◌, Some, IfSome};
ghost use Rattle.std.specs.Option.{option_map};
ghost use Rattle.script_line.specs.Text.{words_left};
ghost use Rattle.script_line.specs.Line.{IsSaid, line_of, worded, worded_plan, one_number, group_of, channel_of, channel_with, inval_of, marks_of, unit_of, block_of, session_of, form_of, flush_of, alone};
ghost use Rattle.script_line.specs.View.{seen};

use crate::front::leading_number;
use crate::kind::{ValueType, is_number, type_of};
use crate::number::number_of;
use crate::text::{cut, is_end, is_name};

/// What the line of a channel says of its values.
#[derive(Clone, Copy)]
pub struct ChannelForm {
    pub kind: ValueType,
    /// Whether it is the master.
    pub master: bool,
    /// Whether it has an invalidation bit.
    pub inval: bool,
}

/// What one line of a script says.
#[derive(Clone, Copy)]
pub enum Line<'a> {
    /// An empty line or a comment.
    Passed,
    /// How many data bytes a block has at most.
    Block {
        limit: u64,
    },
    /// What the samples cost in all at most.
    Session {
        limit: u64,
    },
    /// The form of the recording.
    Form {
        number: u64,
    },
    /// Samples are to be shown while the recording is made.
    Live,
    /// The next group.
    Group {
        source: u64,
        name: &'a [u8],
    },
    /// The next channel of the last group.
    Channel {
        name: &'a [u8],
        form: ChannelForm,
    },
    /// The unit of the last channel.
    Unit {
        name: &'a [u8],
    },
    /// The end of the plan.
    Begin,
    /// A sample, with the words of its values.
    Sample {
        group: u64,
        values: Option<&'a [u8]>,
    },
    /// A source flushes.
    Flush {
        source: u64,
    },
    /// The end of the script.
    End,
}

/// What stands behind a channel's type.
#[derive(Clone, Copy)]
pub struct Marks {
    pub master: bool,
    pub inval: bool,
}

/// The line of these words behind `group`.
#[tactic(auto, unfolding(crate::specs::Line::group_of))]
fn group_of(words: Option<&[u8]>) -> Option<Line<'_>>
    ensures { option_map seen result ≡ group_of (words_left words.entry) }
{
    let (source, words) = cut(words?, b' ');
    let (name, words) = cut(words?, b' ');
    if !is_name(name) || !is_end(words) {
        return None;
    }
    let source = number_of(source)?;
    Some(Line::Group { source, name })
}

/// Whether the words say that a channel has an invalidation bit, if they are admitted.
#[tactic(auto, unfolding(crate::specs::Line::inval_of))]
fn inval_of(words: Option<&[u8]>) -> Option<bool>
    ensures { result ≡ inval_of (words_left words.entry) }
{
    let Some(text) = words else {
        return Some(false);
    };
    let (word, words) = cut(text, b' ');
    if word != b"inv".as_slice() || !is_end(words) {
        return None;
    }
    Some(true)
}

/// What the words behind a channel's type say, if they are admitted.
#[tactic(auto, unfolding(crate::specs::Line::marks_of))]
fn marks_of(words: Option<&[u8]>) -> Option<Marks>
    ensures { result ≡ marks_of (words_left words.entry) }
{
    let Some(text) = words else {
        return Some(Marks {
            master: false,
            inval: false,
        });
    };
    let (word, behind) = cut(text, b' ');
    let master = word == b"master".as_slice();
    let inval = inval_of(if master { behind } else { words })?;
    Some(Marks { master, inval })
}

/// The line of a channel of this type, if it can be what stands behind the type.
fn channel_with(name: &[u8], kind: ValueType, marks: Marks) -> Option<Line<'_>>
    ensures { option_map seen result ≡ channel_with name.now kind marks }
{
    if marks.master && !is_number(kind) {
        return None;
    }
    Some(Line::Channel {
        name,
        form: ChannelForm {
            kind,
            master: marks.master,
            inval: marks.inval,
        },
    })
}

/// The line of these words behind `channel`.
#[tactic(auto, unfolding(crate::specs::Line::channel_of))]
fn channel_of(words: Option<&[u8]>) -> Option<Line<'_>>
    ensures { option_map seen result ≡ channel_of (words_left words.entry) }
{
    let (name, words) = cut(words?, b' ');
    let (kind, words) = cut(words?, b' ');
    if !is_name(name) {
        return None;
    }
    let kind = type_of(kind)?;
    let marks = marks_of(words)?;
    channel_with(name, kind, marks)
}

/// The line of these words behind `unit`.
#[tactic(auto, unfolding(crate::specs::Line::unit_of))]
fn unit_of(words: Option<&[u8]>) -> Option<Line<'_>>
    ensures { option_map seen result ≡ unit_of (words_left words.entry) }
{
    let (name, words) = cut(words?, b' ');
    if !is_name(name) || !is_end(words) {
        return None;
    }
    Some(Line::Unit { name })
}

/// The number that the one word is.
#[tactic(auto, unfolding(crate::specs::Line::one_number))]
fn one_number(words: Option<&[u8]>) -> Option<u64>
    ensures { result ≡ one_number (words_left words.entry) }
{
    let (word, words) = cut(words?, b' ');
    if !is_end(words) {
        return None;
    }
    number_of(word)
}

/// The line of these words behind `block`.
#[tactic(auto, unfolding(crate::specs::Line::block_of))]
fn block_of(words: Option<&[u8]>) -> Option<Line<'_>>
    ensures { option_map seen result ≡ block_of (words_left words.entry) }
{
    let limit = one_number(words)?;
    Some(Line::Block { limit })
}

/// The line of these words behind `session`.
#[tactic(auto, unfolding(crate::specs::Line::session_of))]
fn session_of(words: Option<&[u8]>) -> Option<Line<'_>>
    ensures { option_map seen result ≡ session_of (words_left words.entry) }
{
    let limit = one_number(words)?;
    Some(Line::Session { limit })
}

/// The line of these words behind `form`.
#[tactic(auto, unfolding(crate::specs::Line::form_of))]
fn form_of(words: Option<&[u8]>) -> Option<Line<'_>>
    ensures { option_map seen result ≡ form_of (words_left words.entry) }
{
    let number = one_number(words)?;
    Some(Line::Form { number })
}

/// The line of these words behind `!`.
#[tactic(auto, unfolding(crate::specs::Line::flush_of))]
fn flush_of(words: Option<&[u8]>) -> Option<Line<'_>>
    ensures { option_map seen result ≡ flush_of (words_left words.entry) }
{
    let source = one_number(words)?;
    Some(Line::Flush { source })
}

/// A line of one word.
#[tactic(auto, unfolding(crate::specs::Line::alone))]
fn alone<'a>(line: Line<'a>, words: Option<&[u8]>) -> Option<Line<'a>>
    ensures { option_map seen result ≡ alone (seen line.entry) (words_left words.entry) }
{
    if !is_end(words) {
        return None;
    }
    Some(line)
}

/// The line of these words, if it is none of a plan.
#[tactic(auto, unfolding(crate::specs::Line::worded))]
fn worded<'a>(word: &[u8], words: Option<&'a [u8]>) -> Option<Line<'a>>
    ensures { option_map seen result ≡ worded word.now (words_left words.entry) }
{
    if word == b"begin".as_slice() {
        return alone(Line::Begin, words);
    }
    if word == b"!".as_slice() {
        return flush_of(words);
    }
    if word == b"end".as_slice() {
        return alone(Line::End, words);
    }
    let group = number_of(word)?;
    Some(Line::Sample {
        group,
        values: words,
    })
}

/// The line of these words.
#[tactic(auto, unfolding(crate::specs::Line::worded_plan))]
fn worded_plan<'a>(word: &[u8], words: Option<&'a [u8]>) -> Option<Line<'a>>
    ensures { option_map seen result ≡ worded_plan word.now (words_left words.entry) }
{
    if word == b"block".as_slice() {
        return block_of(words);
    }
    if word == b"session".as_slice() {
        return session_of(words);
    }
    if word == b"form".as_slice() {
        return form_of(words);
    }
    if word == b"live".as_slice() {
        return alone(Line::Live, words);
    }
    if word == b"group".as_slice() {
        return group_of(words);
    }
    if word == b"channel".as_slice() {
        return channel_of(words);
    }
    if word == b"unit".as_slice() {
        return unit_of(words);
    }
    worded(word, words)
}

/// The sample that a line is, if its first word is a number of at most 19 digits.
fn sample_of(text: &[u8]) -> Option<Line<'_>>
    ensures { IfSome result (λ line. line_of text.now ≡ Some (seen line)) }
{
    let found = leading_number(text)?;
    Some(Line::Sample {
        group: found.number,
        values: found.behind,
    })
}

/// The line of these bytes.
#[tactic(auto, unfolding(crate::specs::Line::line_of))]
fn any_line(text: &[u8]) -> Option<Line<'_>>
    ensures { option_map seen result ≡ line_of text.now }
{
    if text.is_empty() || text[0] == b';' {
        return Some(Line::Passed);
    }
    let (word, words) = cut(text, b' ');
    worded_plan(word, words)
}

/// What a line says, which is given without its LF: the words of a sample's values are not looked at. None exactly where
/// no line of a script is spelled so. It takes no memory.
pub fn line_of(text: &[u8]) -> Option<Line<'_>>
    ensures line { option_map seen result ≡ line_of text.now }
    // What is named has a name, and a channel a type.
    ensures said { IfSome (option_map seen result) IsSaid }
{
    match sample_of(text) {
        Some(line) => Some(line),
        None => any_line(text),
    }
}
