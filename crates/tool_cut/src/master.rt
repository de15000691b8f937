ghost use Rattle.std.specs.Prelude.{◌≡◌, ◌+◌, ◌^◌, ◌≤◌, ◌<◌, true, length, IsTrue};
ghost use Rattle.std.specs.List.{position};
ghost use Rattle.mdf_format.specs.Field.{field_number};
ghost use Rattle.mdf_format.specs.Number.{bytes_at, le_number};
ghost use Rattle.mdf_format.specs.Row.{IsNumberPlaced};
ghost use Rattle.mdf_layout.specs.Rule.{IsPlacedAs, bits_in, spot_in};
ghost use Rattle.tool_cut.specs.Master.{is_master, lies_between, raw_number};
ghost use Rattle.tool_cut.specs.Word.{IsWord};

use byteorder::{ByteOrder, LittleEndian};
use mdf_bits::{Field, get, signed};
use mdf_group::ChannelRow;
use mdf_layout::{FieldKind, FieldRow, Shape};

/// Whether the channel is a master whose values are numbers.
fn is_master(channel: &ChannelRow) -> bool
    ensures { result ≡ is_master channel.now }
{
    channel.kind == 2 && channel.data_type < 6
}

/// The number of the first master among the channels.
pub(crate) fn master_of(channels: &[ChannelRow]) -> Option<usize>
    ensures { result ≡ position is_master channels.now }
{
    channels.iter().position(|channel| is_master(channel))
}

/// Whether the numbers of a field are eight whole bytes with the lowest first, as times of 64 bits are.
pub(crate) fn is_word(row: FieldRow) -> bool
    ensures { IsTrue result → IsWord row }
{
    matches!(row.kind, FieldKind::Unsigned) && row.bits == 64 && row.bit == 0 && !row.big
}

/// The number in the eight bytes from a place on, the lowest first.
fn word_at(bytes: &[u8], at: usize) -> u64
    requires { at + 8 ≤ length bytes.now }
    ensures { result ≡ le_number (bytes_at 8 bytes.now at) }
{
    LittleEndian::read_u64(&bytes[at..at + 8])
}

/// The number in the field of a channel whose numbers are such bytes, which are read at once.
fn word_in(row: FieldRow, content: &[u8]) -> u64
    requires placed { IsNumberPlaced (length content.now) (spot_in row) }
    requires word { IsWord row }
    ensures { result ≡ field_number (spot_in row) content.now }
{
    word_at(content, row.byte as usize)
}

/// The number in the field of a channel of numbers.
fn number_in(row: FieldRow, content: &[u8]) -> u64
    requires placed { IsNumberPlaced (length content.now) (spot_in row) }
    requires own { bits_in row.kind row.bits ≡ row.bits }
    ensures number { result ≡ field_number (spot_in row) content.now }
    ensures fits { result < 2 ^ row.bits }
{
    let field = Field {
        byte: row.byte,
        bit: row.bit,
        bits: row.bits as u8,
        big: row.big,
    };
    get(content, field)
}

/// The raw number of a channel in the data bytes of a record, where it has one. `WORD` says that it is eight whole bytes.
fn raw_number<const WORD: bool>(row: FieldRow, content: &[u8]) -> Option<i128>
    requires placed { IsPlacedAs row.kind (length content.now) (spot_in row) }
    requires word { WORD ≡ true → IsWord row }
    ensures { result ≡ raw_number row content.now }
{
    if WORD {
        return Some(i128::from(word_in(row, content)));
    }
    match row.kind {
        FieldKind::Unsigned => Some(i128::from(number_in(row, content))),
        FieldKind::Signed => Some(i128::from(signed(number_in(row, content), row.bits as u8))),
        FieldKind::Fixed | FieldKind::Variable | FieldKind::Virtual => None,
    }
}

/// A range of raw numbers, without its end.
#[derive(Clone, Copy)]
pub(crate) struct Range {
    pub from: i128,
    pub to: i128,
}

impl Range {
    /// From a number on, and below another.
    pub(crate) fn new(from: i128, to: i128) -> Range
        ensures from { result.from ≡ from }
        ensures to { result.to ≡ to }
    {
        Range { from, to }
    }

    /// Whether the raw number of a channel in the data bytes of a record lies in the range; it does where it has none. `WORD`
    /// says that it is eight whole bytes.
    pub(crate) fn has<const WORD: bool>(&self, row: FieldRow, content: &[u8]) -> bool
        requires placed { IsPlacedAs row.kind (length content.now) (spot_in row) }
        requires word { WORD ≡ true → IsWord row }
        ensures { result ≡ lies_between self.now.from self.now.to row content.now }
    {
        match raw_number::<WORD>(row, content) {
            Some(number) => self.from <= number && number < self.to,
            None => true,
        }
    }
}
