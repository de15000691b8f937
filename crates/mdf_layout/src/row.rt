// The field of a channel, from the numbers of its row.
ghost use Rattle.std.specs.Prelude.{◌≡◌, ℕ, List, map, true, ◌↔◌};
ghost use Rattle.mdf_format.specs.Row.{RowNumbers, BreaksRowRule, form_of};
ghost use Rattle.mdf_layout.specs.Row.{field_row, numbers_of, kind_in};
ghost use Rattle.mdf_layout.specs.Rule.{breaks_row_rule, BreaksRule};
ghost use Rattle.mdf_layout.specs.declared.field.FieldRow.{FieldRow};

use crate::{FieldKind, FieldRow};

/// What the row of a channel (CNBLOCK) says of its place in a record.
#[derive(Clone, Copy, Debug)]
pub struct ChannelNumbers {
    /// `cn_type`.
    pub kind: u8,
    /// `cn_data_type`.
    pub data_type: u8,
    /// `cn_byte_offset`: the first of its bytes in the data bytes, counted from 0.
    pub byte: u32,
    /// `cn_bit_offset`: the first bit in that byte, counted from the lowest one.
    pub bit: u8,
    /// `cn_bit_count`: the number of its bits.
    pub bits: u32,
    /// `cn_flags`.
    pub flags: u32,
    /// `cn_inval_bit_pos`: the position of its invalidation bit, where bit 1 of the flags says that it has one.
    pub inval: u32,
}

/// The kind of its field.
fn kind_of(channel: ChannelNumbers) -> FieldKind
    ensures { result ≡ kind_in (form_of (numbers_of channel)) }
{
    match (channel.kind, channel.data_type) {
        (3 | 6, _) => FieldKind::Virtual,
        (1, _) => FieldKind::Variable,
        (_, 2 | 3) => FieldKind::Signed,
        (_, 0..=5) => FieldKind::Unsigned,
        _ => FieldKind::Fixed,
    }
}

/// The field of a channel with these numbers. A virtual master (`cn_type` 3) and virtual data (6) have none; a channel of
/// variable length (1) has a little-endian offset; of the others the data types 0, 1, 4 and 5 are unsigned numbers or
/// the bits of floats, 2 and 3 signed numbers, and those from 6 on bytes; 1, 3 and 5 are big-endian.
pub fn field_row(channel: ChannelNumbers) -> FieldRow
    ensures { result ≡ field_row (numbers_of channel) }
{
    FieldRow {
        kind: kind_of(channel),
        big: channel.kind != 1
            && (channel.data_type == 1 || channel.data_type == 3 || channel.data_type == 5),
        byte: channel.byte,
        bit: channel.bit,
        bits: channel.bits,
        inval: if channel.flags / 2 % 2 == 1 {
            Some(channel.inval)
        } else {
            None
        },
        all_invalid: channel.flags % 2 == 1,
    }
}

/// A law: the test of the rules is true exactly where a channel breaks one, be it stated over the fields of channels or
/// over the numbers of their rows.
pub fn rules_are_tested()
    ensures fields { (data_bytes inval_bytes : ℕ) (rows : List FieldRow) (k : ℕ) (row : FieldRow)
        → (breaks_row_rule data_bytes inval_bytes rows k row ≡ true) ↔ BreaksRule data_bytes inval_bytes rows k row }
    ensures numbers { (data_bytes inval_bytes : ℕ) (rows : List RowNumbers) (k : ℕ) (row : RowNumbers)
        → (breaks_row_rule data_bytes inval_bytes (map field_row rows) k (field_row row) ≡ true)
        ↔ BreaksRowRule data_bytes inval_bytes rows k row }
{}
