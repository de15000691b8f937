/// How the value of a channel lies in a record.
#[derive(Clone, Copy, Debug)]
pub enum FieldKind {
    /// An unsigned number, or the bit pattern of a float.
    Unsigned,
    /// A signed number, in two's complement.
    Signed,
    /// So many bytes.
    Fixed,
    /// The offset of a value of variable length in a stream.
    Variable,
    /// The index of the record, which takes no bytes.
    Virtual,
}

/// Where and how the value of one channel (CNBLOCK) lies in a record.
#[derive(Clone, Copy, Debug)]
pub struct FieldRow {
    pub kind: FieldKind,
    /// Whether its bytes stand with the highest first.
    pub big: bool,
    /// The first of its bytes in the data bytes (`cn_byte_offset`), counted from 0.
    pub byte: u32,
    /// The first bit in that byte (`cn_bit_offset`), counted from the lowest one.
    pub bit: u8,
    /// The number of its bits (`cn_bit_count`).
    pub bits: u32,
    /// Its position in the invalidation bits (`cn_inval_bit_pos`), where it has one.
    pub inval: Option<u32>,
    /// Whether all its values are invalid (bit 0 of `cn_flags`).
    pub all_invalid: bool,
}
