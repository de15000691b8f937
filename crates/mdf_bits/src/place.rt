ghost use Rattle.std.specs.Prelude.{◌≤◌};

/// Where a field of bits lies in a record.
#[derive(Clone, Copy, Debug)]
pub struct Field {
    /// The first of its bytes, counted from 0.
    pub byte: u32,
    /// The first bit in them, counted from the lowest one: 0 to 7.
    pub bit: u8,
    /// The number of its bits: 1 to 64.
    pub bits: u8,
    /// Whether its bytes stand with the highest first.
    pub big: bool,
    pub ghost in_byte: { bit ≤ 7 },
    pub ghost not_empty: { 1 ≤ bits },
    pub ghost in_word: { bits ≤ 64 },
}
