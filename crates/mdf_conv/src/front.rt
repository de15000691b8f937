use mdf_num::Numbers;

/// The numbers in the first 24 bytes of the body of a conversion.
#[derive(Clone, Copy)]
pub(crate) struct ConvFront {
    /// How it converts.
    pub(crate) kind: u8,
    /// How many decimal places to show.
    pub(crate) precision: u8,
    /// Whether the precision and the range hold.
    pub(crate) flags: u16,
    /// How many numbers follow.
    pub(crate) count: u16,
    /// The bits of the least physical value.
    pub(crate) low: u64,
    /// The bits of the greatest physical value.
    pub(crate) high: u64,
}

/// The numbers of a conversion, in its links and in its body.
#[derive(Drop)]
pub(crate) struct ConvNumbers {
    /// Those in the first 24 bytes of its body.
    pub(crate) front: ConvFront,
    /// Those that follow.
    pub(crate) numbers: Numbers,
    /// How many inverse conversions it names, one at most.
    pub(crate) inverse: u64,
}

/// The numbers in the body of a source.
#[derive(Clone, Copy)]
pub(crate) struct SourceFront {
    /// What the source is.
    pub(crate) kind: u8,
    /// The bus, where it is one.
    pub(crate) bus: u8,
    /// Whether the source is simulated.
    pub(crate) flags: u8,
}
