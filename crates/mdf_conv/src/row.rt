use mdf_block::Note;
use mdf_num::{Numbers, Rows};
use sqlite_items::Boxed;

/// Where a channel or a channel group comes from (SIBLOCK).
#[derive(Debug, Drop)]
pub struct SourceInfo {
    /// What the source is: other, an ECU, a bus, an I/O device, a tool or a user.
    pub kind: u8,
    /// The bus, where it is one.
    pub bus: u8,
    /// Bit 0: the source is simulated.
    pub flags: u8,
    /// The name.
    pub name: Note,
    /// The path, which a tool makes names unique by.
    pub path: Note,
    /// The comment.
    pub comment: Note,
}

/// How raw values become physical ones (CCBLOCK).
#[cycle(conversion)]
#[derive(Debug, Drop)]
pub struct Conversion {
    /// How it converts: one to one, linear, by a table, by texts and so on.
    pub kind: u8,
    /// How many decimal places to show; 255 for no limit.
    pub precision: u8,
    /// Bit 0: the precision holds. Bit 1: the range holds. Bit 2: for status strings.
    pub flags: u16,
    /// The bits of the least physical value.
    pub low: u64,
    /// The bits of the greatest physical value.
    pub high: u64,
    /// The bits of the values: factors, or the keys of a table.
    pub numbers: Numbers,
    /// What it refers to, in order: all links after the fourth.
    pub refs: Rows<Ref>,
    /// The name.
    pub name: Note,
    /// The unit.
    pub unit: Note,
    /// The comment.
    pub comment: Note,
}

/// What a conversion refers to.
#[cycle(conversion)]
#[derive(Debug, Drop)]
pub enum Ref {
    /// The link is 0.
    Nothing,
    /// A text.
    Words(Note),
    /// Another conversion.
    Conv(Boxed<Conversion>),
}
