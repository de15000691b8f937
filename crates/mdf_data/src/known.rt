/// How long the records of a group are, without their ids.
#[derive(Clone, Copy)]
pub enum Size {
    /// So many bytes each.
    Fixed(u64),
    /// Values of variable length: each a u32, which says how many bytes follow.
    Variable,
}

/// A group of records.
#[derive(Clone, Copy)]
pub struct Known {
    /// What the ids of its records say.
    pub id: u64,
    /// How long they are.
    pub size: Size,
}

/// A whole record of a stream, with its id.
#[derive(Clone, Copy, Debug)]
pub struct Piece {
    /// The number of its group, counted from 0.
    pub which: u32,
    /// The place of its first byte in the stream.
    pub at: u64,
    /// How many bytes it has.
    pub len: u64,
}

/// The group that an id belongs to.
#[derive(Clone, Copy)]
pub(crate) struct Group {
    /// Its number, counted from 0.
    pub(crate) which: u32,
    /// How long its records are.
    pub(crate) size: Size,
}
