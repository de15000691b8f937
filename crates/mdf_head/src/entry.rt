use mdf_block::Note;

/// The header (HDBLOCK).
#[derive(Debug, Drop)]
pub struct Head {
    /// When the measurement began, in nanoseconds since 1970.
    pub start: u64,
    /// The time zone, in minutes.
    pub zone: i16,
    /// The daylight saving time, in minutes.
    pub daylight: i16,
    /// Whether the start is in local time, and whether the two offsets hold.
    pub time_flags: u8,
    /// The quality of the time.
    pub time_class: u8,
    /// Whether the start angle and the start distance hold.
    pub flags: u8,
    /// The bits of the start angle, in radians.
    pub angle: u64,
    /// The bits of the start distance, in metres.
    pub distance: u64,
    /// The comment.
    pub comment: Note,
    /// The address of the first data group, 0 for none.
    pub first_dg: u64,
}

/// An entry of the file history (FHBLOCK).
#[derive(Debug, Drop)]
pub struct History {
    /// The address of the block.
    pub at: u64,
    /// When the file was changed, in nanoseconds since 1970.
    pub time: u64,
    /// The time zone, in minutes.
    pub zone: i16,
    /// The daylight saving time, in minutes.
    pub daylight: i16,
    /// Whether the time is local, and whether the two offsets hold.
    pub flags: u8,
    /// Who changed it, and why.
    pub comment: Note,
}
