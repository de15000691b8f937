use mdf_block::Note;
use mdf_num::Bytes;

/// An attachment (ATBLOCK).
#[derive(Debug, Drop)]
pub struct Attachment {
    /// The address of the block.
    pub at: u64,
    /// The name of its file.
    pub name: Note,
    /// The MIME type.
    pub mime: Note,
    /// The comment.
    pub comment: Note,
    /// Whether the data is embedded (bit 0), is compressed (bit 1), and has a valid MD5 (bit 2).
    pub flags: u16,
    /// The number of the entry of the file history whose tool made or last changed it.
    pub creator: u16,
    /// The MD5 that was stored.
    pub md5: [u8; 16],
    /// How many bytes the data has outside of the file.
    pub original: u64,
    /// The embedded data.
    pub content: Bytes,
}
