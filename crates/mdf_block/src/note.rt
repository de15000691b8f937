ghost use Rattle.std.specs.Prelude.{◌≡◌, IfOk};

use mdf_num::{Bytes, Memory};

/// A text that a link names.
#[derive(Debug, Drop)]
pub enum Note {
    /// The link is 0.
    Nothing,
    /// The text of a TXBLOCK.
    Plain(Bytes),
    /// The text of an MDBLOCK, which is XML.
    Xml(Bytes),
}

impl Note {
    /// An equal text, over the same allocator.
    pub fn copy(&self) -> Result<Note, Memory>
        ensures { IfOk result (λ copy. copy ≡ self.now) }
    {
        Ok(match self {
            Note::Nothing => Note::Nothing,
            Note::Plain(text) => Note::Plain(text.copy()?),
            Note::Xml(text) => Note::Xml(text.copy()?),
        })
    }
}
