ghost use Rattle.std.specs.Prelude.{◌≡◌, ◌+◌, ◌≤◌, true};
ghost use Rattle.mdf_format.specs.Number.{bytes_at};
ghost use Rattle.mdf_block.specs.Reads.{Looks};
ghost use Rattle.mdf_block.specs.Block.{IsInside};
ghost use Rattle.mdf_attach.specs.declared.attachment.Attachment.{Attachment};
ghost use Rattle.mdf_attach.specs.Listed.{attachment_with};

use crate::digest::verdict_in;
use crate::field::{Fields, content_in};
use crate::texts::Texts;
use crate::{Attachment, Entry};
use mdf_block::BlockAt;
use mdf_num::{Bytes, Span, Stop};
use std::alloc::Global;

/// What is made of an attachment that is read.
pub(crate) trait Make {
    /// What is made of one.
    type Made: Drop;

    /// What that is.
    ghost made: { Attachment → Self.Made };

    /// What is made of the attachment of a block with these fields and texts.
    fn make_in<P: Span>(
        alloc: Global,
        span: &mut P,
        block: &BlockAt,
        fields: Fields,
        texts: Texts,
    ) -> Result<Self::Made, Stop>
        requires inside { IsInside (P.size span.old) block.now }
        requires holds { 40 + fields.embedded ≤ block.now.body_len }
        ensures reads { Looks P.Span span.old span.new true result (λ file x. x ≡ made (attachment_with block.now.at fields texts (bytes_at fields.embedded file (block.now.body_at + 40)))) };
}

/// The attachment with these fields, texts and data.
fn attachment_with(at: u64, fields: Fields, texts: Texts, content: Bytes) -> Attachment
    ensures { result ≡ attachment_with at fields texts content }
{
    let md5 = fields.md5;
    Attachment {
        at,
        name: texts.name,
        mime: texts.mime,
        comment: texts.comment,
        flags: fields.flags,
        creator: fields.creator,
        md5,
        original: fields.original,
        content,
    }
}

/// The attachment itself, with a copy of its embedded data.
pub(crate) struct Whole;

impl Make for Whole {
    type Made = Attachment;

    ghost made = { λ attachment. attachment };

    fn make_in<P: Span>(
        alloc: Global,
        span: &mut P,
        block: &BlockAt,
        fields: Fields,
        texts: Texts,
    ) -> Result<Attachment, Stop> {
        let content = content_in(alloc, span, block, fields.embedded)?;
        Ok(attachment_with(block.at, fields, texts, content))
    }
}

/// What is listed of it. No embedded data is copied.
pub(crate) struct Listed;

impl Make for Listed {
    ghost use Rattle.mdf_attach.specs.Shown.{entry_of};

    type Made = Entry;

    ghost made = { entry_of };

    fn make_in<P: Span>(
        _: Global,
        span: &mut P,
        block: &BlockAt,
        fields: Fields,
        texts: Texts,
    ) -> Result<Entry, Stop> {
        let verdict = verdict_in(span, block, &fields)?;
        Ok(Entry {
            name: texts.name,
            original: fields.original,
            embedded: fields.embedded,
            verdict,
        })
    }
}
