ghost use Rattle.std.specs.Prelude.{◌≡◌};
ghost use Rattle.mdf_attach.specs.Says.{HasVerdict, compared, is_checked, the_verdict};

use crate::{Attachment, Verdict};
use md5::{Digest, Md5};

/// Whether the data is embedded as it is, and its MD5 is said to be valid.
pub(crate) fn is_checked(flags: u16) -> bool
    ensures { result ≡ is_checked flags }
{
    flags % 2 == 1 && flags / 2 % 2 == 0 && flags / 4 % 2 == 1
}

/// What is said where the embedded data has this MD5 and that one was stored.
pub(crate) fn compared(digest: [u8; 16], stored: [u8; 16]) -> Verdict
    ensures { result ≡ compared digest stored }
{
    if digest == stored {
        Verdict::Ok
    } else {
        Verdict::Differs
    }
}

/// Whether the MD5 that was stored is that of the embedded data: `Ok` or `Differs` where the data is embedded, is not
/// compressed, and the MD5 is said to be valid, and `Unchecked` otherwise.
pub fn verdict(attachment: &Attachment) -> Verdict
    ensures says { HasVerdict attachment.now result }
    ensures is { result ≡ the_verdict attachment.now }
{
    if !is_checked(attachment.flags) {
        return Verdict::Unchecked;
    }
    compared(Md5::digest(attachment.content.as_slice()), attachment.md5)
}
