ghost use Rattle.std.specs.Prelude.{◌≡◌, ◌<◌, length, OnOk, IfOk};
ghost use Rattle.mdf_disk.specs.Image.{moment_inside, image_of, image_begun, image_ended};

use crate::call::Call;
use crate::tape::{patch, perform};
use std::alloc::{AllocError, Global};

/// Which of the files that a crash may leave.
#[derive(Clone, Copy)]
pub enum Pick {
    /// With none of what was written since the last sync.
    Stable,
    /// With all of it.
    Content,
    /// With this byte in the place of each byte of it.
    Filled(u8),
}

/// The file that a crash inside call `k` may leave, of a disk that began with none.
pub fn image(alloc: Global, calls: &[Call], k: usize, pick: Pick) -> Result<Vec<u8>, AllocError>
    requires { k < length calls.now }
    ensures { IfOk result (λ image. image.items ≡ image_of pick (moment_inside calls.now k)) }
{
    let mut content = Vec::new(alloc);
    let mut image = Vec::new(alloc);
    for call in &calls[..k] {
        begin(alloc, &mut image, call, pick)?;
        perform(&mut content, call)?;
        end(alloc, &mut image, &content, call)?;
    }
    begin(alloc, &mut image, &calls[k], pick)?;
    Ok(image)
}

/// Goes into a call.
fn begin(alloc: Global, image: &mut Vec<u8>, call: &Call, pick: Pick) -> Result<(), AllocError>
    ensures { OnOk result (image.new.items ≡ image_begun pick call.now image.old.items) }
{
    match pick {
        Pick::Stable => Ok(()),
        Pick::Content => perform(image, call),
        Pick::Filled(byte) => {
            let Call::Write { at, bytes, .. } = call else {
                return Ok(());
            };
            let filler = vec![in alloc; byte; bytes.as_slice().len()]?;
            patch(image, *at as usize, &filler)
        }
    }
}

/// Goes out of a call that led to this content.
fn end(alloc: Global, image: &mut Vec<u8>, content: &[u8], call: &Call) -> Result<(), AllocError>
    ensures { OnOk result (image.new.items ≡ image_ended call.now content.now image.old.items) }
{
    if let Call::Sync { done: true } = call {
        *image = content.to_vec(alloc)?;
    }
    Ok(())
}
