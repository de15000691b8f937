ghost use Rattle.std.specs.Prelude.{◌≡◌, ◌*◌, ◌<◌, true, length, IfOk, IfErr};
ghost use Rattle.mdf_num.specs.declared.halt.Stop.TheVariants.{Memory};
ghost use Rattle.mdf_num.specs.Span.{IsTold};
ghost use Rattle.mdf_pages.specs.Page.{IsPageOf};
ghost use Rattle.mdf_pages.specs.Cause.{ReadEnds};

use mdf_disk::Disk;
use mdf_num::{Bytes, Stop};
use std::alloc::Global;

/// How many bytes a page has.
pub(crate) const PAGE_LEN: u64 = 65_536;

/// Room for so many bytes: that of these, where they are as many, so that no byte of it is cleared first.
fn room_of(alloc: Global, old: Bytes, count: usize) -> Result<Vec<u8>, Stop>
    ensures count { IfOk result (λ room. length room.items ≡ count) }
    ensures wanted { IfErr result (λ stop. stop ≡ Memory) }
{
    let items = old.into_vec();
    if items.len() == count {
        return Ok(items);
    }
    Ok(vec![in alloc; 0u8; count]?)
}

/// Reads a page, by its number from 0, of a file of so many bytes. The room for it is found before it is read, in that of a page
/// that is no longer kept where it is as long.
///
/// # Errors
/// `Failed` where the disk failed. `Memory` for want of memory, where the disk did not fail.
pub(crate) fn read_page<D: Disk>(
    alloc: Global,
    disk: &mut D,
    size: u64,
    page: u64,
    old: Bytes,
) -> Result<Bytes, Stop>
    requires attached { D.attached disk.old ≡ true }
    requires sized { IsTold (D.content disk.old) size }
    requires within { 65536 * page < size }
    ensures page { IfOk result (IsPageOf (D.content disk.old) size page) }
    ensures ends { ReadEnds D.Disk disk.old disk.new result }
{
    let at = page * PAGE_LEN;
    let count = (size - at).min(PAGE_LEN);
    let mut bytes = room_of(alloc, old, count as usize)?;
    let Ok(()) = disk.read_at(at, &mut bytes) else {
        return Err(Stop::Failed);
    };
    Ok(Bytes::from_vec(bytes))
}
