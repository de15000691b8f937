ghost use Rattle.std.specs.Prelude.{◌≡◌, ◌+◌, ◌^◌, ◌<◌, ◌≤◌, ◌++◌, length, IfOk, OnOk, OnErr};
ghost use Rattle.std.specs.List.{AllByRecursion};
ghost use Rattle.mdf_tree.specs.Conv.{words_of};
ghost use Rattle.mdf_tree.specs.Parts.{joined};

use mdf_block::Draft;
use mdf_num::{Bytes, Memory};
use std::alloc::Global;

/// The greatest number of a block that is counted; a tree with more blocks wants memory.
const MOST: u32 = 1 << 30;

/// The number that the next block gets. It wants memory past 2^30 blocks, and only there.
pub fn next_number(draft: &Draft) -> Result<u32, Memory>
    ensures number { IfOk result (λ n. (n ≡ length draft.now) × (n ≤ 2 ^ 30)) }
    ensures past { OnErr result (2 ^ 30 < length draft.now) }
{
    let len = draft.len();
    if len > MOST as u64 {
        return Err(Memory);
    }
    Ok(len as u32)
}

/// The sum of two numbers of blocks. It wants memory past 2^30, and only there.
pub fn plus(a: u32, b: u32) -> Result<u32, Memory>
    ensures sum { IfOk result (λ sum. (sum ≡ a + b) × (sum ≤ 2 ^ 30)) }
    ensures past { OnErr result (2 ^ 30 < a + b) }
{
    if a > MOST || b > MOST - a {
        return Err(Memory);
    }
    Ok(a + b)
}

/// The bytes of the parts, one behind the other.
///
/// # Errors
/// `Memory` where memory runs out.
pub fn joined(alloc: Global, parts: &[&[u8]]) -> Result<Bytes, Memory>
    ensures { IfOk result (λ bytes. bytes ≡ joined parts.now) }
{
    let mut bytes = Bytes::empty(alloc);
    for part in parts {
        bytes.push_slice(part)?;
    }
    Ok(bytes)
}

/// Adds numbers of 8 bytes at the end.
pub(crate) fn push_words(bytes: &mut Bytes, numbers: &[u64]) -> Result<(), Memory>
    ensures pushed { OnOk result (bytes.new ≡ bytes.old ++ words_of numbers.now) }
    ensures small { OnOk result (AllByRecursion (λ n. n < 2 ^ 64) numbers.now) }
{
    for number in numbers {
        bytes.push_slice(&number.to_le_bytes())?;
    }
    Ok(())
}
