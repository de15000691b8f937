ghost use Rattle.std.specs.Prelude.{◌≡◌, ◌<◌, ◌^◌, ◌++◌, IfOk, OnOk};
ghost use Rattle.std.specs.List.{AllByRecursion};
ghost use Rattle.mdf_spell.specs.Counts.{IsCounted};
ghost use Rattle.mdf_spell.specs.Front.{IsFrontOf};
ghost use Rattle.mdf_spell.specs.Session.{own_data};

use crate::data::{place_own_data, place_tree};
use crate::history::place_head;
use crate::recovered::Recovered;
use mdf_block::{Draft, Link};
use mdf_num::{Bytes, Memory};
use mdf_vlsd::ValueStream;
use std::alloc::Global;

/// The identification of a finalized file: version 4.10, and no flags.
pub const FINALIZED_IDENT: [u8; 64] =
    *b"MDF     4.10    mdf4rec \0\0\0\0\x9a\x01\0\0\0\0\0\0\0\0\0\0\0\0\0\0\0\0\0\0\0\0\0\0\0\0\0\0\0\0\0\0\0\0\0\0";

/// The front of a finalized file: its blocks up to the first one of data, and the links of its channels of variable length to
/// groups of values, where they name such.
#[derive(Drop)]
pub struct Front {
    pub blocks: Draft,
    pub names: Vec<Link>,
}

/// The front of the finalized file of what was read of a recording: header, the history with the entry of this finalizing
/// at `now_ns` (ns since 1970) as its last, and the data group. Its channel groups have the cycles that are counted, and
/// those of values the sum of their lengths in the place of the two sizes of a record (the low and the high 32 bits). A
/// channel of variable length names its group of values where that group now stands, or else an SD of its own behind the
/// DT. The records and the values are not looked at.
///
/// # Errors
/// `Memory` where memory runs out, or where there are more than 2^30 blocks.
pub fn finalized_front(alloc: Global, recovered: &Recovered, now_ns: u64) -> Result<Front, Memory>
    requires { IsCounted recovered.now }
    ensures front { IfOk result (IsFrontOf recovered.now now_ns) }
    ensures fit { OnOk result (AllByRecursion (λ count. count < 2 ^ 64) recovered.now.counts.now) }
{
    let mut blocks = Draft::new(alloc);
    place_head(
        alloc,
        &mut blocks,
        recovered.head,
        recovered.history,
        "finalize",
        now_ns,
        true,
    )?;
    let names = place_tree(alloc, &mut blocks, recovered)?;
    Ok(Front { blocks, names })
}

/// The blocks of a finalized file: its front, behind it all records in one DT, in their order, which are moved, and the
/// values of each channel of variable length that names no group of values.
///
/// # Errors
/// `Memory` where memory runs out.
pub fn with_data(
    alloc: Global,
    front: Front,
    content: Bytes,
    streams: &[ValueStream],
) -> Result<Draft, Memory>
    ensures { IfOk result (λ blocks. blocks ≡ front.blocks ++ own_data front.names.items content streams.now) }
{
    let Front { blocks, names } = front;
    let mut blocks = blocks;
    place_own_data(alloc, &mut blocks, names.as_slice(), content, streams)?;
    Ok(blocks)
}
