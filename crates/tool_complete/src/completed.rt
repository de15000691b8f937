ghost use Rattle.std.specs.Prelude.{◌≡◌, ◌≤◌, length, IfOk};
ghost use Rattle.tool_complete.specs.Completed.{completed_file, dropped_rest};

use crate::ended::{end_with, last_open, mark};
use crate::flags::{are_counts_open, is_length_open};
use crate::mended::{mend, mended_of, rest_of};
use mdf_block::u16_field;
use mdf_num::{Bytes, Memory};
use std::alloc::Global;

/// A file that is completed.
#[derive(Drop)]
pub struct Whole {
    /// Its bytes.
    pub file: Bytes,
    /// How many bytes of its last block of data were no whole record.
    pub rest: u64,
}

/// The completed file of an unfinished one, in the same memory: the identification of a finalized file; where the standard flags say
/// so, the length of the last block of data, without what is no whole record at its end, and the cycle counts.
///
/// # Errors
/// Want of memory.
#[tactic(auto, unfolding(crate::specs::Ended::ended_file, crate::specs::Completed::completed_file, crate::specs::Completed::dropped_rest))]
pub fn completed_of(alloc: Global, file: Bytes) -> Result<Whole, Memory>
    requires { 64 ≤ length file }
    ensures file { IfOk result (λ whole. whole.file ≡ completed_file file) }
    ensures rest { IfOk result (λ whole. whole.rest ≡ dropped_rest file) }
{
    let mut bytes = file.into_vec();
    let word = u16_field(bytes.as_slice(), 60);
    mark(bytes.as_mut_slice());
    let last = last_open(alloc, bytes.as_slice(), is_length_open(word))?;
    end_with(bytes.as_mut_slice(), last);
    let mended = mended_of(alloc, bytes.as_slice(), last, are_counts_open(word))?;
    mend(bytes.as_mut_slice(), &mended);
    Ok(Whole {
        file: Bytes::from_vec(bytes),
        rest: rest_of(mended.cut),
    })
}
