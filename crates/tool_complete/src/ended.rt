ghost use Rattle.std.specs.Prelude.{◌≡◌, ◌+◌, ◌≤◌, length, if◌then◌else◌, IfOk};
ghost use Rattle.mdf_model.specs.Tree.{tree};
ghost use Rattle.tool_complete.specs.Ended.{ended_at, last_by, last_of, marked};

use crate::headed::last_headed;
use crate::names::data_names;
use mdf_group::DataRow;
use mdf_model::tree_in;
use mdf_num::{Halt, Memory, SliceSpan, put_u32, put_u64};
use std::alloc::Global;

/// `id_file` of a finalized file.
const FINALIZED: &[u8; 8] = b"MDF     ";

/// Marks a file as finalized: its `id_file`, and both words of flags.
pub(crate) fn mark(bytes: &mut [u8])
    requires { 64 ≤ length bytes.old }
    ensures { bytes.new ≡ marked bytes.old }
{
    bytes[..8].copy_from_slice(FINALIZED);
    put_u32(bytes, 60, 0);
}

/// The greatest address that the data links of these data groups name and at which a DTBLOCK is headed, and 0 for none.
fn last_of(alloc: Global, bytes: &[u8], rows: &[DataRow]) -> Result<u64, Memory>
    requires { 16 ≤ length bytes.now }
    ensures last { IfOk result (λ last. last ≡ last_of bytes.now rows.now) }
    ensures inside { IfOk result (λ last. last + 16 ≤ length bytes.now) }
{
    let mut last = 0;
    for row in rows {
        let names = data_names(alloc, bytes, row.content)?;
        last = last_headed(bytes, names.as_slice(), last);
    }
    Ok(last)
}

/// The same of the data groups of a file, and 0 where these are not found.
fn last_found(alloc: Global, bytes: &[u8]) -> Result<u64, Memory>
    requires { 16 ≤ length bytes.now }
    ensures last { IfOk result (λ last. last ≡ last_by bytes.now (tree bytes.now)) }
    ensures inside { IfOk result (λ last. last + 16 ≤ length bytes.now) }
{
    match tree_in(alloc, &mut SliceSpan::new(bytes)) {
        Ok(tree) => last_of(alloc, bytes, tree.rows.as_slice()),
        Err(Halt::Fault(_)) => Ok(0),
        Err(Halt::Memory) => Err(Memory),
        Err(Halt::Failed) => unreachable!(),
    }
}

/// The same where the length of the last block is to be set, and else 0.
pub(crate) fn last_open(alloc: Global, bytes: &[u8], wanted: bool) -> Result<u64, Memory>
    requires { 16 ≤ length bytes.now }
    ensures last { IfOk result (λ last. last ≡ (if wanted then last_by bytes.now (tree bytes.now) else 0)) }
    ensures inside { IfOk result (λ last. last + 16 ≤ length bytes.now) }
{
    if !wanted {
        return Ok(0);
    }
    last_found(alloc, bytes)
}

/// Sets the length of the block at `at` so that it ends with the file; none where `at` is 0.
pub(crate) fn end_with(bytes: &mut [u8], at: u64)
    requires { at + 16 ≤ length bytes.old }
    ensures { bytes.new ≡ ended_at bytes.old at }
{
    if at == 0 {
        return;
    }
    let size = bytes.len() as u64;
    put_u64(bytes, at as usize + 8, size - at);
}
