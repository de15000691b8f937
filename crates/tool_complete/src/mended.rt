ghost use Rattle.std.specs.Prelude.{◌≡◌, ◌≤◌, ◌++◌, [], Some, None, length, if◌then◌else◌, IfOk, IfSome, OnOk};
ghost use Rattle.std.specs.List.{flat_map};
ghost use Rattle.mdf_block.specs.Block.{block};
ghost use Rattle.mdf_format.specs.declared.kind.Kind.TheVariants.{Dt};
ghost use Rattle.mdf_model.specs.Tree.{tree};
ghost use Rattle.tool_complete.specs.Completed.{AreMendedIn, IsCounted, Split, counts_by, counts_if, cut_by, first_cut, mended, or_else, rest_of, row_cut, settings_of};
ghost use Rattle.tool_complete.specs.Settings.{AreFieldsIn, IsFieldIn, set_all};

use crate::cut::Cut;
use crate::setting::{Setting, set_all, set_one};
use crate::split::{Counted, add_counts, counted_of, cut_of};
use mdf_group::DataRow;
use mdf_model::tree_in;
use mdf_num::{Halt, Memory, Rows, SliceSpan};
use std::alloc::Global;

/// What is mended of a file whose last block of data ends with it.
#[derive(Drop)]
pub(crate) struct Mended {
    /// What is cut of that block, where it ends the stream of a data group.
    pub cut: Option<Cut>,
    /// The cycle counts.
    pub counts: Rows<Setting>,
}

/// Nothing is mended.
fn nothing(alloc: Global) -> Mended
    ensures { result ≡ record { cut = None; counts = [] } }
{
    Mended {
        cut: None,
        counts: Rows::empty(alloc),
    }
}

/// Adds the cycle counts of the channel groups of a data group, where they are wanted.
fn add_counts_if(
    settings: &mut Rows<Setting>,
    bytes: &[u8],
    row: &DataRow,
    wanted: bool,
    found: &Counted,
) -> Result<(), Memory>
    requires { length found.now.tally.counts ≡ length row.now.groups }
    ensures added { (split : Split) → IsCounted (length row.now.groups) split found.now
        → OnOk result (settings.new ≡ settings.old ++ (if wanted then counts_by bytes.now row.now (Some split) else [])) }
    ensures inside { AreFieldsIn (length bytes.now) settings.old → OnOk result (AreFieldsIn (length bytes.now) settings.new) }
{
    if !wanted {
        return Ok(());
    }
    let counts = found.tally.counts.as_slice();
    add_counts(settings, bytes, row.groups.as_slice(), counts)
}

/// A cut, or else what is cut of the block at `last` where it ends the stream of a data group.
fn cut_or(
    alloc: Global,
    bytes: &[u8],
    last: u64,
    row: &DataRow,
    found: &Counted,
    cut: Option<Cut>,
) -> Result<Option<Cut>, Memory>
    requires { found.now.tally.whole ≤ found.now.total }
    ensures cut { (split : Split) → IsCounted (length row.now.groups) split found.now
        → IfOk result (λ first. first ≡ or_else cut (cut_by bytes.now last row.now (block bytes.now last Dt) (Some split))) }
    ensures inside { IfSome cut (λ cut. IsFieldIn (length bytes.now) cut.length)
        → IfOk result (λ first. IfSome first (λ cut. IsFieldIn (length bytes.now) cut.length)) }
{
    match cut {
        Some(_) => Ok(cut),
        None => cut_of(alloc, bytes, last, row, found),
    }
}

/// Adds what is mended by the stream of a data group: its cycle counts, where they are wanted; and the cut of the block at `last`,
/// where none was found before.
fn mend_by(
    alloc: Global,
    bytes: &[u8],
    last: u64,
    counted: bool,
    row: &DataRow,
    found: &Counted,
    mended: &mut Mended,
) -> Result<(), Memory>
    requires within { found.now.tally.whole ≤ found.now.total }
    requires all { length found.now.tally.counts ≡ length row.now.groups }
    ensures counts { (split : Split) → IsCounted (length row.now.groups) split found.now
        → OnOk result (mended.new.counts ≡ mended.old.counts ++ (if counted then counts_by bytes.now row.now (Some split) else [])) }
    ensures cut { (split : Split) → IsCounted (length row.now.groups) split found.now
        → OnOk result (mended.new.cut ≡ or_else mended.old.cut (cut_by bytes.now last row.now (block bytes.now last Dt) (Some split))) }
    ensures inside { AreMendedIn (length bytes.now) mended.old → OnOk result (AreMendedIn (length bytes.now) mended.new) }
{
    add_counts_if(&mut mended.counts, bytes, row, counted, found)?;
    mended.cut = cut_or(alloc, bytes, last, row, found, mended.cut)?;
    Ok(())
}

/// Adds what is mended by a data group.
#[tactic(auto, unfolding(crate::specs::Completed::row_cut, crate::specs::Completed::row_counts))]
fn mend_row(
    alloc: Global,
    bytes: &[u8],
    last: u64,
    counted: bool,
    row: &DataRow,
    mended: &mut Mended,
) -> Result<(), Memory>
    ensures counts { OnOk result (mended.new.counts ≡ mended.old.counts ++ counts_if counted bytes.now row.now) }
    ensures cut { OnOk result (mended.new.cut ≡ or_else mended.old.cut (row_cut bytes.now last row.now)) }
    ensures inside { AreMendedIn (length bytes.now) mended.old → OnOk result (AreMendedIn (length bytes.now) mended.new) }
{
    let Some(found) = counted_of(alloc, bytes, row)? else {
        return Ok(());
    };
    mend_by(alloc, bytes, last, counted, row, &found, mended)
}

/// What is mended by these data groups.
fn mended_rows(
    alloc: Global,
    bytes: &[u8],
    last: u64,
    counted: bool,
    rows: &[DataRow],
) -> Result<Mended, Memory>
    ensures counts { IfOk result (λ mended. mended.counts ≡ flat_map (counts_if counted bytes.now) rows.now) }
    ensures cut { IfOk result (λ mended. mended.cut ≡ first_cut bytes.now last rows.now) }
    ensures inside { IfOk result (AreMendedIn (length bytes.now)) }
{
    let mut mended = nothing(alloc);
    for row in rows {
        mend_row(alloc, bytes, last, counted, row, &mut mended)?;
    }
    Ok(mended)
}

/// What is mended of a file whose last block of data, at `last`, ends with it: that block, and the cycle counts where they are
/// wanted; nothing where the data groups are not found.
#[tactic(auto, unfolding(crate::specs::Completed::mended))]
pub(crate) fn mended_of(
    alloc: Global,
    bytes: &[u8],
    last: u64,
    counted: bool,
) -> Result<Mended, Memory>
    ensures mended { IfOk result (λ found. found ≡ mended bytes.now last counted) }
    ensures inside { IfOk result (AreMendedIn (length bytes.now)) }
{
    match tree_in(alloc, &mut SliceSpan::new(bytes)) {
        Ok(tree) => mended_rows(alloc, bytes, last, counted, tree.rows.as_slice()),
        Err(Halt::Fault(_)) => Ok(nothing(alloc)),
        Err(Halt::Memory) => Err(Memory),
        Err(Halt::Failed) => unreachable!(),
    }
}

/// Mends a file.
pub(crate) fn mend(bytes: &mut [u8], mended: &Mended)
    requires { AreMendedIn (length bytes.old) mended.now }
    ensures { bytes.new ≡ set_all (settings_of mended.now) bytes.old }
{
    if let Some(cut) = mended.cut {
        set_one(bytes, cut.length);
    }
    set_all(bytes, mended.counts.as_slice());
}

/// How many bytes of the last block are no whole record.
pub(crate) fn rest_of(cut: Option<Cut>) -> u64
    ensures { result ≡ rest_of cut }
{
    match cut {
        None => 0,
        Some(cut) => cut.rest,
    }
}
