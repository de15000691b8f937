ghost use Rattle.std.specs.Prelude.{◌≡◌, ◌+◌, Some, length, filter, slice_get, IfOk, IfErr};
ghost use Rattle.mdf_model.specs.Kept.{sample_rows, stands_at, wanted_for};
ghost use Rattle.mdf_model.specs.Measurement.{holds_samples};

use mdf_content::Wanted;
use mdf_group::{DataRow, GroupRow};

/// Where the group of this number stands, counted from 0 over those of a data group whose records are samples. Where there is none,
/// what is left of the number behind them.
fn address_in(groups: &[GroupRow], number: u64) -> Result<u64, u64>
    ensures there { IfOk result (λ at. stands_at (slice_get (filter holds_samples groups.now) number) ≡ Some at) }
    ensures none { IfErr result (λ left. number ≡ length (filter holds_samples groups.now) + left) }
{
    let mut left = number;
    for group in groups {
        if !group.is_variable() {
            if left == 0 {
                return Ok(group.at);
            }
            left -= 1;
        }
    }
    Err(left)
}

/// Where the group of this number stands, counted from 0 over those of the file whose records are samples.
fn address_of(rows: &[DataRow], number: u64) -> Option<u64>
    ensures { result ≡ stands_at (slice_get (sample_rows rows.now) number) }
{
    let mut left = number;
    for row in rows {
        match address_in(row.groups.as_slice(), left) {
            Ok(at) => return Some(at),
            Err(rest) => left = rest,
        }
    }
    None
}

/// The places that are wanted of these data groups where the samples of the group of this number are.
pub(crate) fn wanted_for(rows: &[DataRow], number: u64) -> Wanted
    ensures { result ≡ wanted_for number rows.now }
{
    match address_of(rows, number) {
        Some(at) => Wanted::Group { at },
        None => Wanted::Values,
    }
}
