ghost use Rattle.std.specs.Prelude.{◌≡◌, ◌++◌, List, Some, map, slice_get, IfOk, OnOk};
ghost use Rattle.std.specs.List.{flat_map, zip};
ghost use Rattle.mdf_content.specs.declared.found.DataFound.{DataFound};
ghost use Rattle.mdf_group.specs.declared.row.DataRow.{DataRow};
ghost use Rattle.mdf_group.specs.declared.row.GroupRow.{GroupRow};
ghost use Rattle.mdf_paged.specs.Groups.{Located, group_at, groups_in, row_at, rows_in};

use mdf_content::DataFound;
use mdf_group::DataRow;
use mdf_num::Memory;
use std::alloc::Global;

/// The number of a data group, and that of one of its groups.
#[derive(Clone, Copy)]
pub(crate) struct GroupNumber {
    pub(crate) parent: usize,
    pub(crate) group: usize,
}

/// Adds the numbers of the groups of a data group. A group that was found of a row that is not there counts as want of memory.
fn add_numbers(
    index: &mut Vec<GroupNumber>,
    parent: usize,
    data_row: &DataRow,
    one: &DataFound,
) -> Result<(), Memory>
    ensures groups { (found : List DataFound) (before : List Located) → slice_get found parent ≡ Some one.now
        → map (group_at found) index.old.items ≡ map Some before
        → OnOk result (map (group_at found) index.new.items ≡ map Some (before ++ groups_in one.now)) }
    ensures rows { (rows : List DataRow) (found : List DataFound) (before : List GroupRow) → slice_get rows parent ≡ Some data_row.now
        → slice_get found parent ≡ Some one.now → map (row_at rows found) index.old.items ≡ map Some before
        → OnOk result (map (row_at rows found) index.new.items ≡ map Some (before ++ rows_in (data_row.now, one.now))) }
{
    let groups = one.groups.as_slice();
    for group in 0..groups.len() {
        if groups[group].which >= data_row.groups.len() {
            return Err(Memory);
        }
        index.push(GroupNumber { parent, group })?;
    }
    Ok(())
}

/// The numbers of all groups, in order. Data groups that are not as many as their rows count as want of memory.
pub(crate) fn numbers_of(
    alloc: Global,
    rows: &[DataRow],
    found: &[DataFound],
) -> Result<Vec<GroupNumber>, Memory>
    ensures groups { IfOk result (λ index. map (group_at found.now) index.items ≡ map Some (flat_map groups_in found.now)) }
    ensures rows { IfOk result (λ index. map (row_at rows.now found.now) index.items ≡ map Some (flat_map rows_in (zip rows.now found.now))) }
{
    if rows.len() != found.len() {
        return Err(Memory);
    }
    let mut index = Vec::new(alloc);
    for parent in 0..found.len() {
        add_numbers(&mut index, parent, &rows[parent], &found[parent])?;
    }
    Ok(index)
}
