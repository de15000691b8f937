ghost use Rattle.std.specs.Prelude.{◌<◌, ◌↔◌, IfNone, IfSome, IsTrue, length};
ghost use Rattle.tool_concat.specs.Difference.{AreAlike, IsFirstDifference, SameAt};

use crate::group::same_group;
use mdf_model::Measurement;

/// Whether a group of both is the same.
fn same_at(first: &Measurement, second: &Measurement, group: u32) -> bool
    requires first { group < length first.now.groups }
    requires second { group < length second.now.groups }
    ensures { IsTrue result ↔ SameAt first.now.groups second.now.groups group }
{
    same_group(&first.part(group).row, &second.part(group).row)
}

/// The first group that differs, or the smaller number of groups where the numbers differ.
pub(crate) fn first_difference(first: &Measurement, second: &Measurement) -> Option<u32>
    ensures differs { IfSome result (IsFirstDifference first.now.groups second.now.groups) }
    ensures alike { IfNone result (AreAlike first.now.groups second.now.groups) }
{
    let groups = first.groups();
    let others = second.groups();
    let both = groups.min(others);
    for group in 0..both {
        if !same_at(first, second, group) {
            return Some(group);
        }
    }
    if groups == others { None } else { Some(both) }
}
