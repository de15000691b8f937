ghost use Rattle.std.specs.Prelude.{◌≡◌};
ghost use Rattle.mdf_tree.specs.Group.{next_if, value_link, values_behind, values_past};

use mdf_block::Link;
use mdf_group::{ChannelRow, GroupRow};

/// The link to block n, where there is one more of a chain.
pub fn next_if(more: bool, n: u32) -> Link
    ensures { result ≡ next_if more n }
{
    if more { Link::Block(n) } else { Link::Nothing }
}

/// The link to the values of a channel: the first of these where its values are of variable length.
pub(crate) fn value_link(values: &[Link], row: &ChannelRow) -> Link
    ensures { result ≡ value_link values.now row.now }
{
    if !row.is_of_values() || values.is_empty() {
        return Link::Nothing;
    }
    values[0]
}

/// The links to values that are left behind a channel.
pub(crate) fn values_behind<'a>(values: &'a [Link], row: &ChannelRow) -> &'a [Link]
    ensures { result.now ≡ values_behind values.now row.now }
{
    if row.is_of_values() && !values.is_empty() {
        &values[1..]
    } else {
        values
    }
}

/// The links to values that are left behind channels.
#[tactic(auto, unfolding(crate::specs::Group::values_past))]
pub(crate) fn values_past<'a>(values: &'a [Link], rows: &[ChannelRow]) -> &'a [Link]
    ensures { result.now ≡ values_past values.now rows.now }
{
    let mut rest = values;
    for row in rows {
        rest = values_behind(rest, row);
    }
    rest
}
