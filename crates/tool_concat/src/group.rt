ghost use Rattle.std.specs.Prelude.{◌↔◌, IsTrue};
ghost use Rattle.tool_concat.specs.Same.{SameChannel, SameChannels, SameGroup, SameNumbers};

use crate::conversion::same_conv;
use crate::text::same_note;
use mdf_group::{ChannelRow, GroupRow};

/// Whether the numbers of two channels are the same.
fn same_numbers(one: &ChannelRow, other: &ChannelRow) -> bool
    ensures { IsTrue result ↔ SameNumbers one.now other.now }
{
    one.kind == other.kind
        && one.sync == other.sync
        && one.data_type == other.data_type
        && one.byte == other.byte
        && one.bit == other.bit
        && one.bits == other.bits
        && one.flags == other.flags
        && one.inval == other.inval
}

/// Whether two channels are the same in all that is compared.
fn same_channel(one: &ChannelRow, other: &ChannelRow) -> bool
    ensures { IsTrue result ↔ SameChannel one.now other.now }
{
    same_numbers(one, other)
        && same_note(&one.name, &other.name)
        && same_note(&one.unit, &other.unit)
        && same_conv(&one.conv, &other.conv)
}

/// Whether channels are the same one by one.
fn same_channels(one: &[ChannelRow], other: &[ChannelRow]) -> bool
    ensures { IsTrue result ↔ SameChannels one.now other.now }
{
    if one.len() != other.len() {
        return false;
    }
    for k in 0..one.len() {
        if !same_channel(&one[k], &other[k]) {
            return false;
        }
    }
    true
}

/// Whether two channel groups are the same in all that is compared.
pub(crate) fn same_group(one: &GroupRow, other: &GroupRow) -> bool
    ensures { IsTrue result ↔ SameGroup one.now other.now }
{
    one.data_bytes == other.data_bytes
        && one.inval_bytes == other.inval_bytes
        && same_note(&one.name, &other.name)
        && same_channels(one.channels.as_slice(), other.channels.as_slice())
}
