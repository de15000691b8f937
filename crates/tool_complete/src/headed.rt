ghost use Rattle.std.specs.Prelude.{◌≡◌, ◌+◌, ◌≤◌, IsTrue, nat_le, length, max, filter, if◌then◌else◌};
ghost use Rattle.mdf_format.specs.Block.{header_size, links_at};
ghost use Rattle.mdf_format.specs.declared.kind.Kind.TheVariants.{Dt};
ghost use Rattle.mdf_block.specs.Block.{is_named};
ghost use Rattle.tool_complete.specs.Named.{greatest, is_headed};

use mdf_block::{Kind, is_named_in};
use mdf_num::{SliceSpan, u64_at};

/// Whether the first four bytes of a DTBLOCK stand at `at`.
fn is_named(bytes: &[u8], at: u64) -> bool
    ensures { result ≡ is_named bytes.now at Dt }
{
    match is_named_in(&mut SliceSpan::new(bytes), at, Kind::Dt) {
        Ok(named) => named,
        Err(_) => unreachable!(),
    }
}

/// Whether a header at `at` with the links that it says lies inside.
fn has_header(bytes: &[u8], at: u64) -> bool
    ensures inside { IsTrue result → at + 24 ≤ length bytes.now }
    ensures header { result ≡ nat_le (at + header_size (links_at bytes.now at)) (length bytes.now) }
{
    let size = bytes.len() as u64;
    if at > size || size - at < 24 {
        return false;
    }
    let links = u64_at(bytes, at + 16).unwrap_or(0);
    links <= (size - at - 24) / 8
}

/// Whether the header of a DTBLOCK with its links stands at `at`, whatever length it says.
fn is_headed(bytes: &[u8], at: u64) -> bool
    ensures headed { result ≡ is_headed bytes.now at }
    ensures inside { IsTrue result → at + 24 ≤ length bytes.now }
{
    at % 8 == 0 && is_named(bytes, at) && has_header(bytes, at)
}

/// The greater of two addresses, if a DTBLOCK is headed at the first, and else the second.
fn later(bytes: &[u8], at: u64, last: u64) -> u64
    requires { last + 16 ≤ length bytes.now }
    ensures inside { result + 16 ≤ length bytes.now }
    ensures later { result ≡ (if is_headed bytes.now at then max last at else last) }
{
    if is_headed(bytes, at) {
        last.max(at)
    } else {
        last
    }
}

/// The greatest of these addresses at which a DTBLOCK is headed, and of another one.
pub(crate) fn last_headed(bytes: &[u8], names: &[u64], last: u64) -> u64
    requires { last + 16 ≤ length bytes.now }
    ensures inside { result + 16 ≤ length bytes.now }
    ensures last { result ≡ max last (greatest (filter (is_headed bytes.now) names.now)) }
{
    let mut last = last;
    for name in names {
        last = later(bytes, *name, last);
    }
    last
}
