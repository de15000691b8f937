ghost use Rattle.std.specs.Prelude.{◌≡◌, ◌+◌, ◌≤◌, length};
ghost use Rattle.mdf_format.specs.Number.{le_number, bytes_at};

use mdf_num::{u16_at, u32_at, u64_at};

/// The number in the 2 bytes of a body from `at` on.
pub fn u16_field(body: &[u8], at: u64) -> u16
    requires { at + 2 ≤ length body.now }
    ensures { result ≡ le_number (bytes_at 2 body.now at) }
{
    u16_at(body, at).unwrap_or(0)
}

/// The number in the 4 bytes of a body from `at` on.
pub fn u32_field(body: &[u8], at: u64) -> u32
    requires { at + 4 ≤ length body.now }
    ensures { result ≡ le_number (bytes_at 4 body.now at) }
{
    u32_at(body, at).unwrap_or(0)
}

/// The number in the 8 bytes of a body from `at` on.
pub fn u64_field(body: &[u8], at: u64) -> u64
    requires { at + 8 ≤ length body.now }
    ensures { result ≡ le_number (bytes_at 8 body.now at) }
{
    u64_at(body, at).unwrap_or(0)
}
