ghost use Rattle.std.specs.Prelude.{◌≡◌, ◌+◌, ◌%◌, ◌^◌, ◌≤◌, ◌<◌, ◌↔◌, length, IsTrue};
ghost use Rattle.std.specs.Int.{to_le_bytes, w16, w32, w64};
ghost use Rattle.mdf_format.specs.Number.{le_number, number_at, patched, aligned};

use byteorder::{ByteOrder, LittleEndian};

/// Whether so many bytes from `at` on are there.
fn holds(bytes: &[u8], at: u64, count: u64) -> bool
    ensures { IsTrue result ↔ (at + count ≤ length bytes.now) }
{
    let len = bytes.len() as u64;
    at <= len && count <= len - at
}

/// The number in the 2 bytes from `at` on. None exactly where it would pass the end.
pub fn u16_at(bytes: &[u8], at: u64) -> Option<u16>
    ensures { result ≡ number_at 2 bytes.now at }
{
    if !holds(bytes, at, 2) {
        return None;
    }
    let start = at as usize;
    Some(LittleEndian::read_u16(&bytes[start..start + 2]))
}

/// The number in the 4 bytes from `at` on. None exactly where it would pass the end.
pub fn u32_at(bytes: &[u8], at: u64) -> Option<u32>
    ensures { result ≡ number_at 4 bytes.now at }
{
    if !holds(bytes, at, 4) {
        return None;
    }
    let start = at as usize;
    Some(LittleEndian::read_u32(&bytes[start..start + 4]))
}

/// The number in the 8 bytes from `at` on. None exactly where it would pass the end.
pub fn u64_at(bytes: &[u8], at: u64) -> Option<u64>
    ensures { result ≡ number_at 8 bytes.now at }
{
    if !holds(bytes, at, 8) {
        return None;
    }
    let start = at as usize;
    Some(LittleEndian::read_u64(&bytes[start..start + 8]))
}

/// The number that these bytes are, of which there are 1 to 8. Of 1, 2, 4 and 8 bytes it is read at once.
pub fn number_of(bytes: &[u8]) -> u64
    requires some { 0 < length bytes.now }
    requires most { length bytes.now ≤ 8 }
    ensures number { result ≡ le_number bytes.now }
    ensures fits { result < 256 ^ length bytes.now }
{
    match bytes.len() {
        1 => u64::from(bytes[0]),
        2 => u64::from(LittleEndian::read_u16(bytes)),
        4 => u64::from(LittleEndian::read_u32(bytes)),
        8 => LittleEndian::read_u64(bytes),
        count => LittleEndian::read_uint(bytes, count),
    }
}

/// Whether so many bits hold the number.
pub fn has_bits(number: u64, bits: u32) -> bool
    ensures { IsTrue result ↔ (number < 2 ^ bits) }
{
    bits >= 64 || number < 1 << bits
}

/// Writes a number into the 2 bytes from `at` on.
pub fn put_u16(bytes: &mut [u8], at: usize, value: u16)
    requires { at + 2 ≤ length bytes.old }
    ensures written { bytes.new ≡ patched at (to_le_bytes w16 value) bytes.old }
    ensures reads_back { number_at 2 bytes.new at ≡ Some value }
{
    LittleEndian::write_u16(&mut bytes[at..at + 2], value);
}

/// Writes a number into the 4 bytes from `at` on.
pub fn put_u32(bytes: &mut [u8], at: usize, value: u32)
    requires { at + 4 ≤ length bytes.old }
    ensures written { bytes.new ≡ patched at (to_le_bytes w32 value) bytes.old }
    ensures reads_back { number_at 4 bytes.new at ≡ Some value }
{
    LittleEndian::write_u32(&mut bytes[at..at + 4], value);
}

/// Writes a number into the 8 bytes from `at` on.
pub fn put_u64(bytes: &mut [u8], at: usize, value: u64)
    requires { at + 8 ≤ length bytes.old }
    ensures written { bytes.new ≡ patched at (to_le_bytes w64 value) bytes.old }
    ensures reads_back { number_at 8 bytes.new at ≡ Some value }
{
    LittleEndian::write_u64(&mut bytes[at..at + 8], value);
}

/// The least multiple of 8 that is not below `n`.
pub fn align8(n: u64) -> u64
    requires { n ≤ 2 ^ 63 }
    ensures aligned { result ≡ aligned n }
    ensures multiple { result % 8 ≡ 0 }
    ensures not_below { n ≤ result }
    ensures least { result < n + 8 }
{
    (n + 7) / 8 * 8
}
