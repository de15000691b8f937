ghost use Rattle.std.specs.Prelude.{◌≡◌, ◌≢◌, ℕ, ◌/◌, ◌<◌, ◌↔◌, length, IsTrue};
ghost use Rattle.mdf_format.specs.Field.{bit_of};

use crate::bit::{is_set, set};

/// Whether the value of a channel is invalid: bit `position` of the invalidation bytes is 1. The position is the
/// channel's `cn_inval_bit_pos`, counted from the lowest bit of the first invalidation byte, so that it lies in the
/// byte `position / 8`.
pub fn is_invalid(bytes: &[u8], position: u32) -> bool
    requires { position / 8 < length bytes.now }
    ensures { IsTrue result ↔ (bit_of bytes.now position ≡ 1) }
{
    is_set(bytes, position as usize)
}

/// Marks the value of a channel as invalid: bit `position` of the invalidation bytes becomes 1. No other bit changes.
pub fn mark_invalid(bytes: &mut [u8], position: u32)
    requires { position / 8 < length bytes.old }
    ensures marked { bit_of bytes.new position ≡ 1 }
    ensures other_bits { (p : ℕ) → p ≢ position → bit_of bytes.new p ≡ bit_of bytes.old p }
    ensures len { length bytes.new ≡ length bytes.old }
{
    set(bytes, position as usize);
}
