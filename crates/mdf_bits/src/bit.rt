// One bit of a record. Bit p is bit p mod 8 of byte p / 8, counted from the lowest.
ghost use Rattle.std.specs.Prelude.{◌≡◌, ◌≢◌, ℕ, ◌/◌, ◌<◌, ◌↔◌, length, IsTrue};
ghost use Rattle.mdf_format.specs.Field.{bit_of};

/// Whether bit `position` is 1.
pub(crate) fn is_set(bytes: &[u8], position: usize) -> bool
    requires { position / 8 < length bytes.now }
    ensures { IsTrue result ↔ (bit_of bytes.now position ≡ 1) }
{
    bytes[position / 8] >> (position % 8) & 1 == 1
}

/// Makes bit `position` 1. No other bit changes.
pub(crate) fn set(bytes: &mut [u8], position: usize)
    requires { position / 8 < length bytes.old }
    ensures set { bit_of bytes.new position ≡ 1 }
    ensures other_bits { (p : ℕ) → p ≢ position → bit_of bytes.new p ≡ bit_of bytes.old p }
    ensures len { length bytes.new ≡ length bytes.old }
{
    bytes[position / 8] |= 1 << (position % 8);
}
