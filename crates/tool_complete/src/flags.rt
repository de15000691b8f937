ghost use Rattle.std.specs.Prelude.{◌≡◌};
ghost use Rattle.tool_complete.specs.Flags.{has_bit};

/// Whether a word says that cycle counts are to be updated.
pub(crate) fn are_counts_open(word: u16) -> bool
    ensures { result ≡ has_bit word 0 }
{
    word % 2 == 1
}

/// Whether a word says that the length of the last DTBLOCK is to be updated.
pub(crate) fn is_length_open(word: u16) -> bool
    ensures { result ≡ has_bit word 2 }
{
    word / 4 % 2 == 1
}
