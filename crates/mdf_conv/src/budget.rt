ghost use Rattle.std.specs.Prelude.{◌≡◌};
ghost use Rattle.mdf_conv.specs.Left.{with_dropped, link_count};

use crate::limits::Budget;

impl Budget {
    /// The limits of a file, before anything of it is read: 67,108,864 bytes of texts, and 1,048,576 conversions, whose
    /// blocks have 134,217,728 bytes, 128 each on average.
    pub fn of_file() -> Budget
        ensures text { result.text ≡ 67108864 }
        ensures conversions { result.conversions ≡ 1048576 }
        ensures conversion_bytes { result.conversion_bytes ≡ 134217728 }
        ensures dropped { result.dropped ≡ 0 }
    {
        Budget {
            text: 67_108_864,
            conversions: 1_048_576,
            conversion_bytes: 134_217_728,
            dropped: 0,
        }
    }

    /// So many links more were passed over.
    pub fn with_dropped(self, links: u64) -> Budget
        ensures { result ≡ with_dropped links self }
    {
        Budget {
            dropped: self.dropped.saturating_add(links),
            ..self
        }
    }
}

/// How many links that name something this one is: none where it is 0, else one.
pub fn link_count(link: u64) -> u64
    ensures { result ≡ link_count link }
{
    if link == 0 { 0 } else { 1 }
}
