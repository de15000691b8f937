ghost use Rattle.std.specs.Prelude.{◌≡◌};
ghost use Rattle.std.specs.List.{list_all};
ghost use Rattle.mdf_model.specs.Measurement.{are_strict};

use mdf_content::{DataContents, DataFound};
use mdf_head::Ident;

/// What is known of a data group, which says whether it is as the standard has it.
pub trait Strict {
    ghost use Rattle.std.specs.Prelude.{◌≡◌, Bool};

    ghost strict: { Self → Bool };

    /// Whether it is as the standard has it.
    fn is_strict(&self) -> bool
        ensures { result ≡ strict self.now };
}

impl Strict for DataContents {
    ghost strict = { λ group. group.strict };

    fn is_strict(&self) -> bool {
        self.strict
    }
}

impl Strict for DataFound {
    ghost strict = { λ group. group.strict };

    fn is_strict(&self) -> bool {
        self.strict
    }
}

/// Whether each data group is as the standard has it.
fn all_strict<T: Strict>(groups: &[T]) -> bool
    ensures { result ≡ list_all T.strict groups.now }
{
    let mut strict = true;
    for group in groups {
        if !group.is_strict() {
            strict = false;
        }
    }
    strict
}

/// Whether a file with this identification and these data groups is as the standard has a finalized one: no flag of an
/// unfinalized file is set, and each data group is as the standard has it.
pub fn are_strict<T: Strict>(ident: Ident, groups: &[T]) -> bool
    ensures { result ≡ are_strict T.strict ident groups.now }
{
    ident.std_flags == 0 && ident.custom_flags == 0 && all_strict(groups)
}
