ghost use Rattle.std.specs.Prelude.{◌≡◌, length};
ghost use Rattle.tool_complete.specs.Settings.{AreFieldsIn, IsFieldIn, set_all, set_one};

use mdf_num::put_u64;

/// A number that is set in a file.
#[derive(Clone, Copy)]
pub(crate) struct Setting {
    /// Where its 8 bytes begin.
    pub at: u64,
    /// The number.
    pub value: u64,
}

/// Sets a number.
pub(crate) fn set_one(bytes: &mut [u8], setting: Setting)
    requires { IsFieldIn (length bytes.old) setting }
    ensures { bytes.new ≡ set_one setting bytes.old }
{
    put_u64(bytes, setting.at as usize, setting.value);
}

/// Sets these numbers, one behind the other.
pub(crate) fn set_all(bytes: &mut [u8], settings: &[Setting])
    requires { AreFieldsIn (length bytes.old) settings.now }
    ensures { bytes.new ≡ set_all settings.now bytes.old }
{
    for setting in settings {
        set_one(bytes, *setting);
    }
}
