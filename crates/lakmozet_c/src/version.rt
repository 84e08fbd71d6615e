//! Which version of the library this is.
ghost use Rattle.std.specs.Prelude.{◌≡◌};

use crate::plain::Version;

/// Writes the version of the library, 0.1.0. Machines that play in lock step have to have one version.
#[unsafe(no_mangle)]
pub extern "C" fn lak_version(version: &mut Version)
    ensures major { version.new.major ≡ 0 }
    ensures minor { version.new.minor ≡ 1 }
    ensures patch { version.new.patch ≡ 0 }
{
    *version = Version {
        major: 0,
        minor: 1,
        patch: 0,
    };
}
