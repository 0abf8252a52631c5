// The call for C that says the library's version. include/isdb.h declares it; compare/install.sh tests that the header and the bench say the same version.
#![tactic(auto)]

ghost use Rattle.std.specs.Prelude.{◌≡◌, ◌+◌, ◌*◌};
ghost use Rattle.c_version.specs.Version.{major, minor, patch};

pub const MAJOR: u32 = 1;

pub const MINOR: u32 = 0;

pub const PATCH: u32 = 0;

// The version as one number, two decimal digits each for the second and the third.
#[unsafe(no_mangle)]
pub extern "C" fn isdb_version() -> u32
    ensures { result ≡ 10000 * major + 100 * minor + patch }
{
    10000 * MAJOR + 100 * MINOR + PATCH
}
