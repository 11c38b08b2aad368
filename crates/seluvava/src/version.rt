// The version of the calls, by which a program tells whether the archive that it links is the one of its header.
ghost use Rattle.std.specs.Prelude.{◌≡◌};
ghost use Rattle.seluvava.specs.Version.{version_number};

const MAJOR: u32 = 0;

const MINOR: u32 = 9;

const PATCH: u32 = 0;

// The three numbers of the version as one.
pub fn seluvava_version() -> u32
    ensures { result ≡ version_number }
{
    10000 * MAJOR + 100 * MINOR + PATCH
}
