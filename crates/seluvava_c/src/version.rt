// The version of the calls, by which a program tells whether the archive that it links is the one of its header.
ghost use Rattle.std.specs.Prelude.{◌≡◌};
ghost use Rattle.seluvava.specs.Version.{version_number};

// The three numbers of the version as one.
#[unsafe(no_mangle)]
pub extern "C" fn seluvava_version() -> u32
    ensures { result ≡ version_number }
{
    seluvava::version::seluvava_version()
}
