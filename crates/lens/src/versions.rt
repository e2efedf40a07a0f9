//! The archive's version, for callers that are built apart from it.
ghost use Rattle.std.specs.Prelude.{◌≡◌};
ghost use Rattle.lens.specs.Version.{version};

/// The version: 10,000 times its first number, 100 times the second, and the third.
#[unsafe(no_mangle)]
pub extern "C" fn lens_version() -> u64
    ensures { result ≡ version }
{
    100
}
