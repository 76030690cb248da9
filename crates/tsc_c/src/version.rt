//! Which version the library is of.

ghost use Rattle.std.specs.Prelude.{◌≡◌};

/// The version, a million for each major number, a thousand for each minor one, and the patch:
/// 0.1.0.
#[unsafe(no_mangle)]
pub extern "C" fn tsc_version() -> u32
    ensures version { result ≡ 1000 }
{
    1_000
}
