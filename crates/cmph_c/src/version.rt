//! The version of the library.
ghost use Rattle.std.specs.Prelude.{◌≡◌, ◌+◌, ◌*◌};

/// Version 2.0.0, as `major * 10,000 + minor * 100 + patch`.
pub const VERSION: u32 = 20_000;

/// The version of the library that is linked, as `major * 10,000 + minor * 100 + patch`: 20,000, for 2.0.0. A caller compares it with the
/// `CMPH_C_VERSION` of its header: structs and codes are the same as long as `major` is.
#[unsafe(no_mangle)]
pub extern "C" fn cmph_c_version() -> u32
    ensures version { result ≡ 2 * 10000 + 0 * 100 + 0 }
{
    VERSION
}
