//! The versions of the dump, and what they differ in.
ghost use Rattle.std.specs.Prelude.{◌≡◌, ◌+◌};
ghost use Rattle.std.specs.Int.{byte_len};
ghost use Rattle.cm_dump.specs.Forms.{form_of};

use cm_io::MAX_KEYS;

/// A version of the dump. Version 2 is what is written; both are read.
#[derive(Clone, Copy, Debug, PartialEq, Eq)]
pub enum Version {
    /// `CMPHDMP1`: at most 16,777,216 keys, and by BRZ at most 175 keys a bucket on average and 255 in each.
    One,
    /// `CMPHDMP2`: all functions, so at most `MAX_KEYS` keys, and by BRZ at most `MAX_WIDTH` keys a bucket on average and `MAX_BUCKET`
    /// in each.
    Two,
}

/// The most keys of a function in a version.
pub(crate) fn most_keys(version: Version) -> u32
    ensures { result ≡ (form_of version).most_keys }
{
    match version {
        Version::One => 16_777_216,
        Version::Two => MAX_KEYS,
    }
}

/// How many bytes the number of keys of a bucket has in a version.
pub fn size_len(version: Version) -> u64
    ensures { result ≡ byte_len (form_of version).size }
{
    match version {
        Version::One => 1,
        Version::Two => 2,
    }
}

/// How many bytes a bucket has before its cells in a version: its number of keys, and its seed.
pub fn front_len(version: Version) -> u64
    ensures { result ≡ byte_len (form_of version).size + 4 }
{
    size_len(version) + 4
}
