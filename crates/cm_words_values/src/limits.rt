//! The numbers of options.
ghost use Rattle.std.specs.Prelude.{◌≡◌};

/// The bytes of a megabyte.
pub const MEGABYTE: u32 = 1_048_576;

/// The most seeds that a build tries.
pub const MAX_SEEDS: u32 = 1000;

/// The greatest number of generated keys that a test may have.
pub const MAX_TEST_KEYS: u32 = 16_777_216;

/// The byte that ends a line of a keys file, and one that a query writes, unless `-z` is given: a line feed.
pub const LINE_FEED: u8 = 10;

/// The byte that ends such a line if `-z` is given.
pub const ZERO_BYTE: u8 = 0;

/// The numbers of options, and the bytes that end a line: a line feed, or zero.
pub fn of_options()
    ensures megabyte { MEGABYTE ≡ 1048576 }
    ensures seeds { MAX_SEEDS ≡ 1000 }
    ensures test { MAX_TEST_KEYS ≡ 16777216 }
    ensures feed { LINE_FEED ≡ 10 }
    ensures zero { ZERO_BYTE ≡ 0 }
{}
