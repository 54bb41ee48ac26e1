//! Why nothing was made of keys.

use cm_io::KeyFault;
use cm_witness_gather::SeedFailure;

/// Why nothing was made of keys.
#[derive(Drop)]
pub enum Fault<R> {
    /// Out of memory.
    Memory,
    /// There are no keys.
    NoKeys,
    /// The keys are refused, as the report shows.
    Refused {
        failure: SeedFailure,
        report: R,
    },
    /// A pass over the keys failed.
    Key(KeyFault),
    /// The records up to a line, counted from 1, take more bytes than a store may have.
    TooLarge {
        line: u32,
    },
    /// The first pass yielded `first` keys, and a later one `now` keys.
    Changed {
        first: u32,
        now: u32,
    },
    /// The spill can't be made, written or read.
    Spill,
    /// What was read from the spill is not what was put into it: an offset in bytes, and the expected and the found number.
    SpillDamaged {
        offset: u64,
        expected: u64,
        found: u64,
    },
}
