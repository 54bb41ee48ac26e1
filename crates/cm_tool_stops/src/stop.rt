//! Why a job stopped.

use cm_dump_items::LoadFault;
use cm_witness_gather::SeedFailure;

/// What kept a build from its end.
#[derive(Clone, Copy)]
pub enum Stop {
    /// Out of memory.
    Memory,
    /// The keys file can't be opened, read or rewound.
    Read,
    /// The function file can't be created, written or closed.
    Write,
    /// Out can't be written.
    WriteOut,
    /// The keys have no function. Out got the report.
    Refused(SeedFailure),
    /// The first pass yielded `first` keys, and a later one `now` keys; by BRZ these may be the keys of a bucket.
    Changed {
        first: u32,
        now: u32,
    },
    /// The spill can't be made, written or read.
    Spill,
    /// What was read from the spill is not what was put into it: an offset in bytes, and the expected and the found number.
    SpillDamaged {
        offset: u64,
        expected: u64,
        found: u64,
    },
    /// The keys file has no key.
    NoKeys,
    /// A line, counted from 1, has more bytes than a key.
    TooLong {
        line: u32,
    },
    /// There are more keys than a function may have.
    TooMany,
    /// The records up to a line, counted from 1, take more bytes than a store may have.
    TooLarge {
        line: u32,
    },
}

/// What kept an upgrade from its end.
#[derive(Clone, Copy)]
pub enum UpgradeStop {
    /// Out of memory.
    Memory,
    /// The function file can't be opened or read.
    Read,
    /// The function file is not the dump of a function.
    BadDump { fault: LoadFault },
    /// The function file can't be created, written or closed.
    Write,
}

/// What kept a query from its end.
#[derive(Drop)]
pub enum QueryStop<F> {
    /// Out of memory.
    Memory,
    /// The function file can't be opened or read.
    NoFunction,
    /// The function file has bytes that it can't have.
    BadFile { fault: F },
    /// The keys file can't be opened or read.
    Read,
    /// Out can't be written.
    Write,
    /// A line, counted from 1, has more bytes than a key.
    TooLong { line: u32 },
    /// There are more keys than a query may have.
    TooMany,
}
