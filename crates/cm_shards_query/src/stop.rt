//! Why lines were not all answered.

use cm_shards_files::ShardsFault;

/// What kept lines from their end.
#[derive(Clone, Copy)]
pub enum LinesStop {
    /// The keys file can't be read.
    Read,
    /// Out can't be written.
    Write,
    /// A line, counted from 1, has more bytes than a key.
    TooLong { line: u64 },
    /// There are more lines than are read.
    TooMany,
}

/// What kept a query or a test from its end.
#[derive(Drop)]
pub enum AskStop {
    /// Out of memory, after the functions were loaded.
    Memory,
    /// The functions of the manifest can't be loaded.
    Load(ShardsFault),
    /// The keys file can't be opened or read.
    Read,
    /// Out can't be written.
    Write,
    /// A line, counted from 1, has more bytes than a key.
    TooLong { line: u64 },
    /// There are more lines than are read.
    TooMany,
}
