//! Why a split stopped.

/// What kept a split from its end.
#[derive(Clone, Copy, Debug, PartialEq, Eq)]
pub enum SplitStop {
    /// Out of memory.
    Memory,
    /// The keys file can't be opened or read.
    Read,
    /// A file of the folder can't be created, written or synced, or its path leads to the keys file.
    Write,
    /// A line, counted from 1, has more bytes than a key.
    TooLong { line: u64 },
    /// There are more lines than `MAX_LINES`.
    TooMany,
}
