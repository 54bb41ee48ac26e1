//! The kinds of calls that can be made to fail in a disk in memory.

/// A kind of call. The first six are a disk's own; the others are those of each reader, writer and spill that it makes.
#[derive(Clone, Copy, Debug, PartialEq, Eq)]
pub enum DiskCall {
    /// `open` of the disk.
    Open,
    /// `create` of the disk.
    Create,
    /// `close` of the disk.
    Close,
    /// `append` of the disk, to a file.
    Extend,
    /// `check_distinct` of the disk.
    CheckDistinct,
    /// `spill` of the disk.
    Spill,
    /// `read` of a reader.
    Read,
    /// `rewind` of a reader.
    Rewind,
    /// `write` of a writer.
    Write,
    /// `append` of a spill.
    Append,
    /// `read_at` of a spill.
    ReadAt,
}
