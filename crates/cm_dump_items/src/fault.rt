//! Why bytes are no dump.

use thiserror::Error;

/// Why no function was loaded from a source: the first fault of its bytes. Places are counted in bytes from the start, from 0.
#[derive(Clone, Copy, Debug, PartialEq, Eq, Error)]
pub enum LoadFault {
    /// Out of memory.
    #[error("out of memory")]
    Memory,
    /// The source failed.
    #[error("cannot read")]
    Read,
    /// An item is cut off: the bytes end at this place, which is their number.
    #[error("truncated at {at}")]
    Truncated { at: u64 },
    /// The bytes don't begin as a dump does.
    #[error("bad magic")]
    BadMagic,
    /// No algorithm that is known here has this number.
    #[error("bad algorithm")]
    BadAlgorithm,
    /// The field that begins here is out of its range.
    #[error("bad field at {at}")]
    BadField { at: u64 },
    /// The last byte of an image, here, has padding that isn't zero.
    #[error("bad padding at {at}")]
    BadPadding { at: u64 },
    /// The cell whose lowest bit or digit this byte holds isn't below the bound.
    #[error("bad cell at {at}")]
    BadCell { at: u64 },
    /// A number that is counted here differs from the one that was stated.
    #[error("bad count at {at}")]
    BadCount { at: u64 },
    /// The rank that begins here differs from the plain count.
    #[error("bad rank at {at}")]
    BadRank { at: u64 },
    /// Bytes follow the dump.
    #[error("trailing bytes")]
    Trailing,
}
