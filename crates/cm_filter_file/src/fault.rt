//! Why bytes are no filter file.
ghost use Rattle.std.specs.Prelude.{◌≡◌};
ghost use Rattle.cm_filter_file.specs.FilterFiles.{fault_named};
ghost use Rattle.cm_filter_file.specs.Loads.{IsReadFault};

use cm_dump_items::LoadFault;
use thiserror::Error;

/// Why no filter was loaded from a source: the first fault of its bytes. Places are counted in bytes from the start, from 0.
#[derive(Clone, Copy, Debug, PartialEq, Eq, Error)]
pub enum FilterFault {
    /// Out of memory.
    #[error("out of memory")]
    Memory,
    /// The source failed.
    #[error("cannot read")]
    Read,
    /// An item is cut off: the bytes end at this place, which is their number.
    #[error("truncated at {at}")]
    Truncated { at: u64 },
    /// The bytes don't begin as a filter file does.
    #[error("bad magic")]
    BadMagic,
    /// The field that begins here is out of its range.
    #[error("bad field at {at}")]
    BadField { at: u64 },
    /// The last byte of the cells, here, has padding that isn't zero.
    #[error("bad padding at {at}")]
    BadPadding { at: u64 },
    /// Bytes follow the filter.
    #[error("trailing bytes")]
    Trailing,
}

/// The fault of an item of a filter file, as a fault of the file.
pub(crate) fn named(fault: LoadFault) -> FilterFault
    requires kind { IsReadFault fault }
    ensures { result ≡ fault_named fault }
{
    match fault {
        LoadFault::Memory => FilterFault::Memory,
        LoadFault::Read => FilterFault::Read,
        LoadFault::Truncated { at } => FilterFault::Truncated { at },
        LoadFault::BadMagic => FilterFault::BadMagic,
        LoadFault::BadField { at } => FilterFault::BadField { at },
        LoadFault::BadPadding { at } => FilterFault::BadPadding { at },
        LoadFault::Trailing => FilterFault::Trailing,
        LoadFault::BadAlgorithm => unreachable!(),
        LoadFault::BadCell { at: _ } => unreachable!(),
        LoadFault::BadCount { at: _ } => unreachable!(),
        LoadFault::BadRank { at: _ } => unreachable!(),
    }
}
