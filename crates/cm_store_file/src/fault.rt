//! Why bytes are no store file.
ghost use Rattle.std.specs.Prelude.{◌≡◌};
ghost use Rattle.cm_store_file.specs.Steps.{fault_named};

use cm_dump_items::LoadFault;
use thiserror::Error;

/// Why no store was loaded from a source: the first fault of its bytes. Offsets are counted in bytes, from 0.
#[derive(Clone, Copy, Debug, PartialEq, Eq, Error)]
pub enum StoreLoad {
    /// Out of memory.
    #[error("out of memory")]
    Memory,
    /// The source failed.
    #[error("cannot read")]
    Read,
    /// An item is cut off: the bytes end at this offset, which is their number.
    #[error("truncated at {at}")]
    Truncated { at: u64 },
    /// The bytes don't begin as a store file does.
    #[error("bad magic")]
    BadMagic,
    /// The field that begins at this offset is out of its range.
    #[error("bad field at {at}")]
    BadField { at: u64 },
    /// The index is no dump of a function by BDZ.
    #[error("bad index")]
    BadIndex,
    /// The place of this number, counted from 0, isn't below the number of bytes of the records.
    #[error("bad place {place}")]
    BadPlace { place: u32 },
    /// Something is wrong with the records at this offset among their bytes: one isn't whole or is missing, or its place is elsewhere, or
    /// bytes follow the last.
    #[error("bad record at {at}")]
    BadRecord { at: u64 },
    /// Bytes follow the store.
    #[error("trailing bytes")]
    Trailing,
}

/// The fault of an item, as a fault of the file. Those that no item of a store file has are the index's.
pub(crate) fn named(fault: LoadFault) -> StoreLoad
    ensures { result ≡ fault_named fault }
{
    match fault {
        LoadFault::Memory => StoreLoad::Memory,
        LoadFault::Read => StoreLoad::Read,
        LoadFault::Truncated { at } => StoreLoad::Truncated { at },
        LoadFault::BadMagic => StoreLoad::BadMagic,
        LoadFault::BadField { at } => StoreLoad::BadField { at },
        LoadFault::Trailing => StoreLoad::Trailing,
        LoadFault::BadAlgorithm => StoreLoad::BadIndex,
        LoadFault::BadPadding { at: _ } => StoreLoad::BadIndex,
        LoadFault::BadCell { at: _ } => StoreLoad::BadIndex,
        LoadFault::BadCount { at: _ } => StoreLoad::BadIndex,
        LoadFault::BadRank { at: _ } => StoreLoad::BadIndex,
    }
}
