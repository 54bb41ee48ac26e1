//! Why bytes are no manifest.
ghost use Rattle.std.specs.Prelude.{◌≡◌};
ghost use Rattle.cm_shards_manifest.specs.Loads.{unread_named};

use cm_dump_items::LoadFault;
use thiserror::Error;

/// Why bytes are no manifest: their first fault. Offsets are counted in bytes, from 0.
#[derive(Clone, Copy, Debug, PartialEq, Eq, Error)]
pub enum ManifestFault {
    /// An item is cut off: the bytes end at this offset, which is their number.
    #[error("truncated at {at}")]
    Truncated { at: u64 },
    /// The bytes don't begin as a manifest does.
    #[error("bad magic")]
    BadMagic,
    /// The field that begins at this offset is out of its range, or a name that begins there isn't UTF-8.
    #[error("bad field at {at}")]
    BadField { at: u64 },
    /// The digest that begins at this offset isn't that of the bytes before it.
    #[error("bad digest at {at}")]
    BadDigest { at: u64 },
    /// Bytes follow the manifest.
    #[error("trailing bytes")]
    Trailing,
}

/// Why no manifest was read.
#[derive(Clone, Copy, Debug, PartialEq, Eq, Error)]
pub enum ManifestUnread {
    /// Out of memory.
    #[error("out of memory")]
    Memory,
    /// The bytes are no manifest.
    #[error("{0}")]
    Bad(ManifestFault),
}

/// Why no manifest was read, by the fault of an item. The last of them are faults of no item of a manifest.
pub(crate) fn named(fault: LoadFault) -> ManifestUnread
    ensures { result ≡ unread_named fault }
{
    match fault {
        LoadFault::Truncated { at } => ManifestUnread::Bad(ManifestFault::Truncated { at }),
        LoadFault::BadMagic => ManifestUnread::Bad(ManifestFault::BadMagic),
        LoadFault::BadField { at } => ManifestUnread::Bad(ManifestFault::BadField { at }),
        LoadFault::Trailing => ManifestUnread::Bad(ManifestFault::Trailing),
        LoadFault::Memory | LoadFault::Read => ManifestUnread::Memory,
        LoadFault::BadAlgorithm => ManifestUnread::Bad(ManifestFault::BadMagic),
        LoadFault::BadPadding { at: _ } => ManifestUnread::Bad(ManifestFault::BadMagic),
        LoadFault::BadCell { at: _ } => ManifestUnread::Bad(ManifestFault::BadMagic),
        LoadFault::BadCount { at: _ } => ManifestUnread::Bad(ManifestFault::BadMagic),
        LoadFault::BadRank { at: _ } => ManifestUnread::Bad(ManifestFault::BadMagic),
    }
}
