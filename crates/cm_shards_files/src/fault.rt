//! Why the functions of a manifest were not loaded.

use cm_dump_items::LoadFault;
use cm_shards_manifest::ManifestFault;
use cm_words_arguments::Text;

/// Why the functions of a manifest were not loaded. A path is that of a function file, as it was opened.
#[derive(Drop)]
pub enum ShardsFault {
    /// Out of memory.
    Memory,
    /// The manifest can't be opened or read.
    NoManifest,
    /// The bytes of the manifest are none: their first fault.
    BadManifest { fault: ManifestFault },
    /// A function file can't be opened or read.
    NoFunction { path: Text },
    /// The bytes of a function file spell no function: their first fault.
    BadFunction { path: Text, fault: LoadFault },
    /// A function file is not the one that the manifest speaks of: its algorithm, its number of keys, its span, its length or its digest
    /// differs.
    Another { path: Text },
}
