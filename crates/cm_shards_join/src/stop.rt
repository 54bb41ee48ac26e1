//! Why functions are not joined.

use cm_dump_items::LoadFault;
use cm_words_arguments::Text;

/// Why there is no manifest.
#[derive(Drop)]
pub enum JoinStop {
    /// Out of memory.
    Memory,
    /// The file of a path can't be opened or read.
    Read { path: Text },
    /// The path of a function file is no name in a manifest: it has no byte, or too many.
    BadName { path: Text },
    /// The bytes of a function file are no dump of a function.
    BadDump { path: Text, fault: LoadFault },
    /// The function of a file is by another algorithm than the first.
    Another { path: Text },
    /// The text of the counts differs from that of the keys of the functions at a line, counted from 1.
    BadCounts { path: Text, line: u64 },
    /// The manifest can't be created, written or synced, or its path leads to a file that is read.
    Write,
}
