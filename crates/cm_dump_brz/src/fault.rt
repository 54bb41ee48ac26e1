//! Why the bytes of a dump are no function in place.

use cm_dump_items::LoadFault;
use thiserror::Error;

/// Why no function was opened in the bytes of a dump.
#[derive(Clone, Copy, Debug, PartialEq, Eq, Error)]
pub enum OpenFault {
    /// The first fault of the bytes, as loading them gives it. It is neither `Memory` nor `Read`.
    #[error("{0}")]
    Dump(LoadFault),
    /// The header is right and names BRZ, and the index has too little room: it needs this many numbers, one for each bucket. The bytes after
    /// the header are not read.
    #[error("the index needs {needed} numbers")]
    Room { needed: u32 },
}
