//! Why a query failed.
use cm_io::KeyFault;

/// Why a query stopped before the end of its keys.
#[derive(Clone, Copy, Debug, PartialEq, Eq)]
pub enum QueryFault {
    /// Out of memory for the marks, before the first key.
    Memory,
    /// The pass over the keys failed.
    Key(KeyFault),
    /// Out failed.
    Write,
}
