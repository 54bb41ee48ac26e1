//! How calls to the outside fail.
ghost use Rattle.std.specs.Prelude.{◌≡◌};
ghost use Rattle.cm_io.specs.declared.fault.DiskFault.TheVariants.{Memory, Failed as DiskFailed};

use std::alloc::{AllocError, AllocFailed};

/// A source, a sink or a spill failed.
#[derive(Clone, Copy, Debug, PartialEq, Eq)]
pub struct Failed;

/// Why a disk returned no reader, writer or spill.
#[derive(Clone, Copy, Debug, PartialEq, Eq)]
pub enum DiskFault {
    /// Out of memory.
    Memory,
    /// The disk failed.
    Failed,
}

impl From<AllocError> for DiskFault {
    ghost from_gives = { λ _ e. e ≡ Memory };

    fn from(_: AllocError) -> Self {
        DiskFault::Memory
    }
}

impl<T: Drop> From<AllocFailed<T>> for DiskFault {
    ghost from_gives = { λ _ e. e ≡ Memory };

    fn from(_: AllocFailed<T>) -> Self {
        DiskFault::Memory
    }
}

impl From<Failed> for DiskFault {
    ghost from_gives = { λ _ e. e ≡ DiskFailed };

    fn from(_: Failed) -> Self {
        DiskFault::Failed
    }
}
