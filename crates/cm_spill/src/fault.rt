//! Why a store of records in a spill cannot go on.
ghost use Rattle.std.specs.Prelude.{◌≡◌};
ghost use Rattle.cm_spill.specs.declared.fault.SpillError.TheVariants.{Memory, Failed as SpillFailed};

use cm_io::Failed;
use std::alloc::{AllocError, AllocFailed};
use thiserror::Error;

/// Why a store can't go on. Offsets are in bytes from 0.
#[derive(Clone, Copy, Debug, PartialEq, Eq, Error)]
pub enum SpillError {
    /// Out of memory.
    #[error("out of memory")]
    Memory,
    /// The spill failed.
    #[error("the spill failed")]
    Failed,
    /// The record at this offset isn't one that was appended: the number `expected` was expected, and `found` was found.
    #[error("the spill is damaged at {offset}: {found} in place of {expected}")]
    Damaged {
        offset: u64,
        expected: u64,
        found: u64,
    },
}

impl From<AllocError> for SpillError {
    ghost from_gives = { λ _ e. e ≡ Memory };

    fn from(_: AllocError) -> Self {
        SpillError::Memory
    }
}

impl<T: Drop> From<AllocFailed<T>> for SpillError {
    ghost from_gives = { λ _ e. e ≡ Memory };

    fn from(_: AllocFailed<T>) -> Self {
        SpillError::Memory
    }
}

impl From<Failed> for SpillError {
    ghost from_gives = { λ _ e. e ≡ SpillFailed };

    fn from(_: Failed) -> Self {
        SpillError::Failed
    }
}
