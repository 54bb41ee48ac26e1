//! Why there is no function.
ghost use Rattle.std.specs.Prelude.{◌≡◌};
ghost use Rattle.cm_brz_split.specs.declared.fault.BrzFault.TheVariants as brz_fault;
ghost use Rattle.cm_brz_split.specs.declared.fault.PutFault.TheVariants as put_fault;
ghost use Rattle.cm_brz_split.specs.Faults.{brz_fault_of, put_fault_of, store_fault_of};

use cm_io::{KeyFault, PassFault};
use cm_spill::SpillError;
use cm_witness_gather::{Certificate, Pair};
use std::alloc::AllocError;

/// Why a build by BRZ failed.
#[derive(Drop)]
pub enum BrzFault {
    /// Out of memory.
    Memory,
    /// There are no keys.
    NoKeys,
    /// Every seed of the list leaves a bucket with more keys than one may have. Under the first seed this is the lowest such
    /// bucket, from 0, with its number of keys and the equal ones among them.
    Overfull {
        seed: u32,
        bucket: u32,
        count: u32,
        equal: Vec<Pair>,
    },
    /// In one bucket, the lowest, every seed of the list leaves a 2-core: this is that of the first seed.
    Cored(Certificate),
    /// A pass over the keys failed.
    Key(KeyFault),
    /// A later pass had another number of keys, in all or for one bucket: `first` were counted first, and `now` later.
    Changed {
        first: u32,
        now: u32,
    },
    /// The spill failed.
    SpillFailed,
    /// What was read from the spill is not what was put: an offset in bytes, and the expected and the found number.
    SpillDamaged {
        offset: u64,
        expected: u64,
        found: u64,
    },
}

/// Why a key was not put into a store.
#[derive(Clone, Copy)]
pub(crate) enum PutFault {
    /// The pass over the keys failed.
    Key(KeyFault),
    /// The store failed.
    Store(SpillError),
}

impl From<KeyFault> for PutFault {
    ghost from_gives = { λ f e. e ≡ put_fault.Key f };

    fn from(fault: KeyFault) -> Self {
        PutFault::Key(fault)
    }
}

impl From<SpillError> for PutFault {
    ghost from_gives = { λ f e. e ≡ put_fault.Store f };

    fn from(fault: SpillError) -> Self {
        PutFault::Store(fault)
    }
}

impl From<AllocError> for BrzFault {
    ghost from_gives = { λ _ e. e ≡ brz_fault.Memory };

    fn from(_: AllocError) -> Self {
        BrzFault::Memory
    }
}

impl From<KeyFault> for BrzFault {
    ghost from_gives = { λ f e. e ≡ brz_fault.Key f };

    fn from(fault: KeyFault) -> Self {
        BrzFault::Key(fault)
    }
}

/// Each later pass expects the keys that were counted.
impl From<PassFault> for BrzFault {
    ghost from_gives = { λ f e. e ≡ brz_fault_of f };

    fn from(fault: PassFault) -> Self {
        match fault {
            PassFault::Memory => BrzFault::Memory,
            PassFault::Key(fault) => BrzFault::Key(fault),
            PassFault::Changed { first, now } => BrzFault::Changed { first, now },
        }
    }
}

impl From<SpillError> for BrzFault {
    ghost from_gives = { λ f e. e ≡ store_fault_of f };

    fn from(fault: SpillError) -> Self {
        match fault {
            SpillError::Memory => BrzFault::Memory,
            SpillError::Failed => BrzFault::SpillFailed,
            SpillError::Damaged {
                offset,
                expected,
                found,
            } => BrzFault::SpillDamaged {
                offset,
                expected,
                found,
            },
        }
    }
}

impl From<PutFault> for BrzFault {
    ghost from_gives = { λ f e. e ≡ put_fault_of f };

    fn from(fault: PutFault) -> Self {
        match fault {
            PutFault::Key(fault) => BrzFault::Key(fault),
            PutFault::Store(fault) => fault.into(),
        }
    }
}
