//! Why a report was not judged.
ghost use Rattle.std.specs.Prelude.{◌≡◌};
ghost use Rattle.cm_judge_reports.specs.Faults.{judge_fault_of};
ghost use Rattle.cm_judge_reports.specs.declared.fault.JudgeFault.TheVariants as judge_fault;

use cm_io::{KeyFault, PassFault};
use std::alloc::AllocError;

/// Why a report was not judged.
#[derive(Clone, Copy, Debug, PartialEq, Eq)]
pub enum JudgeFault {
    /// Out of memory.
    Memory,
    /// There are no keys.
    NoKeys,
    /// A pass over the keys failed.
    Key(KeyFault),
    /// Two passes have different numbers of keys, in all or of a bucket: the first pass had `first`, and a later one `now`, where it stops
    /// if these are more.
    Changed { first: u32, now: u32 },
}

impl From<AllocError> for JudgeFault {
    ghost from_gives = { λ _ e. e ≡ judge_fault.Memory };

    fn from(_: AllocError) -> Self {
        JudgeFault::Memory
    }
}

impl From<KeyFault> for JudgeFault {
    ghost from_gives = { λ f e. e ≡ judge_fault.Key f };

    fn from(fault: KeyFault) -> Self {
        JudgeFault::Key(fault)
    }
}

/// Each later pass expects the keys that the first one counted.
impl From<PassFault> for JudgeFault {
    ghost from_gives = { λ f e. e ≡ judge_fault_of f };

    fn from(fault: PassFault) -> Self {
        match fault {
            PassFault::Memory => JudgeFault::Memory,
            PassFault::Key(fault) => JudgeFault::Key(fault),
            PassFault::Changed { first, now } => JudgeFault::Changed { first, now },
        }
    }
}
