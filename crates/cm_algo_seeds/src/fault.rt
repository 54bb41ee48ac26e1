//! Why a build failed.
ghost use Rattle.std.specs.Prelude.{◌≡◌};
ghost use Rattle.cm_algo_seeds.specs.declared.fault.BuildFault.TheVariants as build_fault;
ghost use Rattle.cm_algo_seeds.specs.Fails.{build_fault_of};

use cm_io::{KeyFault, PassFault};
use cm_witness_gather::Certificate;

/// Why there is no function.
#[derive(Drop)]
pub enum BuildFault {
    /// Out of memory.
    Memory,
    /// The first pass had no key.
    NoKeys,
    /// Under every seed the graph has a 2-core with an edge; this is that of the first seed.
    Cored(Certificate),
    /// A pass over the keys failed.
    Key(KeyFault),
    /// The first pass had `first` keys, and a later one `now`: all of its keys if they are fewer, else one more than `first`, where it
    /// stops.
    Changed { first: u32, now: u32 },
}

impl From<KeyFault> for BuildFault {
    ghost from_gives = { λ f e. e ≡ build_fault.Key f };

    fn from(fault: KeyFault) -> Self {
        BuildFault::Key(fault)
    }
}

/// Each later pass expects the keys that the first one counted.
impl From<PassFault> for BuildFault {
    ghost from_gives = { λ f e. e ≡ build_fault_of f };

    fn from(fault: PassFault) -> Self {
        match fault {
            PassFault::Memory => BuildFault::Memory,
            PassFault::Key(fault) => BuildFault::Key(fault),
            PassFault::Changed { first, now } => BuildFault::Changed { first, now },
        }
    }
}
