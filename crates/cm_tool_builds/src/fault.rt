//! Why there is no function of the keys of a pass.
ghost use Rattle.std.specs.Prelude.{◌≡◌};
ghost use Rattle.cm_tool_builds.specs.Faults.{fault_from_build, fault_from_brz};

use cm_algo::BuildFault;
use cm_brz::BrzFault;
use cm_io::KeyFault;
use cm_witness_gather::{Certificate, Pair};

/// Why there is no function of the keys of a pass.
#[derive(Drop)]
pub enum FuncFault {
    /// Out of memory.
    Memory,
    /// There are no keys.
    NoKeys,
    /// No seed works, or by BRZ none for some bucket: this is the 2-core under the first.
    Cored(Certificate),
    /// By BRZ: every seed leaves a bucket with more keys than one may have. Under the first seed this is the lowest such bucket,
    /// from 0, with its number of keys and the equal ones among them.
    Overfull {
        seed: u32,
        bucket: u32,
        count: u32,
        equal: Vec<Pair>,
    },
    /// A pass over the keys failed.
    Key(KeyFault),
    /// A later pass yielded another number of keys, in all or by BRZ for one bucket: `first` keys were counted first, and `now` keys now.
    Changed {
        first: u32,
        now: u32,
    },
    /// By BRZ: the spill can't be made, written or read.
    Spill,
    /// By BRZ: what was read from the spill is not what was put into it: an offset in bytes, and the expected and the found number.
    SpillDamaged {
        offset: u64,
        expected: u64,
        found: u64,
    },
}

impl From<BuildFault> for FuncFault {
    ghost from_gives = { λ f e. e ≡ fault_from_build f };

    fn from(fault: BuildFault) -> Self {
        match fault {
            BuildFault::Memory => FuncFault::Memory,
            BuildFault::NoKeys => FuncFault::NoKeys,
            BuildFault::Cored(certificate) => FuncFault::Cored(certificate),
            BuildFault::Key(fault) => FuncFault::Key(fault),
            BuildFault::Changed { first, now } => FuncFault::Changed { first, now },
        }
    }
}

/// The fault for a failed build by BRZ.
pub(crate) fn fault_of_brz(fault: BrzFault) -> FuncFault
    ensures fault { result ≡ fault_from_brz fault }
{
    match fault {
        BrzFault::Memory => FuncFault::Memory,
        BrzFault::NoKeys => FuncFault::NoKeys,
        BrzFault::Overfull {
            seed,
            bucket,
            count,
            equal,
        } => FuncFault::Overfull {
            seed,
            bucket,
            count,
            equal,
        },
        BrzFault::Cored(certificate) => FuncFault::Cored(certificate),
        BrzFault::Key(fault) => FuncFault::Key(fault),
        BrzFault::Changed { first, now } => FuncFault::Changed { first, now },
        BrzFault::SpillFailed => FuncFault::Spill,
        BrzFault::SpillDamaged {
            offset,
            expected,
            found,
        } => FuncFault::SpillDamaged {
            offset,
            expected,
            found,
        },
    }
}
