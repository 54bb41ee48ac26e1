//! What is shown of keys that have no function.
ghost use Rattle.std.specs.Prelude.{◌≡◌};
ghost use Rattle.cm_tool_builds.specs.Faults.{seed_failure_of};
ghost use Rattle.cm_tool.specs.Building.{fault_from};

use cm_brz::write_overfull;
use cm_io::{Failed, Sink};
use cm_tool_building::{Fault, Saved};
use cm_tool_builds::FuncFault;
use cm_witness_gather::{Certificate, Pair, SeedFailure};

/// The report on keys that have no function.
#[derive(Drop)]
pub(crate) enum FuncReport {
    /// The 2-core under the first seed, of all keys or of those of a bucket.
    Core(Certificate),
    /// The lowest bucket with too many keys under the first seed of the split, with its number of keys and the equal ones among them.
    Overfull {
        seed: u32,
        bucket: u32,
        count: u32,
        equal: Vec<Pair>,
    },
}

impl Saved for FuncReport {
    ghost use Rattle.cm_tool.specs.Building.{report_bytes};

    ghost bytes = { report_bytes };

    fn save<O: Sink>(&self, out: &mut O) -> Result<(), Failed> {
        match self {
            FuncReport::Core(certificate) => certificate.write(out),
            FuncReport::Overfull {
                seed,
                bucket,
                count,
                equal,
            } => write_overfull(*seed, *bucket, *count, equal, out),
        }
    }
}

/// What a certificate shows: no seed works for the keys, or for those of its bucket.
fn seed_failure_for(certificate: &Certificate) -> SeedFailure
    ensures failure { result ≡ seed_failure_of certificate.now.place }
{
    match certificate.place {
        None => SeedFailure::NoSeed,
        Some(place) => SeedFailure::NoSeedFor {
            bucket: place.bucket,
        },
    }
}

/// A fault of a build, for the driver.
pub(crate) fn fault_of(fault: FuncFault) -> Fault<FuncReport>
    ensures fault { result ≡ fault_from fault }
{
    match fault {
        FuncFault::Memory => Fault::Memory,
        FuncFault::NoKeys => Fault::NoKeys,
        FuncFault::Cored(certificate) => Fault::Refused {
            failure: seed_failure_for(&certificate),
            report: FuncReport::Core(certificate),
        },
        FuncFault::Overfull {
            seed,
            bucket,
            count,
            equal,
        } => Fault::Refused {
            failure: SeedFailure::NoSplit,
            report: FuncReport::Overfull {
                seed,
                bucket,
                count,
                equal,
            },
        },
        FuncFault::Key(fault) => Fault::Key(fault),
        FuncFault::Changed { first, now } => Fault::Changed { first, now },
        FuncFault::Spill => Fault::Spill,
        FuncFault::SpillDamaged {
            offset,
            expected,
            found,
        } => Fault::SpillDamaged {
            offset,
            expected,
            found,
        },
    }
}
