//! The store of lines.
ghost use Rattle.std.specs.Prelude.{◌≡◌, ℕ, IfErr, IfOk, IsTrue, Ok};
ghost use Rattle.std.specs.Option.{ForSome};
ghost use Rattle.cm_store_dump.specs.Building.{IsStoreOf, MayStop, fault_from, meaning_of};
ghost use Rattle.cm_store_dump.specs.Making.{HasLineFailure};
ghost use Rattle.cm_store_words.specs.Limits.{IsStoreBuild};
ghost use Rattle.cm_tool_building.specs.Makes.{HasMakeCause, IsAllowedFault, RefusesBy};
ghost use Rattle.cm_tool_cells.specs.Recipes.{report_bytes};

use crate::files::StoreFile;
use cm_io::KeyPass;
use cm_store::{StoreBuildFault, StorePlan, build_store_of_lines};
use cm_store_words::StoreBuild;
use cm_tool_building::Fault;
use cm_tool_cells::{CoreReport, seeds};
use cm_witness_gather::SeedFailure;
use std::alloc::Global;

/// Why there is no store of lines, for the driver.
fn fault_of(fault: StoreBuildFault) -> Fault<CoreReport>
    ensures fault { result ≡ fault_from fault }
{
    match fault {
        StoreBuildFault::Memory => Fault::Memory,
        StoreBuildFault::NoKeys => Fault::NoKeys,
        StoreBuildFault::Cored(certificate) => Fault::Refused {
            failure: SeedFailure::NoSeed,
            report: CoreReport { certificate },
        },
        StoreBuildFault::Key(fault) => Fault::Key(fault),
        StoreBuildFault::TooLarge { line } => Fault::TooLarge { line },
    }
}

/// The store of the records of the lines of a pass at its start, by a job: `build_store_of_lines` of `cm_store`, for the driver. The
/// faults: `Memory` out of memory; `NoKeys` there are no lines; `Refused` no seed of the job yields an index, with the report on the
/// first; `Key` the pass over the lines failed; `TooLarge` the records up to a line take more than `MAX_RECORD_BYTES` of
/// `cm_store_records`.
pub fn make_store<P: KeyPass>(
    alloc: Global,
    job: &StoreBuild,
    lines: &mut P,
) -> Result<StoreFile, Fault<CoreReport>>
    requires job { IsStoreBuild job.now }
    requires usable { IsTrue (P.usable lines.old) }
    requires start { P.place lines.old ≡ 0 }
    ensures cause { (w : ℕ) → HasMakeCause (P.faults lines.old) (P.faults lines.new) w w result }
    ensures failed { IfErr result (HasLineFailure (P.failure lines.new) (P.last lines.new)) }
    ensures made { IfOk result (λ file. ForSome (P.told lines.old) (λ told. (meaning_of job.now).verdict told ≡ Ok file)) }
    ensures makes { IfOk result (λ file. ForSome (P.told lines.old) (λ told. IsStoreOf job.now told file)) }
    ensures refused { IfErr result (λ fault. ForSome (P.told lines.old) (λ told. RefusesBy report_bytes (meaning_of job.now) told fault)) }
    ensures form { IfErr result (IsAllowedFault MayStop) }
{
    let plan = StorePlan { c: job.c, b: job.b };
    let seeds = seeds(job.seed, job.count);
    match build_store_of_lines(alloc, lines, plan, seeds.as_slice()) {
        Ok(store) => Ok(StoreFile { store }),
        Err(fault) => Err(fault_of(fault)),
    }
}
