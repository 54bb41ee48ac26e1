//! The manifest of a job.
ghost use Rattle.std.specs.Prelude.{◌≡◌, IfOk};
ghost use Rattle.std.specs.Option.{ForSome};
ghost use Rattle.cm_shards_files.specs.Loading.{ChangesNoFile};
ghost use Rattle.cm_shards_join.specs.Leaves.{EndsJoin, HasReadCause};
ghost use Rattle.cm_shards_join.specs.Taking.{algorithm_or, manifest_of};
ghost use Rattle.cm_shards_join.specs.Takings.{taken_by};
ghost use Rattle.cm_shards_words.specs.Limits.{IsJoinJob};

use crate::counting::compare;
use crate::stop::JoinStop;
use crate::taking::take_all;
use cm_algo_names::Algorithm;
use cm_io::Disk;
use cm_route::ROUTE_SEED;
use cm_shards_manifest::Manifest;
use cm_shards_words::JoinJob;
use std::alloc::Global;

/// The algorithm of the first function.
fn algorithm_or(algorithm: Option<Algorithm>) -> Algorithm
    ensures algorithm { result ≡ algorithm_or algorithm }
{
    match algorithm {
        Some(algorithm) => algorithm,
        // There is a function.
        None => Algorithm::Chm,
    }
}

/// The manifest of the functions of a job, after all of them and the counts were checked.
#[tactic(auto, using(crate::proofs::TakeLemmas::ends_take, crate::proofs::TakeLemmas::ends_compare, crate::proofs::TakeLemmas::ends_joined, crate::proofs::TakeLemmas::is_manifest))]
pub(crate) fn make<D: Disk>(
    alloc: Global,
    job: &JoinJob,
    disk: &mut D,
) -> Result<Manifest, JoinStop>
    requires job { IsJoinJob job.now }
    ensures disk { ChangesNoFile (D.state disk.old) (D.state disk.new) }
    ensures cause { HasReadCause (D.state disk.old).read_faults (D.state disk.new).read_faults result }
    ensures ends { ForSome (D.state disk.old).files (λ files. EndsJoin job.now files result) }
{
    let taking = match take_all(alloc, job, disk) {
        Ok(taking) => taking,
        Err(stop) => return Err(stop),
    };
    match compare(alloc, &job.dir, taking.shards.as_slice(), disk) {
        Ok(()) => {}
        Err(stop) => return Err(stop),
    }
    let algorithm = algorithm_or(taking.algorithm);
    Ok(Manifest::new(algorithm, ROUTE_SEED, taking.shards))
}
