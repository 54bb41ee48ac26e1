//! A build over many keys.
ghost use Rattle.std.specs.Prelude.{◌≡◌, ◌+◌, ◌*◌, ◌<◌, ◌≤◌, length, slice_index, IfOk, IfErr, None};
ghost use Rattle.std.specs.Option.{ForSome};
ghost use Rattle.cm_algo_seeds.specs.Builds.{IsBuilt, IsMade};
ghost use Rattle.cm_algo_seeds.specs.Fails.{FailsBuild, FoundEqual, HasBuildCause, IsFailure};
ghost use Rattle.cm_spec.specs.Rule.{IsRatio};

use cm_algo_scheme::{Built, Scheme};
use cm_algo_seeds::{BuildFault, build_first, build_later, certify};
use cm_graph_edges::{Incidence, Steps};
use cm_io::{KeyBuf, KeyPass};
use std::alloc::Global;
use std::sync::ledger::Ledger;

/// The cells of the first seed of a list whose graph has an empty 2-core. The keys are passed once to be counted, and once for each
/// seed that is tried. If the first seed leaves a 2-core, one more pass gathers its certificate, which is returned if no seed works; if
/// two of its keys are equal, no other seed is tried. The ratio `c` is in millionths. After a failure the keys may be rewound and used
/// again. `build` is for many keys: it gathers the certificate before the second seed, so that only one graph is in memory at a time.
pub fn build<S: Scheme<K>, I: Incidence<K> + Drop, P: KeyPass, const K: usize, L: Ledger>(
    alloc: Global,
    scheme: &S,
    keys: &mut P,
    c: u32,
    seeds: &[u32],
    steps: &mut Steps<L>,
) -> Result<Built<S::Table>, BuildFault>
    requires ratio { IsRatio c }
    requires some { 0 < length seeds.now }
    ensures told { P.told keys.new ≡ P.told keys.old }
    ensures cause { HasBuildCause (P.faults keys.old) (P.faults keys.new) result }
    ensures made { IfOk result (IsMade S.Table.bound_of S.Table.cells (S.rule scheme.now) c seeds.now) }
    ensures first { IfOk result (λ b. ForSome (P.told keys.old) (λ told. (told.fault ≡ None) × IsBuilt (S.rule scheme.now) told.keys c seeds.now b.m b.seed (S.Table.cells b.cells) K steps.old steps.new)) }
    ensures fault { IfErr result (λ e. ForSome (P.told keys.old) (λ told. FailsBuild (S.rule scheme.now) told c seeds.now e)) }
    ensures form { IfErr result (IsFailure P.KeyPass keys.new (S.algorithm_of scheme.now) (slice_index seeds.now 0)) }
    ensures steps { ForSome (P.told keys.old) (λ told. steps.new ≤ steps.old + 8 * (K * length told.keys) * length seeds.now) }
    ensures early { IfErr result (λ e. FoundEqual e → ForSome (P.told keys.old) (λ told. steps.new ≤ steps.old + 8 * (K * length told.keys))) }
{
    let mut key = KeyBuf::new();
    match build_first::<S, I, P, K, L>(alloc, scheme, keys, &mut key, c, seeds, steps)? {
        Ok(built) => Ok(built),
        Err(left) => {
            let m = left.edges.len();
            let certificate = certify::<S, P, K>(alloc, scheme, keys, &mut key, seeds[0], &left)?;
            drop(left);
            // Equal keys have equal edges, so that no other seed works.
            if !certificate.equal.is_empty() {
                return Err(BuildFault::Cored(certificate));
            }
            match build_later::<S, I, P, K, L>(alloc, scheme, keys, &mut key, m, c, seeds, steps)? {
                Some(later) => Ok(later),
                None => Err(BuildFault::Cored(certificate)),
            }
        }
    }
}
