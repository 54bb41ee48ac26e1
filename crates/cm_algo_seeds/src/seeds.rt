//! The seeds of a list, one after another.
ghost use Rattle.std.specs.Prelude.{◌≡◌, ◌≢◌, ℕ, ◌+◌, ◌*◌, ◌<◌, ◌≤◌, [], length, slice_index, IfOk, IfErr, IfSome, IfNone, OnOk, None, Some, count_by};
ghost use Rattle.std.specs.Option.{ForSome};
ghost use Rattle.cm_spec.specs.Built.{graph_of};
ghost use Rattle.cm_spec.specs.Cells.{is_busy};
ghost use Rattle.cm_spec.specs.Rounds.{rest_of};
ghost use Rattle.cm_spec.specs.Rule.{IsCount, IsRatio};
ghost use Rattle.cm_witness_gather.specs.Cores.{EqualKeysMeet};
ghost use Rattle.cm_io.specs.PassFaults.{FailsPass, HasOtherCount, HasPassCause, HasPassFailure, HasPassed, ReadsKeys};
ghost use Rattle.cm_algo_seeds.specs.Builds.{IsGiven, IsBuilt, IsLeft, IsMade, IsSolution};
ghost use Rattle.cm_algo_seeds.specs.Fails.{FailsBuild, HasBuildCause, HasForm, IsFailure, ShowsCore};
ghost use Rattle.cm_algo_seeds.specs.declared.fault.BuildFault.TheVariants as build_fault;
ghost use Rattle.cm_spec.specs.declared.limits.TheConstants.{MAX_KEYS};

use crate::fault::BuildFault;
use crate::passes::{count_all, hash_all};
use cm_algo_cells::assign;
use cm_algo_scheme::{Built, Scheme};
use cm_graph_edges::{Edges, Incidence, Steps};
use cm_io::{KeyBuf, KeyPass, PassFault};
use cm_peel::{Peeled, peel_without_levels};
use cm_witness_gather::{Certificate, gather_with};
use std::alloc::{AllocError, Global};
use std::sync::ledger::Ledger;

/// A graph with a 2-core, and its residual graph. `build_first` returns it, and it is lent to `certify`.
#[derive(Drop)]
pub struct Left<const K: usize> {
    pub edges: Edges<K>,
    pub peeled: Peeled<K>,
}

/// The cells of a graph, or the graph if it has a 2-core. The tags are those of the edges, in order; an edge past the last of them has
/// tag 0.
fn solve<S: Scheme<K>, I: Incidence<K> + Drop, const K: usize, L: Ledger>(
    alloc: Global,
    scheme: &S,
    edges: Edges<K>,
    tags: &[u32],
    steps: &mut Steps<L>,
) -> Result<Result<S::Table, Left<K>>, AllocError>
    requires many { IsCount (length edges.edges) }
    ensures solved { IfOk result (λ o. IfOk o (λ t. IsSolution (S.rule scheme.now) edges.entry.vertices edges.entry.edges tags.now (S.Table.bound_of t) (S.Table.cells t))) }
    ensures peeled { IfOk result (λ o. IfErr o (λ left. left.peeled.rest ≡ rest_of left.edges.edges)) }
    ensures some { IfOk result (λ o. IfErr o (λ left. left.peeled.rest ≢ [])) }
    ensures left { IfOk result (λ o. IfErr o (λ left. left.edges.edges ≡ edges.entry.edges)) }
    ensures steps { steps.new ≤ steps.old + 8 * (K * length edges.entry.edges) }
{
    let peeled = peel_without_levels::<K, I, L>(alloc, &edges, steps)?;
    if peeled.rest().is_empty() {
        let table = assign(alloc, scheme, &edges, &peeled, tags)?;
        Ok(Ok(table))
    } else {
        Ok(Err(Left { edges, peeled }))
    }
}

/// One seed: the cells, or the graph if it has a 2-core. The keys, which are to be `m`, are passed once. The buffer is scratch space.
pub fn attempt<S: Scheme<K>, I: Incidence<K> + Drop, P: KeyPass, const K: usize, L: Ledger>(
    alloc: Global,
    scheme: &S,
    keys: &mut P,
    key: &mut KeyBuf,
    m: u32,
    c: u32,
    seed: u32,
    steps: &mut Steps<L>,
) -> Result<Result<S::Table, Left<K>>, PassFault>
    requires many { (1 ≤ m) × (m ≤ MAX_KEYS) }
    requires ratio { IsRatio c }
    ensures told { P.told keys.new ≡ P.told keys.old }
    ensures cause { HasPassCause (P.faults keys.old) (P.faults keys.new) result }
    ensures failed { IfErr result (HasPassFailure (P.failure keys.new)) }
    ensures passed { OnOk result (HasPassed P.at_end P.place m) }
    ensures bound { IfOk result (λ o. IfOk o (λ t. (S.Table.bound_of t ≡ (S.rule scheme.now).bound m) × (length (S.Table.cells t) ≡ (S.rule scheme.now).size m c))) }
    ensures busy { IfOk result (λ o. IfOk o (λ t. (S.rule scheme.now).modulus m ≤ (S.rule scheme.now).idle → count_by (is_busy (S.rule scheme.now).idle) (S.Table.cells t) ≡ m)) }
    ensures made { IfOk result (λ o. IfOk o (λ t. ForSome (P.told keys.old) (λ told. (m ≡ length told.keys) × IsGiven (S.rule scheme.now) told.keys c seed (S.Table.cells t)))) }
    ensures peeled { IfOk result (λ o. IfErr o (λ left. left.peeled.rest ≡ rest_of left.edges.edges)) }
    ensures some { IfOk result (λ o. IfErr o (λ left. left.peeled.rest ≢ [])) }
    ensures long { IfOk result (λ o. IfErr o (λ left. length left.edges.edges ≡ m)) }
    ensures left { IfOk result (λ o. IfErr o (λ left. ForSome (P.told keys.old) (λ told. left.edges.edges ≡ graph_of (S.rule scheme.now) told.keys c seed))) }
    ensures changed { IfErr result (HasOtherCount m (P.place keys.new)) }
    ensures fault { IfErr result (λ e. ForSome (P.told keys.old) (λ told. FailsPass told m e)) }
    ensures steps { steps.new ≤ steps.old + 8 * (K * m) }
{
    let mut edges = Edges::with_capacity(alloc, scheme.size(m, c), m)?;
    let mut tags = if S::KEEPS_TAGS {
        Vec::with_capacity(alloc, m as usize)?
    } else {
        Vec::new(alloc)
    };
    hash_all(scheme, keys, key, m, seed, &mut edges, &mut tags)?;
    let solved = solve::<S, I, K, L>(alloc, scheme, edges, &tags, steps)?;
    Ok(solved)
}

/// The certificate of the residual graph under a seed. The keys are passed once. The buffer is scratch space.
pub fn certify<S: Scheme<K>, P: KeyPass, const K: usize>(
    alloc: Global,
    scheme: &S,
    keys: &mut P,
    key: &mut KeyBuf,
    seed: u32,
    left: &Left<K>,
) -> Result<Certificate, PassFault>
    requires peeled { left.now.peeled.rest ≡ rest_of left.now.edges.edges }
    requires equal_keys { ForSome (P.told keys.old) (λ told. EqualKeysMeet told.keys left.now.edges.edges) }
    ensures reads { ReadsKeys P.KeyPass keys.old keys.new (length left.now.edges.edges) result }
    ensures form { IfOk result (λ made. HasForm (S.algorithm_of scheme.now) seed (build_fault.Cored made)) }
    ensures end { OnOk result (ForSome (P.told keys.old) (λ told. (length told.keys ≡ length left.now.edges.edges) × (told.fault ≡ None))) }
    ensures shows { IfOk result (λ made. ForSome (P.told keys.old) (λ told. (c : ℕ) → left.now.edges.edges ≡ graph_of (S.rule scheme.now) told.keys c seed → ShowsCore (S.rule scheme.now) told.keys c seed made)) }
{
    gather_with(
        alloc,
        keys,
        key,
        &left.edges,
        left.peeled.rest(),
        scheme.algorithm(),
        seed,
        None,
    )
}

/// `cm_algo::build` for few keys, with a buffer for them, which many builds may share: creating one clears its 64 KiB. It keeps the graph
/// of the first seed while it tries the others, and gathers the certificate only if none works, since with few keys the next seed nearly
/// always does; so it tries them all, even if keys are equal.
pub fn build_with<S: Scheme<K>, I: Incidence<K> + Drop, P: KeyPass, const K: usize, L: Ledger>(
    alloc: Global,
    scheme: &S,
    keys: &mut P,
    key: &mut KeyBuf,
    c: u32,
    seeds: &[u32],
    steps: &mut Steps<L>,
) -> Result<Built<S::Table>, BuildFault>
    requires ratio { IsRatio c }
    requires some { 0 < length seeds.now }
    ensures told { P.told keys.new ≡ P.told keys.old }
    ensures cause { HasBuildCause (P.faults keys.old) (P.faults keys.new) result }
    ensures made { IfOk result (IsMade S.Table.bound_of S.Table.cells (S.rule scheme.now) c seeds.now) }
    ensures first { IfOk result (λ b. ForSome (P.told keys.old) (λ told. (told.fault ≡ None) × IsBuilt (S.rule scheme.now) told.keys c seeds.now b.m b.seed (S.Table.cells b.cells) K steps.old steps.new)) }
    ensures fault { IfErr result (λ e. ForSome (P.told keys.old) (λ told. FailsBuild (S.rule scheme.now) told c seeds.now e)) }
    ensures form { IfErr result (IsFailure P.KeyPass keys.new (S.algorithm_of scheme.now) (slice_index seeds.now 0)) }
    ensures steps { ForSome (P.told keys.old) (λ told. steps.new ≤ steps.old + 8 * (K * length told.keys) * length seeds.now) }
{
    match build_first::<S, I, P, K, L>(alloc, scheme, keys, key, c, seeds, steps)? {
        Ok(built) => Ok(built),
        Err(left) => {
            let m = left.edges.len();
            match build_later::<S, I, P, K, L>(alloc, scheme, keys, key, m, c, seeds, steps)? {
                Some(later) => Ok(later),
                None => {
                    let certificate = certify::<S, P, K>(
                        alloc, scheme, keys, key, seeds[0], &left,
                    )?;
                    Err(BuildFault::Cored(certificate))
                }
            }
        }
    }
}

/// The cells of the first seed of a list, or its graph if that has a 2-core. The keys are passed once to be counted, and once more. The
/// buffer is scratch space.
pub fn build_first<S: Scheme<K>, I: Incidence<K> + Drop, P: KeyPass, const K: usize, L: Ledger>(
    alloc: Global,
    scheme: &S,
    keys: &mut P,
    key: &mut KeyBuf,
    c: u32,
    seeds: &[u32],
    steps: &mut Steps<L>,
) -> Result<Result<Built<S::Table>, Left<K>>, BuildFault>
    requires ratio { IsRatio c }
    requires some { 0 < length seeds.now }
    ensures told { P.told keys.new ≡ P.told keys.old }
    ensures cause { HasBuildCause (P.faults keys.old) (P.faults keys.new) result }
    ensures made { IfOk result (λ o. IfOk o (IsMade S.Table.bound_of S.Table.cells (S.rule scheme.now) c seeds.now)) }
    ensures first { IfOk result (λ o. IfOk o (λ b. ForSome (P.told keys.old) (λ told. (told.fault ≡ None) × IsBuilt (S.rule scheme.now) told.keys c seeds.now b.m b.seed (S.Table.cells b.cells) K steps.old steps.new))) }
    ensures peeled { IfOk result (λ o. IfErr o (λ left. left.peeled.rest ≡ rest_of left.edges.edges)) }
    ensures long { IfOk result (λ o. IfErr o (λ left. (1 ≤ length left.edges.edges) × (length left.edges.edges ≤ MAX_KEYS))) }
    ensures passed { IfOk result (λ o. IfErr o (λ left. HasPassed P.at_end P.place (length left.edges.edges))) }
    ensures left { IfOk result (λ o. IfErr o (λ left. ForSome (P.told keys.old) (λ told. IsLeft (S.rule scheme.now) told c (slice_index seeds.now 0) left.edges.edges))) }
    ensures fault { IfErr result (λ e. ForSome (P.told keys.old) (λ told. FailsBuild (S.rule scheme.now) told c seeds.now e)) }
    ensures form { IfErr result (IsFailure P.KeyPass keys.new (S.algorithm_of scheme.now) (slice_index seeds.now 0)) }
    ensures steps { ForSome (P.told keys.old) (λ told. steps.new ≤ steps.old + 8 * (K * length told.keys)) }
{
    let m = count_all(keys, key)?;
    if m == 0 {
        return Err(BuildFault::NoKeys);
    }
    let seed = seeds[0];
    match attempt::<S, I, P, K, L>(alloc, scheme, keys, key, m, c, seed, steps)? {
        Ok(cells) => Ok(Ok(Built { m, c, seed, cells })),
        Err(left) => Ok(Err(left)),
    }
}

/// The cells of the first seed that works after the first of the list, or none. The first one leaves a 2-core. `steps` has counted those
/// of the first. The buffer is scratch space.
pub fn build_later<S: Scheme<K>, I: Incidence<K> + Drop, P: KeyPass, const K: usize, L: Ledger>(
    alloc: Global,
    scheme: &S,
    keys: &mut P,
    key: &mut KeyBuf,
    m: u32,
    c: u32,
    seeds: &[u32],
    steps: &mut Steps<L>,
) -> Result<Option<Built<S::Table>>, PassFault>
    requires many { (1 ≤ m) × (m ≤ MAX_KEYS) }
    requires ratio { IsRatio c }
    requires some { 0 < length seeds.now }
    requires left { ForSome (P.told keys.old) (λ told. rest_of (graph_of (S.rule scheme.now) told.keys c (slice_index seeds.now 0)) ≢ []) }
    ensures told { P.told keys.new ≡ P.told keys.old }
    ensures cause { HasPassCause (P.faults keys.old) (P.faults keys.new) result }
    ensures failed { IfErr result (HasPassFailure (P.failure keys.new)) }
    ensures made { IfOk result (λ o. IfSome o (IsMade S.Table.bound_of S.Table.cells (S.rule scheme.now) c seeds.now)) }
    ensures first { (before : ℕ) → steps.old ≤ before + 8 * (K * m) →
        IfOk result (λ o. IfSome o (λ b. ForSome (P.told keys.old) (λ told. IsBuilt (S.rule scheme.now) told.keys c seeds.now b.m b.seed (S.Table.cells b.cells) K before steps.new))) }
    ensures none { IfOk result (λ o. IfNone o (ForSome (P.told keys.old) (λ told. (j : ℕ) → j < length seeds.now → rest_of (graph_of (S.rule scheme.now) told.keys c (slice_index seeds.now j)) ≢ []))) }
    ensures changed { IfErr result (HasOtherCount m (P.place keys.new)) }
    ensures fault { IfErr result (λ e. ForSome (P.told keys.old) (λ told. FailsPass told m e)) }
    ensures steps { (before : ℕ) → steps.old ≤ before + 8 * (K * m) → steps.new ≤ before + 8 * (K * m) * length seeds.now }
{
    for i in 1..seeds.len() {
        let seed = seeds[i];
        match attempt::<S, I, P, K, L>(alloc, scheme, keys, key, m, c, seed, steps)? {
            Ok(cells) => return Ok(Some(Built { m, c, seed, cells })),
            Err(_) => {}
        }
    }
    Ok(None)
}
