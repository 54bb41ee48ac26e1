//! What the keys say of a report of a 2-core.
ghost use Rattle.std.specs.Prelude.{◌≡◌, ◌≤◌, None, length, IfOk, OnOk};
ghost use Rattle.std.specs.Option.{ForSome};
ghost use Rattle.cm_judge_core.specs.Passes.{PassesKeys};
ghost use Rattle.cm_judge_core.specs.Walks.{graph_judged};
ghost use Rattle.cm_judge_verdict.specs.Judged.{core_in, pairs_in};
ghost use Rattle.cm_judge_verdict.specs.Rising.{RisesBy};
ghost use Rattle.cm_judge_verdict.specs.Verdicts.{core_reason, first_reason, graph_reasons};
ghost use Rattle.cm_spec.specs.Rule.{IsRatio};
ghost use Rattle.cm_spec.specs.declared.limits.TheConstants.{MAX_KEYS};

use crate::comparing::core_fault;
use crate::edges::edge_fault;
use crate::walking::Sizes;
use cm_algo_scheme::Scheme;
use cm_algo_seeds::{attempt, certify};
use cm_graph_edges::{Incidence, Steps};
use cm_io::{KeyBuf, KeyPass, PassFault};
use cm_judge_verdict::{Reason, Verdict};
use cm_witness_gather::Certificate;
use std::alloc::Global;
use std::sync::ledger::Ledger;

/// The first reason against the report of a 2-core that is seen by the 2-core of the keys, which are to be `m`. They are passed once for
/// the graph, and once more if it has a 2-core that is not empty. The ratio `c` is in millionths. The buffer is scratch space.
fn seen_by_core<S: Scheme<K>, I: Incidence<K> + Drop, P: KeyPass, const K: usize, L: Ledger>(
    alloc: Global,
    scheme: &S,
    keys: &mut P,
    key: &mut KeyBuf,
    shown: &Certificate,
    m: u32,
    c: u32,
    steps: &mut Steps<L>,
) -> Result<Option<Reason>, PassFault>
    requires many { (1 ≤ m) × (m ≤ MAX_KEYS) }
    requires ratio { IsRatio c }
    requires rise { ForSome (P.told keys.old) (λ told. RisesBy (λ k. k.0) 0 told.keys) }
    requires edges { RisesBy (λ e. e.line) 0 shown.now.edges.items }
    requires equal { RisesBy (λ p. p.again) 0 shown.now.equal.items }
    ensures passes { PassesKeys P.KeyPass keys.old keys.new m result }
    ensures reason { IfOk result (λ reason. ForSome (P.told keys.old) (λ told. reason ≡ core_reason
        (core_in (graph_judged (S.rule scheme.now) told.keys c shown.now.seed)) (pairs_in (graph_judged (S.rule scheme.now) told.keys c shown.now.seed))
        shown.now.edges.items shown.now.equal.items)) }
{
    let seed = shown.seed;
    match attempt::<S, I, P, K, L>(alloc, scheme, keys, key, m, c, seed, steps)? {
        Ok(_) => Ok(core_fault(&[], &[], &shown.edges, &shown.equal)),
        Err(left) => {
            let made = certify::<S, P, K>(alloc, scheme, keys, key, seed, &left)?;
            Ok(core_fault(&made.edges, &made.equal, &shown.edges, &shown.equal))
        }
    }
}

/// The verdict of the keys of a pass, which are to be `m`, on the report of a 2-core: the first reason against it, or that it holds. The
/// ratio `c` is in millionths. The keys are passed three times at most: for the lines of the report, for the graph, and for its equal
/// keys. Fails as `Changed` if there are fewer keys than `m`, or more, and else only if a pass fails or memory runs out. The buffer is
/// scratch space.
pub fn core_verdict<S: Scheme<K>, I: Incidence<K> + Drop, P: KeyPass, const K: usize, L: Ledger>(
    alloc: Global,
    scheme: &S,
    keys: &mut P,
    key: &mut KeyBuf,
    shown: &Certificate,
    m: u32,
    c: u32,
    steps: &mut Steps<L>,
) -> Result<Verdict, PassFault>
    requires many { (1 ≤ m) × (m ≤ MAX_KEYS) }
    requires ratio { IsRatio c }
    requires edges { RisesBy (λ e. e.line) 0 shown.now.edges.items }
    requires equal { RisesBy (λ p. p.again) 0 shown.now.equal.items }
    ensures passes { PassesKeys P.KeyPass keys.old keys.new m result }
    ensures end { OnOk result (ForSome (P.told keys.old) (λ told. (length told.keys ≡ m) × (told.fault ≡ None))) }
    ensures verdict { IfOk result (λ verdict. ForSome (P.told keys.old) (λ told. verdict ≡ first_reason
        (graph_reasons (graph_judged (S.rule scheme.now) told.keys c shown.now.seed) shown.now.edges.items shown.now.equal.items))) }
{
    let sizes = Sizes {
        keys: m,
        vertices: scheme.size(m, c),
        seed: shown.seed,
    };
    if let Some(reason) = edge_fault(alloc, scheme, keys, key, &shown.edges, sizes)? {
        return Ok(Verdict::Fails(reason));
    }
    match seen_by_core::<S, I, P, K, L>(alloc, scheme, keys, key, shown, m, c, steps)? {
        Some(reason) => Ok(Verdict::Fails(reason)),
        None => Ok(Verdict::Holds),
    }
}
