//! Whether the edges of a report may be those of a 2-core, by the keys of their lines.
ghost use Rattle.std.specs.Prelude.{◌≡◌, None, length, map, IfOk, OnOk};
ghost use Rattle.std.specs.Option.{ForSome};
ghost use Rattle.cm_io.specs.PassFaults.{ReadsKeys};
ghost use Rattle.cm_judge_verdict.specs.Judged.{edge_over};
ghost use Rattle.cm_judge_verdict.specs.Rising.{RisesBy};
ghost use Rattle.cm_judge_verdict.specs.Verdicts.{edge_reason};
ghost use Rattle.cm_spec.specs.Rule.{IsSize};

use crate::comparing::{first_missing, first_other};
use crate::touching::first_lone;
use crate::walking::{Sizes, own_edges};
use cm_algo_scheme::Scheme;
use cm_bits::Crumbs;
use cm_io::{KeyBuf, KeyPass, PassFault};
use cm_judge_verdict::Reason;
use cm_witness_gather::CoreEdge;
use std::alloc::Global;

/// The first reason why the edges of a report, which rise by line, can't be those of a 2-core, from one pass over all keys: a line that no
/// key has, an edge that is another one in the graph, or a vertex that one edge touches. The buffer is scratch space.
pub(crate) fn edge_fault<S: Scheme<K>, P: KeyPass, const K: usize>(
    alloc: Global,
    scheme: &S,
    keys: &mut P,
    key: &mut KeyBuf,
    edges: &[CoreEdge],
    sizes: Sizes,
) -> Result<Option<Reason>, PassFault>
    requires size { IsSize (S.rule scheme.now) sizes.vertices }
    requires edges { RisesBy (λ e. e.line) 0 edges.now }
    ensures reads { ReadsKeys P.KeyPass keys.old keys.new sizes.keys result }
    ensures end { OnOk result (ForSome (P.told keys.old) (λ told. (length told.keys ≡ sizes.keys) × (told.fault ≡ None))) }
    ensures rise { OnOk result (ForSome (P.told keys.old) (λ told. RisesBy (λ k. k.0) 0 told.keys)) }
    ensures reason { IfOk result (λ reason. ForSome (P.told keys.old) (λ told. reason ≡ edge_reason told.keys (map (edge_over (S.rule scheme.now) sizes.vertices sizes.seed) told.keys) edges.now)) }
{
    let own = own_edges(alloc, scheme, keys, key, edges, sizes)?;
    if let Some(line) = first_missing(edges, &own) {
        return Ok(Some(Reason::NoKey { line }));
    }
    if let Some(line) = first_other(&own, edges) {
        return Ok(Some(Reason::Ends { line }));
    }
    drop(own);
    match first_lone::<Crumbs>(alloc, edges, sizes.vertices)? {
        Some(vertex) => Ok(Some(Reason::Once { vertex })),
        None => Ok(None),
    }
}
