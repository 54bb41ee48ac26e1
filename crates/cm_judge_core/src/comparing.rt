//! What a report lacks, and what it has and should not.
ghost use Rattle.std.specs.Prelude.{◌≡◌, map};
ghost use Rattle.cm_judge_verdict.specs.Rising.{RisesBy};
ghost use Rattle.cm_judge_verdict.specs.Verdicts.{core_reason, least, lines_apart, lines_lacking, lines_other, same_edge};

use cm_judge_verdict::Reason;
use cm_witness_gather::{CoreEdge, Pair};

/// The lowest line of an edge of a 2-core that is not the line of an edge of a report, if both lists rise by line.
pub(crate) fn first_missing(core: &[CoreEdge], edges: &[CoreEdge]) -> Option<u32>
    ensures missing { RisesBy (λ e. e.line) 0 core.now → RisesBy (λ e. e.line) 0 edges.now → result ≡ least (lines_lacking edges.now core.now) }
{
    let mut i = 0;
    let mut j = 0;
    while j < core.len() {
        let line = core[j].line;
        if i == edges.len() || line < edges[i].line {
            return Some(line);
        }
        if edges[i].line == line {
            j += 1;
        }
        i += 1;
    }
    None
}

/// The lowest later line of a pair that only one of two lists has, if both rise by later line.
pub fn first_apart(real: &[Pair], equal: &[Pair]) -> Option<u32>
    ensures apart { RisesBy (λ p. p.again) 0 real.now → RisesBy (λ p. p.again) 0 equal.now → result ≡ least (lines_apart real.now equal.now) }
{
    let mut i = 0;
    while i < real.len() {
        let pair = real[i];
        if i == equal.len() {
            return Some(pair.again);
        }
        let shown = equal[i];
        if pair.first != shown.first || pair.again != shown.again {
            return Some(pair.again.min(shown.again));
        }
        i += 1;
    }
    if i == equal.len() {
        return None;
    }
    Some(equal[i].again)
}

/// Whether two edges have the same line and the same vertices.
fn is_same(a: CoreEdge, b: CoreEdge) -> bool
    ensures same { result ≡ same_edge a b }
{
    a.line == b.line && a.first == b.first && a.second == b.second && a.third == b.third
}

/// The lowest line at which two lists of edges differ, which both rise by line and have the same lines.
pub(crate) fn first_other(own: &[CoreEdge], edges: &[CoreEdge]) -> Option<u32>
    requires own { RisesBy (λ e. e.line) 0 own.now }
    requires edges { RisesBy (λ e. e.line) 0 edges.now }
    requires lines { map (λ e. e.line) own.now ≡ map (λ e. e.line) edges.now }
    ensures other { result ≡ least (lines_other own.now edges.now) }
{
    let mut i = 0;
    while i < edges.len() && i < own.len() {
        if !is_same(own[i], edges[i]) {
            return Some(edges[i].line);
        }
        i += 1;
    }
    None
}

/// The first reason why a report does not show a 2-core and the equal keys in it: an edge that is missing, or a pair that only one of them
/// has. The lists are those of the 2-core and those of the report.
pub(crate) fn core_fault(
    core: &[CoreEdge],
    real: &[Pair],
    edges: &[CoreEdge],
    equal: &[Pair],
) -> Option<Reason>
    requires edges { RisesBy (λ e. e.line) 0 edges.now }
    requires equal { RisesBy (λ p. p.again) 0 equal.now }
    ensures reason { RisesBy (λ e. e.line) 0 core.now → RisesBy (λ p. p.again) 0 real.now →
        result ≡ core_reason core.now real.now edges.now equal.now }
{
    if let Some(line) = first_missing(core, edges) {
        return Some(Reason::Missing { line });
    }
    let line = first_apart(real, equal)?;
    Some(Reason::NoPair { line })
}
