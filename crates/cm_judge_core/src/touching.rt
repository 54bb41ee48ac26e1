//! Which vertices exactly one edge touches.
ghost use Rattle.std.specs.Prelude.{◌≡◌, ◌<◌, ◌≤◌, ◌+◌, ℕ, All, IfOk, length, min, slice_index, slice_set, if◌then◌else◌};
ghost use Rattle.cm_bits.specs.declared.TheConstants.{MAX_CELLS};
ghost use Rattle.cm_judge_verdict.specs.Verdicts.{ends_of, least, lone_vertices};
ghost use Rattle.cm_spec.specs.Graph.{IsEdge, touches};

use cm_bits::Cells;
use cm_witness_gather::CoreEdge;
use std::alloc::{AllocError, Global};

/// The bound of a table that counts to two.
const COUNTS: u32 = 4;

/// Counts an edge at a vertex, up to two.
fn count_end<T: Cells>(table: &mut T, v: u32)
    requires bound { T.bound_of table.old ≡ COUNTS }
    requires inside { v < length (T.cells table.old) }
    ensures bound { T.bound_of table.new ≡ COUNTS }
    ensures cells { T.cells table.new ≡ slice_set (T.cells table.old) v (min 2 (slice_index (T.cells table.old) v + 1)) }
{
    let count = table.get(v);
    if count < 2 {
        table.set(v, count + 1);
    } else {
        table.set(v, 2);
    }
}

/// Counts an edge at its vertices, up to two.
fn count_edge<T: Cells>(table: &mut T, edge: CoreEdge)
    requires bound { T.bound_of table.old ≡ COUNTS }
    requires edge { IsEdge (length (T.cells table.old)) (ends_of edge) }
    ensures bound { T.bound_of table.new ≡ COUNTS }
    ensures length { length (T.cells table.new) ≡ length (T.cells table.old) }
    ensures counts { (v k : ℕ) → slice_index (T.cells table.old) v ≡ min 2 k → slice_index (T.cells table.new) v ≡ min 2 (k + (if touches v (ends_of edge) then 1 else 0)) }
{
    count_end(table, edge.first);
    count_end(table, edge.second);
    if let Some(third) = edge.third {
        count_end(table, third);
    }
}

/// The lowest vertex, of n, that exactly one of the edges touches.
pub(crate) fn first_lone<T: Cells + Drop>(
    alloc: Global,
    edges: &[CoreEdge],
    n: u32,
) -> Result<Option<u32>, AllocError>
    requires room { n ≤ MAX_CELLS }
    requires fit { T.fits COUNTS }
    requires edges { All (λ e. IsEdge n (ends_of e)) edges.now }
    ensures lone { IfOk result (λ v. v ≡ least (lone_vertices edges.now)) }
{
    let mut table = T::zeroed(alloc, n, COUNTS)?;
    for edge in edges {
        count_edge(&mut table, *edge);
    }
    for v in 0..n {
        if table.get(v) == 1 {
            return Ok(Some(v));
        }
    }
    Ok(None)
}
