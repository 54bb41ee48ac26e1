//! Edges that look random, by their numbers.
ghost use Rattle.std.specs.Prelude.{◌*◌, ◌<◌, ◌≤◌};
ghost use Rattle.cm_spec.specs.Graph.{IsEdge};
ghost use Rattle.cm_spec.specs.declared.limits.TheConstants.{MAX_EDGES, MAX_VERTICES};

use crate::random::{below, random};
use cm_graph::Edges;
use std::alloc::{AllocError, Global};

/// An edge with one end in each third of the vertices.
#[inline]
fn triple(e: u32, third: u32) -> [u32; 3]
    requires turns { e ≤ MAX_EDGES }
    requires some { 0 < third }
    requires few { third ≤ 223696215 }
    ensures { IsEdge (3 * third) result }
{
    [
        below(random(3 * e), third),
        third + below(random(3 * e + 1), third),
        2 * third + below(random(3 * e + 2), third),
    ]
}

/// An edge with two ends anywhere.
#[inline]
fn pair(e: u32, n: u32) -> [u32; 2]
    requires turns { e ≤ MAX_EDGES }
    requires some { 2 ≤ n }
    requires few { n ≤ MAX_VERTICES }
    ensures { IsEdge n result }
{
    let first = below(random(2 * e), n);
    let other = below(random(2 * e + 1), n - 1);
    if other < first {
        [first, other]
    } else {
        [first, other + 1]
    }
}

/// Edges with three ends over three times `third` vertices.
#[inline(never)]
pub fn triples(alloc: Global, m: u32, third: u32) -> Result<Edges<3>, AllocError>
    requires edges { m ≤ MAX_EDGES }
    requires some { 0 < third }
    requires few { third ≤ 223696215 }
{
    let mut edges = Edges::<3>::with_capacity(alloc, 3 * third, m)?;
    for e in 0..m {
        edges.push(triple(e, third))?;
    }
    Ok(edges)
}

/// Edges with two ends over `n` vertices.
#[inline(never)]
pub fn pairs(alloc: Global, m: u32, n: u32) -> Result<Edges<2>, AllocError>
    requires edges { m ≤ MAX_EDGES }
    requires some { 2 ≤ n }
    requires few { n ≤ MAX_VERTICES }
{
    let mut edges = Edges::<2>::with_capacity(alloc, n, m)?;
    for e in 0..m {
        edges.push(pair(e, n))?;
    }
    Ok(edges)
}
