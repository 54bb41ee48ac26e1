//! Peeling of small graphs and of a long path, over each incidence.
ghost use Rattle.std.specs.Prelude.{◌≡◌, ◌<◌, length, IfOk};

use crate::equal::{expect_equal, expect_true};
use cm_graph::{Edges, Incidence, Linked, Steps, Xored};
use cm_peel::{Peeled, peel};
use cm_spec::MAX_EDGES;
use std::alloc::{AllocError, Global};
use std::marker::Brand;
use std::process::Abort;
use std::sync::ledger::{Blank, Ledger};
use std::test::Fail;

/// Peels edges with two ends over a given incidence, with steps that nobody reads.
fn pairs_by<I: Incidence<2> + Drop, L: Ledger>(
    alloc: Global,
    edges: &Edges<2>,
    blank: Blank,
) -> Result<Peeled<2>, AllocError>
    requires name { blank.name ≡ L.name }
    requires parts { blank.parts ≡ L.parts }
    requires some { 0 < blank.parts }
    ensures levels { IfOk result (λ p. length p.levels ≡ length edges.now.edges) }
    ensures pivots { IfOk result (λ p. length p.pivots ≡ length edges.now.edges) }
{
    let mut steps = Steps::<L>::new(blank);
    peel::<2, I, L>(alloc, edges, &mut steps)
}

fn pairs<I: Incidence<2> + Drop>(alloc: Global, edges: &Edges<2>) -> Result<Peeled<2>, AllocError>
    ensures levels { IfOk result (λ p. length p.levels ≡ length edges.now.edges) }
    ensures pivots { IfOk result (λ p. length p.pivots ≡ length edges.now.edges) }
{
    pairs_by::<I, Brand>(alloc, edges, Blank::new(1))
}

/// Peels edges with three ends over a given incidence, with steps that nobody reads.
fn triples_by<I: Incidence<3> + Drop, L: Ledger>(
    alloc: Global,
    edges: &Edges<3>,
    blank: Blank,
) -> Result<Peeled<3>, AllocError>
    requires name { blank.name ≡ L.name }
    requires parts { blank.parts ≡ L.parts }
    requires some { 0 < blank.parts }
    ensures levels { IfOk result (λ p. length p.levels ≡ length edges.now.edges) }
    ensures pivots { IfOk result (λ p. length p.pivots ≡ length edges.now.edges) }
{
    let mut steps = Steps::<L>::new(blank);
    peel::<3, I, L>(alloc, edges, &mut steps)
}

fn triples<I: Incidence<3> + Drop>(alloc: Global, edges: &Edges<3>) -> Result<Peeled<3>, AllocError>
    ensures levels { IfOk result (λ p. length p.levels ≡ length edges.now.edges) }
    ensures pivots { IfOk result (λ p. length p.pivots ≡ length edges.now.edges) }
{
    triples_by::<I, Brand>(alloc, edges, Blank::new(1))
}

/// Adds an edge, unless it isn't one over the vertices.
pub(crate) fn add(edges: &mut Edges<2>, first: u32, second: u32) -> Result<bool, AllocError> {
    let n = edges.vertices();
    if first < n && second < n && first != second && edges.len() < MAX_EDGES {
        edges.push([first, second])?;
        Ok(true)
    } else {
        Ok(false)
    }
}

/// Whether these are the levels and pivots of all edges (0 for the pivot of an edge that is left), the removed edges in order, and the
/// residual graph.
fn gives<const K: usize>(
    peeled: &Peeled<K>,
    m: u32,
    marks: &[(u32, u32)],
    order: &[u32],
    rest: &[u32],
) -> bool
    requires levels { length peeled.now.levels ≡ m }
    requires pivots { length peeled.now.pivots ≡ m }
{
    if marks.len() != m as usize {
        return false;
    }
    for e in 0..m {
        let level = peeled.level(e);
        let pivot = if level > 0 { peeled.pivot(e) } else { 0 };
        if (level, pivot) != marks[e as usize] {
            return false;
        }
    }
    peeled.order() == order && peeled.rest() == rest
}

/// Edges over four vertices, the level and pivot of each, the removed ones in order, and the residual graph: a path, a ring, and a ring
/// with an edge that hangs on it.
const GRAPHS: [(&[(u32, u32)], &[(u32, u32)], &[u32], &[u32]); 3] = [
    (
        &[(0, 1), (1, 2), (2, 3)],
        &[(1, 0), (2, 0), (1, 1)],
        &[0, 2, 1],
        &[],
    ),
    (
        &[(0, 1), (1, 2), (2, 0)],
        &[(0, 0), (0, 0), (0, 0)],
        &[],
        &[0, 1, 2],
    ),
    (
        &[(0, 1), (1, 2), (2, 0), (2, 3)],
        &[(0, 0), (0, 0), (0, 0), (1, 1)],
        &[3],
        &[0, 1, 2],
    ),
];

fn peels_small_graphs<I: Incidence<2> + Drop>(
    rt: &impl Abort,
    alloc: Global,
) -> Result<(), AllocError> {
    for (ends, marks, order, rest) in &GRAPHS {
        let mut edges = Edges::<2>::new(alloc, 4);
        for (first, second) in *ends {
            expect_true(rt, add(&mut edges, *first, *second)?);
        }
        let peeled = pairs::<I>(alloc, &edges)?;
        expect_true(rt, gives(&peeled, edges.len(), *marks, *order, *rest));
    }
    Ok(())
}

fn peels_a_triple<I: Incidence<3> + Drop>(
    rt: &impl Abort,
    alloc: Global,
) -> Result<(), AllocError> {
    let mut edges = Edges::<3>::new(alloc, 9);
    let none = triples::<I>(alloc, &edges)?;
    expect_true(rt, gives(&none, edges.len(), &[], &[], &[]));
    edges.push([0, 3, 6])?;
    let one = triples::<I>(alloc, &edges)?;
    expect_true(rt, gives(&one, edges.len(), &[(1, 0)], &[0], &[]));
    Ok(())
}

#[test]
fn small_graphs(rt: HostRuntime) -> Result<(), Fail> {
    let alloc = rt.alloc();
    peels_small_graphs::<Xored<2>>(&rt, alloc)?;
    peels_small_graphs::<Linked<2>>(&rt, alloc)?;
    peels_a_triple::<Xored<3>>(&rt, alloc)?;
    peels_a_triple::<Linked<3>>(&rt, alloc)?;
    Ok(())
}

/// Whether a path of this many edges, numbered along it, is peeled from both ends at once, one edge at each in a round.
fn is_path_peeled(peeled: &Peeled<2>, m: u32) -> bool
    requires levels { length peeled.now.levels ≡ m }
    requires pivots { length peeled.now.pivots ≡ m }
{
    for e in 0..m {
        let back = m - 1 - e;
        if peeled.level(e) != e.min(back) + 1 || peeled.pivot(e) != (e > back) as u32 {
            return false;
        }
    }
    let order = peeled.order();
    if order.len() != m as usize || peeled.rest().len() != 0 {
        return false;
    }
    for i in 0..m {
        let e = if i % 2 == 0 { i / 2 } else { m - 1 - i / 2 };
        if order[i as usize] != e {
            return false;
        }
    }
    true
}

/// A `peel` that reads every edge in every round does not end here.
#[test]
fn long_path(rt: HostRuntime) -> Result<(), Fail> {
    let mut edges = Edges::<2>::with_capacity(rt.alloc(), 1_000_001, 1_000_000)?;
    for e in 0..1_000_000u32 {
        expect_true(&rt, add(&mut edges, e, e + 1)?);
    }
    let m = edges.len();
    expect_equal(&rt, &m, &1_000_000);
    let xored = pairs::<Xored<2>>(rt.alloc(), &edges)?;
    expect_true(&rt, is_path_peeled(&xored, m));
    let chained = pairs::<Linked<2>>(rt.alloc(), &edges)?;
    expect_true(&rt, is_path_peeled(&chained, m));
    Ok(())
}
