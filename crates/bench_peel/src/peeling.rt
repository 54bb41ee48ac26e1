//! Peeling as a build does it: over the incidence of 8 bytes a vertex, without levels, and with steps that nobody reads.
ghost use Rattle.std.specs.Prelude.{◌≡◌, ◌<◌, length, IfOk};

use cm_graph::{Edges, Steps, Xored};
use cm_peel::{Peeled, peel_without_levels};
use std::alloc::{AllocError, Global};
use std::marker::Brand;
use std::sync::ledger::{Blank, Ledger};

fn triples_by<L: Ledger>(
    alloc: Global,
    edges: &Edges<3>,
    blank: Blank,
) -> Result<Peeled<3>, AllocError>
    requires name { blank.name ≡ L.name }
    requires parts { blank.parts ≡ L.parts }
    requires some { 0 < blank.parts }
    ensures { IfOk result (λ p. length p.pivots ≡ length edges.now.edges) }
{
    let mut steps = Steps::<L>::new(blank);
    peel_without_levels::<3, Xored<3>, L>(alloc, edges, &mut steps)
}

/// Peels edges with three ends.
#[inline(never)]
pub fn triples(alloc: Global, edges: &Edges<3>) -> Result<Peeled<3>, AllocError>
    ensures { IfOk result (λ p. length p.pivots ≡ length edges.now.edges) }
{
    triples_by::<Brand>(alloc, edges, Blank::new(1))
}

fn pairs_by<L: Ledger>(
    alloc: Global,
    edges: &Edges<2>,
    blank: Blank,
) -> Result<Peeled<2>, AllocError>
    requires name { blank.name ≡ L.name }
    requires parts { blank.parts ≡ L.parts }
    requires some { 0 < blank.parts }
    ensures { IfOk result (λ p. length p.pivots ≡ length edges.now.edges) }
{
    let mut steps = Steps::<L>::new(blank);
    peel_without_levels::<2, Xored<2>, L>(alloc, edges, &mut steps)
}

/// Peels edges with two ends.
#[inline(never)]
pub fn pairs(alloc: Global, edges: &Edges<2>) -> Result<Peeled<2>, AllocError>
    ensures { IfOk result (λ p. length p.pivots ≡ length edges.now.edges) }
{
    pairs_by::<Brand>(alloc, edges, Blank::new(1))
}
