//! The map of linked edges.
ghost use Rattle.std.specs.Prelude.{◌≡◌, ◌<◌, ◌≤◌, ◌+◌, ◌*◌, Bool, true, [], All, IfOk, length, replicate, take};
ghost use Rattle.cm_spec.specs.Graph.{IsEdge};
ghost use Rattle.cm_graph_edges.specs.Graph.{Links, IsLinked, IsFree, IsWidth, AreHalves, all_linked, linked, unlinked, removed_all, places_of, alone_from, degree_of, sole_of};
ghost use Rattle.cm_spec.specs.declared.limits.TheConstants.{MAX_EDGES, MAX_VERTICES};

use crate::edges::EdgeList;
use crate::steps::Steps;
use std::alloc::{AllocError, Global};
use std::sync::ledger::Ledger;

/// An edge at one of its positions: the vertex there, and the place, which is `4 * e + j` for position `j` of the edge of number
/// `e`.
#[derive(Clone, Copy)]
pub struct Half {
    pub vertex: u32,
    pub place: u32,
}

/// Which edges are linked, with their ends. Each access to a vertex is a step.
pub trait Incidence<const K: usize>: Sized {
    /// The number of vertices, and the half-edges of each linked edge by its number, however they are kept.
    ghost links: { Self → Links };

    /// Whether further edges can be linked.
    ghost takes: { Self → Bool };

    /// No edge linked, over `vertices` vertices, with edge numbers below `edges`. Fails only if memory runs out.
    fn empty(alloc: Global, vertices: u32, edges: u32) -> Result<Self, AllocError>
        requires width { IsWidth K }
        requires vertices { vertices ≤ MAX_VERTICES }
        requires edges { edges ≤ MAX_EDGES }
        ensures links { IfOk result (λ made. links made ≡ record { vertices = vertices; slots = replicate edges [] }) }
        ensures takes { IfOk result (λ made. takes made ≡ true) };

    /// All of these edges linked. No room for further ones is promised. Fails only if memory runs out. Accesses vertices at most twice
    /// for each end.
    fn from_edges<E: EdgeList<K>, L: Ledger>(
        alloc: Global,
        edges: &E,
        steps: &mut Steps<L>,
    ) -> Result<Self, AllocError>
        ensures links { IfOk result (λ made. links made ≡ all_linked (E.graph edges.now).vertices (E.graph edges.now).edges) }
        ensures steps { steps.new ≤ steps.old + 2 * (K * length (E.graph edges.now).edges) };

    /// Links the edge of number `e`, which isn't linked yet.
    fn link<L: Ledger>(&mut self, e: u32, ends: [u32; K], steps: &mut Steps<L>)
        requires takes { takes self.old ≡ true }
        requires free { IsFree (links self.old) e }
        requires edge { IsEdge (links self.old).vertices ends }
        ensures links { links self.new ≡ linked (links self.old) e ends.entry }
        ensures takes { takes self.new ≡ true }
        ensures steps { steps.new ≡ steps.old + K };

    /// Unlinks the edge of number `e`, which is linked with these ends.
    fn unlink<L: Ledger>(&mut self, e: u32, ends: [u32; K], steps: &mut Steps<L>)
        requires linked { IsLinked (links self.old) e ends }
        requires edge { IsEdge (links self.old).vertices ends }
        ensures links { links self.new ≡ unlinked (links self.old) e }
        ensures takes { takes self.new ≡ takes self.old }
        ensures steps { steps.new ≡ steps.old + K };

    /// Removes some half-edges, each listed once. Then, for each of their vertices in turn that is left with one half-edge, it lists
    /// the place of that one. Returns how many it listed.
    fn remove<L: Ledger>(
        &mut self,
        halves: &[Half],
        places: &mut [u32],
        steps: &mut Steps<L>,
    ) -> usize
        requires vertices { All (λ h. h.vertex < (links self.old).vertices) halves.now }
        requires halves { AreHalves (links self.old) halves.now }
        requires room { length halves.now ≤ length places.old }
        ensures links { links self.new ≡ removed_all (links self.old) halves.now }
        ensures takes { takes self.new ≡ takes self.old }
        ensures few { result ≤ length halves.now }
        ensures places { take result places.new ≡ places_of (links self.new) halves.now }
        ensures steps { steps.new ≤ steps.old + 3 * length halves.now };

    /// Reads the vertices from `first` on, as many as `places` has room for, and lists the places of the half-edges that are alone in
    /// one of them. Returns how many it listed.
    fn list_alone<L: Ledger>(&self, first: u32, places: &mut [u32], steps: &mut Steps<L>) -> usize
        requires vertices { first + length places.old ≤ (links self.now).vertices }
        ensures few { result ≤ length places.old }
        ensures places { take result places.new ≡ alone_from (links self.now) first (length places.old) }
        ensures steps { steps.new ≡ steps.old + length places.old };

    /// How many linked edges touch the vertex `v`.
    fn degree<L: Ledger>(&self, v: u32, steps: &mut Steps<L>) -> u32
        requires { v < (links self.now).vertices }
        ensures count { result ≡ degree_of (links self.now) v }
        ensures steps { steps.new ≡ steps.old + 1 };

    /// The number of the one linked edge that touches the vertex `v`.
    fn sole<L: Ledger>(&self, v: u32, steps: &mut Steps<L>) -> u32
        requires vertex { v < (links self.now).vertices }
        requires one { degree_of (links self.now) v ≡ 1 }
        ensures edge { result ≡ sole_of (links self.now) v }
        ensures steps { steps.new ≡ steps.old + 1 };
}
