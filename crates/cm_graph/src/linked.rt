//! An incidence that keeps for each vertex a chain of the places of its half-edges.
ghost use Rattle.std.specs.Prelude.{◌≡◌, ◌+◌, ◌<◌, ◌≤◌, [], All, IfOk, length, replicate, true};
ghost use Rattle.cm_spec.specs.Graph.{IsEdge};
ghost use Rattle.cm_graph_edges.specs.Graph.{IsFree, IsLinked, linked, unlinked};
ghost use Rattle.cm_graph.specs.Chained.{chain_from, before_in, chain_without, next_without};
ghost use Rattle.cm_spec.specs.declared.limits.TheConstants.{MAX_EDGES};

use crate::halves::{Halves, link_each, link_edge, list_from, remove_all, unlink_edge};
use crate::slots::Slots;
use cm_graph_edges::{EdgeList, Half, Incidence, Steps};
use std::alloc::{AllocError, Global};
use std::marker::Model;
use std::sync::ledger::Ledger;

/// How many half-edges lie in a vertex, and the first place of its chain.
#[derive(Clone, Copy)]
struct Chain {
    degree: u32,
    first: u32,
}

/// A chain for each vertex, 8 bytes, and what follows each place in its chain: 4 bytes for each of four places of an edge.
#[derive(Drop)]
struct Chains {
    chains: Vec<Chain>,
    next: Vec<u32>,
    slots: Slots,
}

impl Model for Chains {
    ghost use Rattle.std.specs.Prelude.{length};
    ghost use Rattle.cm_graph_edges.specs.Graph.{Links};
    ghost use Rattle.cm_graph.specs.Chained.{AreChained};

    ghost Value = { Links };

    ghost view = { λ x. record { vertices = length x.chains.items; slots = x.slots.each } };

    ghost invariant = { λ x. AreChained x.chains.items x.next.items x.slots.each };
}

/// The place before this one in a chain. The chain has it, but not first.
fn before(next: &[u32], chain: Chain, place: u32) -> u32
    requires some { 0 < chain.degree }
    requires within { All (λ q. q < length next.now) (chain_from next.now chain) }
    ensures { result ≡ before_in place (chain_from next.now chain) }
{
    let mut at = chain.first;
    for _ in 1..chain.degree {
        let after = next[at as usize];
        if after == place {
            return at;
        }
        at = after;
    }
    at
}

/// A chain without one of its places.
fn cut(next: &mut [u32], chain: Chain, place: u32) -> Chain
    requires some { 0 < chain.degree }
    requires place { place < length next.old }
    requires within { All (λ q. q < length next.old) (chain_from next.old chain) }
    ensures chain { result ≡ chain_without next.old chain place }
    ensures next { next.new ≡ next_without next.old chain place }
{
    let after = next[place as usize];
    let mut left = chain;
    left.degree -= 1;
    if chain.first == place {
        left.first = after;
        return left;
    }
    let at = before(next, chain, place);
    next[at as usize] = after;
    left
}

impl Chains {
    /// No half-edge, over `vertices` vertices, with edge numbers below `edges`.
    fn empty(alloc: Global, vertices: u32, edges: u32) -> Result<Self, AllocError>
        requires edges { edges ≤ MAX_EDGES }
        ensures { IfOk result (λ made. made ≡ record { vertices = vertices; slots = replicate edges [] }) }
    {
        let none = Chain {
            degree: 0,
            first: 0,
        };
        Ok(Chains {
            chains: vec![in alloc; none; vertices as usize]?,
            next: vec![in alloc; 0; 4 * edges as usize]?,
            slots: Slots::none(edges),
        })
    }
}

impl Halves for Chains {
    ghost kept = { λ x. x };

    // No more edges than that can be linked.
    ghost most_degree = { MAX_EDGES };

    fn slots(&self) -> Slots {
        self.slots.same()
    }

    fn put(&mut self, half: Half, more: Slots) -> bool {
        let chain = &mut self.chains[half.vertex as usize];
        self.next[half.place as usize] = chain.first;
        chain.first = half.place;
        chain.degree += 1;
        self.slots = more;
        true
    }

    fn take_out(&mut self, half: Half, less: Slots) {
        let v = half.vertex as usize;
        let chain = self.chains[v];
        self.chains[v] = cut(&mut self.next, chain, half.place);
        self.slots = less;
    }

    fn degree_at(&self, v: u32) -> u32 {
        self.chains[v as usize].degree
    }

    fn place_at(&self, v: u32) -> u32 {
        self.chains[v as usize].first
    }
}

/// A chain for each vertex, 8 bytes, and 16 bytes for each edge: position `j` of the edge `e` is the place `4 * e + j`, and each place
/// has what follows it in the chain of the vertex there. Removing a half-edge walks along the chain of its vertex; steps don't count
/// that.
#[derive(Drop)]
pub struct Linked<const K: usize> {
    table: Chains,
}

impl<const K: usize> Model for Linked<K> {
    ghost use Rattle.cm_graph_edges.specs.Graph.{Links, IsWidth};

    ghost Value = { Links };

    ghost view = { λ x. x.table };

    ghost invariant = { λ x. IsWidth K };
}

impl<const K: usize> Incidence<K> for Linked<K> {
    ghost links = { λ x. x };

    ghost takes = { λ _. true };

    fn empty(alloc: Global, vertices: u32, edges: u32) -> Result<Self, AllocError> {
        Ok(Linked {
            table: Chains::empty(alloc, vertices, edges)?,
        })
    }

    fn from_edges<E: EdgeList<K>, L: Ledger>(
        alloc: Global,
        edges: &E,
        steps: &mut Steps<L>,
    ) -> Result<Self, AllocError> {
        let edges = edges.edges();
        let mut table = Chains::empty(alloc, edges.vertices(), edges.len())?;
        link_each(&mut table, edges, steps);
        Ok(Linked { table })
    }

    fn link<L: Ledger>(&mut self, e: u32, ends: [u32; K], steps: &mut Steps<L>)
        requires free { IsFree self.old e }
        requires edge { IsEdge self.old.vertices ends }
        ensures links { self.new ≡ linked self.old e ends.entry }
        ensures steps { steps.new ≡ steps.old + K }
    {
        // For the proof alone: there are no more edges than a degree has room for.
        let _slots = self.table.slots();
        link_edge(&mut self.table, e, ends, steps);
    }

    fn unlink<L: Ledger>(&mut self, e: u32, ends: [u32; K], steps: &mut Steps<L>)
        requires linked { IsLinked self.old e ends }
        requires edge { IsEdge self.old.vertices ends }
        ensures links { self.new ≡ unlinked self.old e }
        ensures steps { steps.new ≡ steps.old + K }
    {
        unlink_edge(&mut self.table, e, ends, steps);
    }

    fn remove<L: Ledger>(
        &mut self,
        halves: &[Half],
        places: &mut [u32],
        steps: &mut Steps<L>,
    ) -> usize {
        remove_all(&mut self.table, halves, places, steps)
    }

    fn list_alone<L: Ledger>(&self, first: u32, places: &mut [u32], steps: &mut Steps<L>) -> usize {
        list_from(&self.table, first, places, steps)
    }

    fn degree<L: Ledger>(&self, v: u32, steps: &mut Steps<L>) -> u32 {
        steps.tick();
        self.table.degree_at(v)
    }

    fn sole<L: Ledger>(&self, v: u32, steps: &mut Steps<L>) -> u32 {
        steps.tick();
        self.table.place_at(v) / 4
    }
}
