//! An incidence that keeps for each vertex its degree, and the xor of the places of its half-edges.
ghost use Rattle.std.specs.Prelude.{◌≡◌, ◌+◌, ◌*◌, ◌<◌, ◌≤◌, All, IfOk, IsSome, length, take, true, false};
ghost use Rattle.std.specs.Option.{ForSome};
ghost use Rattle.cm_spec.specs.Graph.{IsEdge};
ghost use Rattle.cm_graph_edges.specs.Graph.{AreHalves, IsFree, IsLinked, IsWidth, alone_from, all_linked, degree_of, linked, places_of, removed_all, sole_of, unlinked};
ghost use Rattle.cm_graph.specs.Choice.{FitNarrow, seen_of};

use crate::blocks::link_all;
use crate::halves::{Halves, link_edge, list_from, remove_all, unlink_edge};
use crate::narrow::{MOST_EDGES, Narrow};
use crate::wide::Wide;
use cm_graph_edges::{EdgeList, Edges, Half, Incidence, Steps};
use std::alloc::{AllocError, Global};
use std::marker::Model;
use std::sync::ledger::Ledger;

/// A word for each vertex, of 4 bytes or of 8.
#[derive(Drop)]
enum Table {
    Narrow(Narrow),
    Wide(Wide),
}

/// All edges in words of 4 bytes, if these suffice.
fn narrow_of<const K: usize, L: Ledger>(
    alloc: Global,
    edges: &Edges<K>,
    steps: &mut Steps<L>,
) -> Result<Option<Narrow>, AllocError>
    ensures links { IfOk result (λ made. ForSome made (λ words. words ≡ all_linked edges.now.vertices edges.now.edges)) }
    ensures narrow { FitNarrow edges.now.vertices edges.now.edges → IfOk result (λ made. IsSome made) }
    ensures steps { steps.new ≤ steps.old + K * length edges.now.edges }
{
    if edges.len() > MOST_EDGES {
        return Ok(None);
    }
    let mut words = Narrow::empty(alloc, edges.vertices(), edges.len())?;
    if link_all(alloc, &mut words, edges, steps)? {
        Ok(Some(words))
    } else {
        Ok(None)
    }
}

/// All edges in words of 8 bytes.
fn wide_of<const K: usize, L: Ledger>(
    alloc: Global,
    edges: &Edges<K>,
    steps: &mut Steps<L>,
) -> Result<Wide, AllocError>
    ensures links { IfOk result (λ words. words ≡ all_linked edges.now.vertices edges.now.edges) }
    ensures steps { steps.new ≤ steps.old + K * length edges.now.edges }
{
    let mut words = Wide::empty(alloc, edges.vertices(), edges.len())?;
    link_all(alloc, &mut words, edges, steps)?;
    Ok(words)
}

impl Table {
    /// All edges, in narrow words if these suffice. The narrow words are freed before wide ones are allocated.
    fn from_edges<const K: usize, L: Ledger>(
        alloc: Global,
        edges: &Edges<K>,
        steps: &mut Steps<L>,
    ) -> Result<Self, AllocError>
        ensures links { IfOk result (λ made. (seen_of made).links ≡ all_linked edges.now.vertices edges.now.edges) }
        ensures narrow { FitNarrow edges.now.vertices edges.now.edges → IfOk result (λ made. (seen_of made).takes ≡ false) }
        ensures steps { steps.new ≤ steps.old + 2 * (K * length edges.now.edges) }
    {
        match narrow_of(alloc, edges, steps)? {
            Some(words) => Ok(Table::Narrow(words)),
            None => Ok(Table::Wide(wide_of(alloc, edges, steps)?)),
        }
    }

    /// Links an edge in wide words.
    fn link<const K: usize, L: Ledger>(&mut self, e: u32, ends: [u32; K], steps: &mut Steps<L>)
        requires width { IsWidth K }
        requires takes { (seen_of self.old).takes ≡ true }
        requires free { IsFree (seen_of self.old).links e }
        requires edge { IsEdge (seen_of self.old).links.vertices ends }
        ensures links { (seen_of self.new).links ≡ linked (seen_of self.old).links e ends.entry }
        ensures takes { (seen_of self.new).takes ≡ true }
        ensures steps { steps.new ≡ steps.old + K }
    {
        match self {
            Table::Narrow(_) => unreachable!(),
            Table::Wide(words) => {
                // For the proof alone: there are no more edges than a degree has room for.
                let _slots = words.slots();
                link_edge(words, e, ends, steps);
            }
        }
    }

    /// Unlinks an edge.
    fn unlink<const K: usize, L: Ledger>(&mut self, e: u32, ends: [u32; K], steps: &mut Steps<L>)
        requires width { IsWidth K }
        requires linked { IsLinked (seen_of self.old).links e ends }
        requires edge { IsEdge (seen_of self.old).links.vertices ends }
        ensures links { (seen_of self.new).links ≡ unlinked (seen_of self.old).links e }
        ensures takes { (seen_of self.new).takes ≡ (seen_of self.old).takes }
        ensures steps { steps.new ≡ steps.old + K }
    {
        match self {
            Table::Narrow(words) => unlink_edge(words, e, ends, steps),
            Table::Wide(words) => unlink_edge(words, e, ends, steps),
        }
    }

    /// Removes half-edges, and lists those that are left alone in their vertices.
    fn remove<L: Ledger>(
        &mut self,
        halves: &[Half],
        places: &mut [u32],
        steps: &mut Steps<L>,
    ) -> usize
        requires vertices { All (λ h. h.vertex < (seen_of self.old).links.vertices) halves.now }
        requires halves { AreHalves (seen_of self.old).links halves.now }
        requires room { length halves.now ≤ length places.old }
        ensures links { (seen_of self.new).links ≡ removed_all (seen_of self.old).links halves.now }
        ensures takes { (seen_of self.new).takes ≡ (seen_of self.old).takes }
        ensures few { result ≤ length halves.now }
        ensures places { take result places.new ≡ places_of (seen_of self.new).links halves.now }
        ensures steps { steps.new ≡ steps.old + 2 * length halves.now }
    {
        match self {
            Table::Narrow(words) => remove_all(words, halves, places, steps),
            Table::Wide(words) => remove_all(words, halves, places, steps),
        }
    }

    /// Lists the half-edges that are alone in one of the vertices from `first` on.
    fn list_alone<L: Ledger>(&self, first: u32, places: &mut [u32], steps: &mut Steps<L>) -> usize
        requires vertices { first + length places.old ≤ (seen_of self.now).links.vertices }
        ensures few { result ≤ length places.old }
        ensures places { take result places.new ≡ alone_from (seen_of self.now).links first (length places.old) }
        ensures steps { steps.new ≡ steps.old + length places.old }
    {
        match self {
            Table::Narrow(words) => list_from(words, first, places, steps),
            Table::Wide(words) => list_from(words, first, places, steps),
        }
    }

    /// The degree of a vertex.
    fn degree(&self, v: u32) -> u32
        requires { v < (seen_of self.now).links.vertices }
        ensures { result ≡ degree_of (seen_of self.now).links v }
    {
        match self {
            Table::Narrow(words) => words.degree_at(v),
            Table::Wide(words) => words.degree_at(v),
        }
    }

    /// The edge of a vertex of degree one.
    fn sole(&self, v: u32) -> u32
        requires vertex { v < (seen_of self.now).links.vertices }
        requires one { degree_of (seen_of self.now).links v ≡ 1 }
        ensures { result ≡ sole_of (seen_of self.now).links v }
    {
        let place = match self {
            Table::Narrow(words) => words.place_at(v),
            Table::Wide(words) => words.place_at(v),
        };
        place / 4
    }
}

/// A degree and a xor for each vertex. `from_edges` takes 4 bytes for both if there are at most 16,777,216 edges, and at most 63 of
/// them in one vertex; else, and in `empty`, they take 8 bytes. Over more than 2,097,152 vertices `from_edges` takes 4 bytes an edge
/// more until it returns.
#[derive(Drop)]
pub struct Xored<const K: usize> {
    table: Table,
}

impl<const K: usize> Model for Xored<K> {
    ghost use Rattle.cm_graph_edges.specs.Graph.{IsWidth};
    ghost use Rattle.cm_graph.specs.Choice.{Seen, seen_of};

    ghost Value = { Seen };

    ghost view = { λ x. seen_of x.table };

    ghost invariant = { λ x. IsWidth K };
}

impl<const K: usize> Incidence<K> for Xored<K> {
    ghost links = { λ x. x.links };

    ghost takes = { λ x. x.takes };

    fn empty(alloc: Global, vertices: u32, edges: u32) -> Result<Self, AllocError> {
        Ok(Xored {
            table: Table::Wide(Wide::empty(alloc, vertices, edges)?),
        })
    }

    fn from_edges<E: EdgeList<K>, L: Ledger>(
        alloc: Global,
        edges: &E,
        steps: &mut Steps<L>,
    ) -> Result<Self, AllocError>
        ensures links { IfOk result (λ made. made.links ≡ all_linked (E.graph edges.now).vertices (E.graph edges.now).edges) }
        ensures narrow { FitNarrow (E.graph edges.now).vertices (E.graph edges.now).edges → IfOk result (λ made. made.takes ≡ false) }
        ensures steps { steps.new ≤ steps.old + 2 * (K * length (E.graph edges.now).edges) }
    {
        let edges = edges.edges();
        // For the proof alone: an edge has two or three ends.
        let _many = edges.len();
        Ok(Xored {
            table: Table::from_edges(alloc, edges, steps)?,
        })
    }

    fn link<L: Ledger>(&mut self, e: u32, ends: [u32; K], steps: &mut Steps<L>)
        requires takes { self.old.takes ≡ true }
        requires free { IsFree self.old.links e }
        requires edge { IsEdge self.old.links.vertices ends }
        ensures links { self.new.links ≡ linked self.old.links e ends.entry }
        ensures takes { self.new.takes ≡ true }
        ensures steps { steps.new ≡ steps.old + K }
    {
        self.table.link(e, ends, steps);
    }

    fn unlink<L: Ledger>(&mut self, e: u32, ends: [u32; K], steps: &mut Steps<L>)
        requires linked { IsLinked self.old.links e ends }
        requires edge { IsEdge self.old.links.vertices ends }
        ensures links { self.new.links ≡ unlinked self.old.links e }
        ensures takes { self.new.takes ≡ self.old.takes }
        ensures steps { steps.new ≡ steps.old + K }
    {
        self.table.unlink(e, ends, steps);
    }

    fn remove<L: Ledger>(
        &mut self,
        halves: &[Half],
        places: &mut [u32],
        steps: &mut Steps<L>,
    ) -> usize {
        self.table.remove(halves, places, steps)
    }

    fn list_alone<L: Ledger>(&self, first: u32, places: &mut [u32], steps: &mut Steps<L>) -> usize {
        self.table.list_alone(first, places, steps)
    }

    fn degree<L: Ledger>(&self, v: u32, steps: &mut Steps<L>) -> u32 {
        steps.tick();
        self.table.degree(v)
    }

    fn sole<L: Ledger>(&self, v: u32, steps: &mut Steps<L>) -> u32 {
        steps.tick();
        self.table.sole(v)
    }
}
