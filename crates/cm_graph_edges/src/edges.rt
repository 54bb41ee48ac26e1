//! A list of edges over vertices, each with `K` ends.
ghost use Rattle.std.specs.Prelude.{◌≡◌, ◌<◌, ◌≤◌, [], ◌∷◌, ◌++◌, length, map, All, IfOk, IsOk, OnOk, OnErr, slice_get, Some};
ghost use Rattle.cm_spec.specs.Graph.{IsEdge, AreEdges, ends_at};
ghost use Rattle.cm_graph_edges.specs.Graph.{Graph, IsWidth};
ghost use Rattle.cm_spec.specs.declared.limits.TheConstants.{MAX_EDGES, MAX_VERTICES};

use std::alloc::{AllocError, Global};
use std::marker::Model;

/// A list of edges with two or three ends each. Clauses see the number of vertices, the ends of each edge in order, and for how many
/// edges there is room.
#[derive(Drop)]
pub struct Edges<const K: usize> {
    vertices: u32,
    room: u32,
    ends: Vec<[u32; K]>,
}

impl<const K: usize> Model for Edges<K> {
    ghost use Rattle.std.specs.Prelude.{ℕ, ◌≤◌, length, vec_capacity};
    ghost use Rattle.cm_spec.specs.Graph.{AreEdges};
    ghost use Rattle.cm_graph_edges.specs.Graph.{Graph, IsWidth};
    ghost use Rattle.cm_spec.specs.declared.limits.TheConstants.{MAX_EDGES, MAX_VERTICES};

    ghost Value = { Graph };

    ghost view = { λ g. record { vertices = g.vertices; room = g.room; edges = g.ends.items } };

    ghost invariant = { λ g. IsWidth K × (g.vertices ≤ MAX_VERTICES) × (length g.ends.items ≤ MAX_EDGES) × (g.room ≤ MAX_EDGES) × (g.room ≤ vec_capacity g.ends) × AreEdges K g.vertices g.ends.items };
}

/// What lends a list of edges. `Incidence::from_edges` asks for one by this bound, since no impl at a type that has `K` itself is proved
/// to meet a method whose arguments name `K` before `Self`.
pub trait EdgeList<const K: usize> {
    /// The list as contracts see it.
    ghost graph: { Self → Graph };

    /// The list.
    fn edges(&self) -> &Edges<K>
        ensures { result.now ≡ graph self.now };
}

impl<const K: usize> EdgeList<K> for Edges<K> {
    ghost graph = { λ g. g };

    fn edges(&self) -> &Edges<K> {
        self
    }
}

impl<const K: usize> Edges<K> {
    /// No edge yet, over `n` vertices, and room for none.
    pub fn new(alloc: Global, n: u32) -> Self
        requires width { IsWidth K }
        requires few { n ≤ MAX_VERTICES }
        ensures vertices { result.vertices ≡ n }
        ensures room { result.room ≡ 0 }
        ensures edges { result.edges ≡ [] }
    {
        Edges {
            vertices: n,
            room: 0,
            ends: Vec::new(alloc),
        }
    }

    /// No edge yet, over `n` vertices, and room for `room` edges. Their memory is taken here, so `push` doesn't fail within this room.
    pub fn with_capacity(alloc: Global, n: u32, room: u32) -> Result<Self, AllocError>
        requires width { IsWidth K }
        requires few { n ≤ MAX_VERTICES }
        requires room { room ≤ MAX_EDGES }
        ensures vertices { IfOk result (λ made. made.vertices ≡ n) }
        ensures room { IfOk result (λ made. made.room ≡ room) }
        ensures edges { IfOk result (λ made. made.edges ≡ []) }
    {
        Ok(Edges {
            vertices: n,
            room,
            ends: Vec::with_capacity(alloc, room as usize)?,
        })
    }

    /// Adds an edge. If memory runs out, nothing changes. It doesn't run out while there is room.
    pub fn push(&mut self, ends: [u32; K]) -> Result<(), AllocError>
        requires room { length self.old.edges < MAX_EDGES }
        requires edge { IsEdge self.old.vertices ends }
        ensures ok { OnOk result (self.new ≡ record self.old { edges = self.old.edges ++ ends.entry ∷ [] }) }
        ensures err { OnErr result (self.new ≡ self.old) }
        ensures room { length self.old.edges < self.old.room → IsOk result }
    {
        self.ends.push(ends)?;
        Ok(())
    }

    /// Adds an edge, for which there is room.
    pub fn push_reserved(&mut self, ends: [u32; K])
        requires room { length self.old.edges < self.old.room }
        requires edge { IsEdge self.old.vertices ends }
        ensures { self.new ≡ record self.old { edges = self.old.edges ++ ends.entry ∷ [] } }
    {
        self.ends.push_reserved(ends);
    }

    /// How many edges there are.
    pub fn len(&self) -> u32
        ensures count { result ≡ length self.now.edges }
        ensures bound { result ≤ MAX_EDGES }
        ensures width { IsWidth K }
        ensures edges { AreEdges K self.now.vertices self.now.edges }
    {
        self.ends.len() as u32
    }

    /// How many vertices there are.
    pub fn vertices(&self) -> u32
        ensures count { result ≡ self.now.vertices }
        ensures bound { result ≤ MAX_VERTICES }
    {
        self.vertices
    }

    /// The ends of the edge at place `e`, from 0.
    pub fn ends(&self, e: u32) -> [u32; K]
        requires { e < length self.now.edges }
        ensures ends { slice_get self.now.edges e ≡ Some result }
        ensures edge { IsEdge self.now.vertices result }
        ensures width { IsWidth K }
    {
        self.ends[e as usize]
    }

    /// Reads the ends of the edges at some places into a list of the same length.
    pub fn gather(&self, chunk: &[u32], ends: &mut [[u32; K]])
        requires places { All (λ e. e < length self.now.edges) chunk.now }
        requires long { length ends.old ≡ length chunk.now }
        ensures ends { ends.new ≡ map (ends_at self.now.edges) chunk.now }
        ensures edges { All (λ each. IsEdge self.now.vertices each) ends.new }
    {
        for (i, e) in chunk.iter().enumerate() {
            ends[i] = self.ends(*e);
        }
    }
}
