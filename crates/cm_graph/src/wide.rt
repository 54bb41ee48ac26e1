//! A degree and a xor of places for each vertex, in 8 bytes.
ghost use Rattle.std.specs.Prelude.{◌≡◌, ◌≤◌, IfOk, [], replicate, length};
ghost use Rattle.cm_graph_edges.specs.Graph.{Links};
ghost use Rattle.cm_spec.specs.declared.limits.TheConstants.{MAX_EDGES};

use crate::halves::Halves;
use crate::slots::Slots;
use cm_graph_edges::Half;
use std::alloc::{AllocError, Global};
use std::marker::Model;

/// How many half-edges lie in a vertex, and the xor of their places.
#[derive(Clone, Copy)]
struct Vertex {
    degree: u32,
    places: u32,
}

/// A degree and a xor for each vertex, 8 bytes together.
#[derive(Drop)]
pub(crate) struct Wide {
    vertices: Vec<Vertex>,
    slots: Slots,
}

impl Model for Wide {
    ghost use Rattle.std.specs.Prelude.{length};
    ghost use Rattle.cm_graph_edges.specs.Graph.{Links};
    ghost use Rattle.cm_graph.specs.Kept.{AreKept};

    ghost Value = { Links };

    ghost view = { λ x. record { vertices = length x.vertices.items; slots = x.slots.each } };

    ghost invariant = { λ x. AreKept x.vertices.items x.slots.each };
}

impl Wide {
    /// No half-edge, over `vertices` vertices, with edge numbers below `edges`.
    pub(crate) fn empty(alloc: Global, vertices: u32, edges: u32) -> Result<Self, AllocError>
        requires edges { edges ≤ MAX_EDGES }
        ensures { IfOk result (λ made. made ≡ record { vertices = vertices; slots = replicate edges [] }) }
    {
        let none = Vertex {
            degree: 0,
            places: 0,
        };
        Ok(Wide {
            vertices: vec![in alloc; none; vertices as usize]?,
            slots: Slots::none(edges),
        })
    }
}

impl Halves for Wide {
    ghost kept = { λ x. x };

    // No more edges than that can be linked.
    ghost most_degree = { MAX_EDGES };

    fn slots(&self) -> Slots {
        self.slots.same()
    }

    fn put(&mut self, half: Half, more: Slots) -> bool {
        let vertex = &mut self.vertices[half.vertex as usize];
        vertex.degree += 1;
        vertex.places ^= half.place;
        self.slots = more;
        true
    }

    fn take_out(&mut self, half: Half, less: Slots) {
        let vertex = &mut self.vertices[half.vertex as usize];
        vertex.degree -= 1;
        vertex.places ^= half.place;
        self.slots = less;
    }

    fn degree_at(&self, v: u32) -> u32 {
        self.vertices[v as usize].degree
    }

    fn place_at(&self, v: u32) -> u32 {
        self.vertices[v as usize].places
    }
}
