//! A degree and a xor of places for each vertex, in 4 bytes.
ghost use Rattle.std.specs.Prelude.{◌≡◌, ◌≤◌, IfOk, [], replicate, length};

use crate::halves::Halves;
use crate::slots::Slots;
use cm_graph_edges::Half;
use std::alloc::{AllocError, Global};
use std::marker::Model;

/// The most edges: their places take 26 bits.
pub(crate) const MOST_EDGES: u32 = 16_777_216;

/// What one half-edge adds to a word: its degree stands above the 26 bits of the xor.
const ONE: u32 = 67_108_864;

/// The greatest degree, which a word has 6 bits for.
const MOST_DEGREE: u32 = 63;

/// A degree and a xor for each vertex, 4 bytes together, as long as there are few edges and no degree is great.
#[derive(Drop)]
pub(crate) struct Narrow {
    words: Vec<u32>,
    slots: Slots,
}

impl Model for Narrow {
    ghost use Rattle.std.specs.Prelude.{◌≤◌, length, map};
    ghost use Rattle.cm_graph_edges.specs.Graph.{Links};
    ghost use Rattle.cm_graph.specs.Kept.{AreKept, vertex_of};

    ghost Value = { Links };

    ghost view = { λ x. record { vertices = length x.words.items; slots = x.slots.each } };

    ghost invariant = { λ x. AreKept (map vertex_of x.words.items) x.slots.each × (length x.slots.each ≤ 16777216) };
}

impl Narrow {
    /// No half-edge, over `vertices` vertices, with edge numbers below `edges`.
    pub(crate) fn empty(alloc: Global, vertices: u32, edges: u32) -> Result<Self, AllocError>
        requires edges { edges ≤ 16777216 }
        ensures { IfOk result (λ made. made ≡ record { vertices = vertices; slots = replicate edges [] }) }
    {
        Ok(Narrow {
            words: vec![in alloc; 0; vertices as usize]?,
            slots: Slots::none(edges),
        })
    }
}

impl Halves for Narrow {
    ghost kept = { λ x. x };

    ghost most_degree = { 63 };

    fn slots(&self) -> Slots {
        self.slots.same()
    }

    fn put(&mut self, half: Half, more: Slots) -> bool {
        let word = self.words[half.vertex as usize];
        if word / ONE >= MOST_DEGREE {
            return false;
        }
        // The place has 26 bits, so that the degree above the xor is left as it is.
        self.words[half.vertex as usize] = (word ^ half.place) + ONE;
        self.slots = more;
        true
    }

    fn take_out(&mut self, half: Half, less: Slots) {
        let word = self.words[half.vertex as usize];
        self.words[half.vertex as usize] = (word ^ half.place) - ONE;
        self.slots = less;
    }

    fn degree_at(&self, v: u32) -> u32 {
        self.words[v as usize] / ONE
    }

    fn place_at(&self, v: u32) -> u32 {
        self.words[v as usize] % ONE
    }
}
