//! The slots of an incidence, which only proofs read.
ghost use Rattle.std.specs.Prelude.{◌≡◌, ℕ, ◌/◌, ◌%◌, List, [], Option, None, replicate, slice_set, slice_index_or};
ghost use Rattle.std.specs.Borrow.{ftrue};
ghost use Rattle.cm_graph_edges.specs.Graph.{halves_of};
ghost use Rattle.cm_graph.specs.Next.{with_half};

use std::marker::Model;

/// For each edge number its half-edges, if the edge of that number is linked. It takes no bytes, and its methods do nothing at run
/// time.
#[derive(Drop)]
pub(crate) struct Slots {
    pub ghost each: { List (List (Option ℕ)) },
}

impl Model for Slots {
    ghost also_owns = { λ _. ftrue };
}

impl Slots {
    /// No edge linked, with edge numbers below `_edges`.
    pub(crate) fn none(_edges: u32) -> Slots
        ensures { result.each ≡ replicate _edges [] }
    {
        Slots {}
    }

    /// The same slots.
    pub(crate) fn same(&self) -> Slots
        ensures { result.each ≡ self.now.each }
    {
        Slots {}
    }

    /// With an edge linked.
    pub(crate) fn linked(&self, _e: u32, _ends: &[u32]) -> Slots
        ensures { result.each ≡ slice_set self.now.each _e (halves_of _ends.now) }
    {
        Slots {}
    }

    /// Without the half-edge at a place.
    pub(crate) fn removed(&self, _place: u32) -> Slots
        ensures { result.each ≡ slice_set self.now.each (_place / 4) (slice_set (slice_index_or self.now.each (_place / 4) []) (_place % 4) None) }
    {
        Slots {}
    }

    /// With a half-edge.
    pub(crate) fn with(&self, _vertex: u32, _place: u32) -> Slots
        ensures { result.each ≡ slice_set self.now.each (_place / 4) (with_half (slice_index_or self.now.each (_place / 4) []) (_place % 4) _vertex) }
    {
        Slots {}
    }
}
