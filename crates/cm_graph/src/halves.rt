//! What keeps half-edges one by one, and what is done with many of them over any such.
ghost use Rattle.std.specs.Prelude.{◌≡◌, ◌↔◌, ℕ, ◌+◌, ◌*◌, ◌/◌, ◌<◌, ◌≤◌, true, false, [], All, length, replicate, take};
ghost use Rattle.cm_spec.specs.Graph.{IsEdge};
ghost use Rattle.cm_graph_edges.specs.Graph.{Links, IsFree, IsLinked, IsWidth, AreDegreesWithin, AreHalves, all_linked, linked, unlinked, removed_all, places_of, alone_from, place_of, degree_of, sole_of, is_free, slot_touches};
ghost use Rattle.cm_graph.specs.Next.{AreNext, halves_at};
ghost use Rattle.cm_spec.specs.declared.limits.TheConstants.{MAX_EDGES};

use crate::slots::Slots;
use cm_graph_edges::{Edges, Half, Steps};
use std::sync::ledger::Ledger;

/// What keeps the half-edges of linked edges.
pub(crate) trait Halves: Sized {
    /// The half-edges, as an incidence has them.
    ghost kept: { Self → Links };

    /// The greatest degree that there is room for in a vertex.
    ghost most_degree: { ℕ };

    /// The slots, for proofs.
    fn slots(&self) -> Slots
        ensures slots { result.each ≡ (kept self.now).slots }
        ensures few { length result.each ≤ MAX_EDGES }
        ensures vertices { (kept self.now).vertices < 4294967296 };

    /// Adds a half-edge, with which the slots are `more`. Returns false, and changes nothing, if its vertex has the greatest degree
    /// already.
    fn put(&mut self, half: Half, more: Slots) -> bool
        requires vertex { half.vertex < (kept self.old).vertices }
        requires next { AreNext (kept self.old).slots more.each half }
        requires apart { slot_touches half.vertex (halves_at (kept self.old).slots (half.place / 4)) ≡ false }
        ensures ok { result ≡ true → kept self.new ≡ record { vertices = (kept self.old).vertices; slots = more.each } }
        ensures full { result ≡ false → kept self.new ≡ kept self.old }
        ensures room { (result ≡ true) ↔ (degree_of (kept self.old) half.vertex < most_degree) };

    /// Removes a half-edge, without which the slots are `less`.
    fn take_out(&mut self, half: Half, less: Slots)
        requires vertex { half.vertex < (kept self.old).vertices }
        requires next { AreNext less.each (kept self.old).slots half }
        ensures { kept self.new ≡ record { vertices = (kept self.old).vertices; slots = less.each } };

    /// How many half-edges lie in the vertex `v`.
    fn degree_at(&self, v: u32) -> u32
        requires { v < (kept self.now).vertices }
        ensures { result ≡ degree_of (kept self.now) v };

    /// The place of the one half-edge in the vertex `v`. If there isn't exactly one, it is any number.
    fn place_at(&self, v: u32) -> u32
        requires { v < (kept self.now).vertices }
        ensures place { is_free (kept self.now) v ≡ true → result ≡ place_of (kept self.now) v }
        ensures edge { is_free (kept self.now) v ≡ true → result / 4 ≡ sole_of (kept self.now) v };
}

/// Links the edge of number `e`. Returns false if there is no room for one of its half-edges.
pub(crate) fn link_edge<const K: usize, S: Halves, L: Ledger>(
    store: &mut S,
    e: u32,
    ends: [u32; K],
    steps: &mut Steps<L>,
) -> bool
    requires width { IsWidth K }
    requires free { IsFree (S.kept store.old) e }
    requires edge { IsEdge (S.kept store.old).vertices ends }
    ensures links { result ≡ true → S.kept store.new ≡ linked (S.kept store.old) e ends.entry }
    ensures all { AreDegreesWithin S.most_degree (linked (S.kept store.old) e ends.entry) → result ≡ true }
    ensures most { steps.new ≤ steps.old + K }
    ensures steps { result ≡ true → steps.new ≡ steps.old + K }
{
    for j in 0..K {
        let slots = store.slots();
        let half = Half {
            vertex: ends[j],
            place: 4 * e + j as u32,
        };
        if !store.put(half, slots.linked(e, &ends[..j + 1])) {
            return false;
        }
        steps.tick();
    }
    true
}

/// Unlinks the edge of number `e`, which is linked with these ends.
pub(crate) fn unlink_edge<const K: usize, S: Halves, L: Ledger>(
    store: &mut S,
    e: u32,
    ends: [u32; K],
    steps: &mut Steps<L>,
)
    requires width { IsWidth K }
    requires linked { IsLinked (S.kept store.old) e ends }
    requires edge { IsEdge (S.kept store.old).vertices ends }
    ensures links { S.kept store.new ≡ unlinked (S.kept store.old) e }
    ensures steps { steps.new ≡ steps.old + K }
{
    for j in (0..K).rev() {
        let slots = store.slots();
        let vertex = ends[j];
        let place = 4 * e + j as u32;
        store.take_out(Half { vertex, place }, slots.linked(e, &ends[..j]));
        steps.tick();
    }
}

/// Links all edges. No edge is linked before. Returns false if there is no room for one of their half-edges.
pub(crate) fn link_each<const K: usize, S: Halves, L: Ledger>(
    store: &mut S,
    edges: &Edges<K>,
    steps: &mut Steps<L>,
) -> bool
    requires none { S.kept store.old ≡ record { vertices = edges.now.vertices; slots = replicate (length edges.now.edges) [] } }
    ensures links { result ≡ true → S.kept store.new ≡ all_linked edges.now.vertices edges.now.edges }
    ensures all { AreDegreesWithin S.most_degree (all_linked edges.now.vertices edges.now.edges) → result ≡ true }
    ensures steps { steps.new ≤ steps.old + K * length edges.now.edges }
{
    for e in 0..edges.len() {
        if !link_edge(store, e, edges.ends(e), steps) {
            return false;
        }
    }
    true
}

/// Removes some half-edges.
fn take_each<S: Halves, L: Ledger>(store: &mut S, halves: &[Half], steps: &mut Steps<L>)
    requires vertices { All (λ h. h.vertex < (S.kept store.old).vertices) halves.now }
    requires halves { AreHalves (S.kept store.old) halves.now }
    ensures links { S.kept store.new ≡ removed_all (S.kept store.old) halves.now }
    ensures steps { steps.new ≡ steps.old + length halves.now }
{
    for half in halves {
        let slots = store.slots();
        store.take_out(*half, slots.removed(half.place));
        steps.tick();
    }
}

/// Lists the places of the half-edges that are alone in their vertices, for each vertex of these half-edges in turn.
fn list_lone<S: Halves, L: Ledger>(
    store: &S,
    halves: &[Half],
    places: &mut [u32],
    steps: &mut Steps<L>,
) -> usize
    requires vertices { All (λ h. h.vertex < (S.kept store.now).vertices) halves.now }
    requires room { length halves.now ≤ length places.old }
    ensures few { result ≤ length halves.now }
    ensures places { take result places.new ≡ places_of (S.kept store.now) halves.now }
    ensures steps { steps.new ≡ steps.old + length halves.now }
{
    let mut count = 0;
    for half in halves {
        places[count] = store.place_at(half.vertex);
        count += (store.degree_at(half.vertex) == 1) as usize;
        steps.tick();
    }
    count
}

/// Lists the places of the half-edges that are alone in a vertex, for as many vertices from `first` on as there is room for.
pub(crate) fn list_from<S: Halves, L: Ledger>(
    store: &S,
    first: u32,
    places: &mut [u32],
    steps: &mut Steps<L>,
) -> usize
    requires vertices { first + length places.old ≤ (S.kept store.now).vertices }
    ensures few { result ≤ length places.old }
    ensures places { take result places.new ≡ alone_from (S.kept store.now) first (length places.old) }
    ensures steps { steps.new ≡ steps.old + length places.old }
{
    let _slots = store.slots();
    let mut count = 0;
    for i in 0..places.len() {
        let v = first + i as u32;
        places[count] = store.place_at(v);
        count += (store.degree_at(v) == 1) as usize;
        steps.tick();
    }
    count
}

/// Removes some half-edges, and then lists those that are left alone in their vertices.
pub(crate) fn remove_all<S: Halves, L: Ledger>(
    store: &mut S,
    halves: &[Half],
    places: &mut [u32],
    steps: &mut Steps<L>,
) -> usize
    requires vertices { All (λ h. h.vertex < (S.kept store.old).vertices) halves.now }
    requires halves { AreHalves (S.kept store.old) halves.now }
    requires room { length halves.now ≤ length places.old }
    ensures links { S.kept store.new ≡ removed_all (S.kept store.old) halves.now }
    ensures few { result ≤ length halves.now }
    ensures places { take result places.new ≡ places_of (S.kept store.new) halves.now }
    ensures steps { steps.new ≡ steps.old + 2 * length halves.now }
{
    take_each(store, halves, steps);
    list_lone(store, halves, places, steps)
}
