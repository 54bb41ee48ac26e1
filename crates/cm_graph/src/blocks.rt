//! Linking by blocks of vertices: half-edges wait in a bucket for each block, and a full bucket is emptied into the words of its block.
ghost use Rattle.std.specs.Prelude.{◌≡◌, ◌≢◌, ◌+◌, ◌*◌, ◌<◌, ◌≤◌, true, [], IfOk, length, replicate};
ghost use Rattle.cm_graph_edges.specs.Graph.{AreDegreesWithin, all_linked};
ghost use Rattle.cm_graph.specs.Waiting.{AreSplit, IsEnd, IsSame, IsMore, AreFirst, count_waiting, times_of, waiting_in};
ghost use Rattle.cm_spec.specs.declared.limits.TheConstants.{MAX_EDGES};

use crate::halves::{Halves, link_each};
use cm_graph_edges::{Edges, Half, Steps};
use std::alloc::{AllocError, Global};
use std::sync::ledger::Ledger;

/// How many vertices a block has. Their words fit in the L2 cache together.
const BLOCK: u32 = 65_536;

/// Up to this many vertices, half-edges are put into the words directly: blocks gain nothing there.
const MOST_DIRECT: u32 = 2_097_152;

/// The least room of a bucket: with less, a bucket is emptied too often for its block to stay in the cache.
const LEAST_ROOM: u32 = 64;

/// Empty buckets for the blocks of these vertices, each with room for `room` half-edges.
pub(crate) fn new_buckets(
    alloc: Global,
    vertices: u32,
    room: usize,
) -> Result<Vec<Vec<Half>>, AllocError>
    ensures many { IfOk result (λ made. vertices < 65536 * length made.items) }
    ensures none { IfOk result (λ made. (b : _) → waiting_in made.items b ≡ []) }
{
    let mut buckets = Vec::new(alloc);
    for _b in 0..vertices / BLOCK + 1 {
        buckets.push(Vec::with_capacity(alloc, room)?)?;
    }
    Ok(buckets)
}

/// Puts the half-edges of a bucket into the words. Returns false if there is no room for one of them.
fn empty_bucket<const K: usize, S: Halves, L: Ledger>(
    store: &mut S,
    buckets: &mut Vec<Vec<Half>>,
    b: usize,
    _edges: &Edges<K>,
    steps: &mut Steps<L>,
) -> bool
    requires bucket { b < length buckets.old.items }
    requires split { AreSplit K _edges.now.vertices _edges.now.edges (S.kept store.old) buckets.old.items }
    ensures split { result ≡ true → AreSplit K _edges.now.vertices _edges.now.edges (S.kept store.new) buckets.new.items }
    ensures same { result ≡ true → IsSame (S.kept store.old).slots buckets.old.items (S.kept store.new).slots buckets.new.items }
    ensures none { result ≡ true → waiting_in buckets.new.items b ≡ [] }
    ensures others { result ≡ true → (i : _) → i ≢ b → waiting_in buckets.new.items i ≡ waiting_in buckets.old.items i }
    ensures many { length buckets.new.items ≡ length buckets.old.items }
    ensures all { AreDegreesWithin S.most_degree (all_linked _edges.now.vertices _edges.now.edges) → result ≡ true }
    ensures steps { steps.new + count_waiting buckets.new.items ≤ steps.old + count_waiting buckets.old.items }
{
    for _i in 0..buckets[b].len() {
        match buckets[b].pop() {
            Some(half) => {
                let slots = store.slots();
                if !store.put(half, slots.with(half.vertex, half.place)) {
                    return false;
                }
                steps.tick();
            }
            None => return true,
        }
    }
    true
}

/// Adds a half-edge to the bucket of its vertex, which is emptied if it is full then. Returns false if there is no room in the words.
fn add<const K: usize, S: Halves, L: Ledger>(
    store: &mut S,
    buckets: &mut Vec<Vec<Half>>,
    half: Half,
    edges: &Edges<K>,
    steps: &mut Steps<L>,
) -> Result<bool, AllocError>
    requires vertex { half.vertex < 65536 * length buckets.old.items }
    requires split { AreSplit K edges.now.vertices edges.now.edges (S.kept store.old) buckets.old.items }
    requires end { IsEnd K edges.now.edges half }
    requires new { times_of half.place (S.kept store.old).slots buckets.old.items ≡ 0 }
    ensures split { IfOk result (λ all. all ≡ true → AreSplit K edges.now.vertices edges.now.edges (S.kept store.new) buckets.new.items) }
    ensures more { IfOk result (λ all. all ≡ true → IsMore half.place (S.kept store.old).slots buckets.old.items (S.kept store.new).slots buckets.new.items) }
    ensures many { IfOk result (λ _. length buckets.new.items ≡ length buckets.old.items) }
    ensures all { AreDegreesWithin S.most_degree (all_linked edges.now.vertices edges.now.edges) → IfOk result (λ all. all ≡ true) }
    ensures steps { steps.new + count_waiting buckets.new.items ≤ steps.old + count_waiting buckets.old.items + 1 }
{
    let b = (half.vertex / BLOCK) as usize;
    buckets[b].push(half)?;
    if buckets[b].len() < buckets[b].capacity() {
        return Ok(true);
    }
    Ok(empty_bucket(store, buckets, b, edges, steps))
}

/// Adds the half-edges of the edge of number `e`. Returns false if there is no room for one of them.
fn add_edge<const K: usize, S: Halves, L: Ledger>(
    store: &mut S,
    buckets: &mut Vec<Vec<Half>>,
    e: u32,
    edges: &Edges<K>,
    steps: &mut Steps<L>,
) -> Result<bool, AllocError>
    requires edge { e < length edges.now.edges }
    requires few { length edges.now.edges ≤ MAX_EDGES }
    requires many { edges.now.vertices < 65536 * length buckets.old.items }
    requires split { AreSplit K edges.now.vertices edges.now.edges (S.kept store.old) buckets.old.items }
    requires first { AreFirst K (4 * e) (S.kept store.old).slots buckets.old.items }
    ensures split { IfOk result (λ all. all ≡ true → AreSplit K edges.now.vertices edges.now.edges (S.kept store.new) buckets.new.items) }
    ensures first { IfOk result (λ all. all ≡ true → AreFirst K (4 * (e + 1)) (S.kept store.new).slots buckets.new.items) }
    ensures many { IfOk result (λ _. length buckets.new.items ≡ length buckets.old.items) }
    ensures all { AreDegreesWithin S.most_degree (all_linked edges.now.vertices edges.now.edges) → IfOk result (λ all. all ≡ true) }
    ensures steps { steps.new + count_waiting buckets.new.items ≤ steps.old + count_waiting buckets.old.items + K }
{
    let ends = edges.ends(e);
    for j in 0..K {
        let half = Half {
            vertex: ends[j],
            place: 4 * e + j as u32,
        };
        if !add(store, buckets, half, edges, steps)? {
            return Ok(false);
        }
    }
    Ok(true)
}

/// Adds all half-edges to the buckets, and empties each that is full. Returns false if there is no room for one of them.
fn add_all<const K: usize, S: Halves, L: Ledger>(
    store: &mut S,
    buckets: &mut Vec<Vec<Half>>,
    edges: &Edges<K>,
    steps: &mut Steps<L>,
) -> Result<bool, AllocError>
    requires many { edges.now.vertices < 65536 * length buckets.old.items }
    requires split { AreSplit K edges.now.vertices edges.now.edges (S.kept store.old) buckets.old.items }
    requires first { AreFirst K 0 (S.kept store.old).slots buckets.old.items }
    ensures split { IfOk result (λ all. all ≡ true → AreSplit K edges.now.vertices edges.now.edges (S.kept store.new) buckets.new.items) }
    ensures first { IfOk result (λ all. all ≡ true → AreFirst K (4 * length edges.now.edges) (S.kept store.new).slots buckets.new.items) }
    ensures all { AreDegreesWithin S.most_degree (all_linked edges.now.vertices edges.now.edges) → IfOk result (λ all. all ≡ true) }
    ensures steps { steps.new + count_waiting buckets.new.items ≤ steps.old + count_waiting buckets.old.items + K * length edges.now.edges }
{
    for e in 0..edges.len() {
        if !add_edge(store, buckets, e, edges, steps)? {
            return Ok(false);
        }
    }
    Ok(true)
}

/// Empties all buckets; then all edges are linked. Returns false if there is no room for one of their half-edges.
fn empty_all<const K: usize, S: Halves, L: Ledger>(
    store: &mut S,
    buckets: &mut Vec<Vec<Half>>,
    edges: &Edges<K>,
    steps: &mut Steps<L>,
) -> bool
    requires split { AreSplit K edges.now.vertices edges.now.edges (S.kept store.old) buckets.old.items }
    requires first { AreFirst K (4 * length edges.now.edges) (S.kept store.old).slots buckets.old.items }
    ensures links { result ≡ true → S.kept store.new ≡ all_linked edges.now.vertices edges.now.edges }
    ensures all { AreDegreesWithin S.most_degree (all_linked edges.now.vertices edges.now.edges) → result ≡ true }
    ensures steps { steps.new + count_waiting buckets.new.items ≤ steps.old + count_waiting buckets.old.items }
{
    for b in 0..buckets.len() {
        if !empty_bucket(store, buckets, b, edges, steps) {
            return false;
        }
    }
    true
}

/// Links all edges by blocks, with room for `room` half-edges in each bucket. No edge is linked before. Returns false if there is no
/// room in the words for one of their half-edges.
pub(crate) fn link_blocks<const K: usize, S: Halves, L: Ledger>(
    alloc: Global,
    store: &mut S,
    edges: &Edges<K>,
    room: usize,
    steps: &mut Steps<L>,
) -> Result<bool, AllocError>
    requires none { S.kept store.old ≡ record { vertices = edges.now.vertices; slots = replicate (length edges.now.edges) [] } }
    ensures links { IfOk result (λ all. all ≡ true → S.kept store.new ≡ all_linked edges.now.vertices edges.now.edges) }
    ensures all { AreDegreesWithin S.most_degree (all_linked edges.now.vertices edges.now.edges) → IfOk result (λ all. all ≡ true) }
    ensures steps { steps.new ≤ steps.old + K * length edges.now.edges }
{
    // For the proof alone: the edges have their ends below the number of vertices.
    let _many = edges.len();
    let mut buckets = new_buckets(alloc, edges.vertices(), room)?;
    if !add_all(store, &mut buckets, edges, steps)? {
        return Ok(false);
    }
    Ok(empty_all(store, &mut buckets, edges, steps))
}

/// Links all edges: by blocks, if there are many vertices and room for enough half-edges of each block. No edge is linked before.
/// Returns false if there is no room in the words for one of their half-edges.
pub(crate) fn link_all<const K: usize, S: Halves, L: Ledger>(
    alloc: Global,
    store: &mut S,
    edges: &Edges<K>,
    steps: &mut Steps<L>,
) -> Result<bool, AllocError>
    requires none { S.kept store.old ≡ record { vertices = edges.now.vertices; slots = replicate (length edges.now.edges) [] } }
    ensures links { IfOk result (λ all. all ≡ true → S.kept store.new ≡ all_linked edges.now.vertices edges.now.edges) }
    ensures all { AreDegreesWithin S.most_degree (all_linked edges.now.vertices edges.now.edges) → IfOk result (λ all. all ≡ true) }
    ensures steps { steps.new ≤ steps.old + K * length edges.now.edges }
{
    let blocks = edges.vertices() / BLOCK + 1;
    let room = edges.len() / 2 / blocks;
    if edges.vertices() <= MOST_DIRECT || room < LEAST_ROOM {
        return Ok(link_each(store, edges, steps));
    }
    link_blocks(alloc, store, edges, room as usize, steps)
}
