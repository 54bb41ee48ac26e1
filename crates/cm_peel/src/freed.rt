//! The places that a round by blocks frees. They wait until many of them lie in one block of edges, so that the bytes and marks of a
//! block are read and written while they are in the L2 cache.
ghost use Rattle.std.specs.Prelude.{◌≡◌, ◌≢◌, ℕ, List, ◌+◌, ◌*◌, ◌/◌, ◌<◌, ◌≤◌, length, All, slice_index, slice_set};
ghost use Rattle.cm_peel.specs.AtRound.{AreTaken};
ghost use Rattle.cm_peel.specs.Waiting.{AreMarked, AreOpen, Leads, by_plan, edge_tags, marked_of, put_freed};
ghost use Rattle.cm_spec.specs.declared.limits.TheConstants.{MAX_EDGES};

use crate::chunk::{UNTAKEN, look_up_places};

/// How many edges a block of edges has.
pub(crate) const EDGES: u32 = 131072;

/// How many places these have: four for each edge.
const PLACES: u32 = 524288;

/// How many freed places wait for a block of edges at most.
pub(crate) const FREED: usize = 16384;

/// How a round by blocks uses its room.
#[derive(Clone, Copy)]
pub(crate) struct Plan {
    /// How many rounds went before.
    pub(crate) rounds: u32,
    /// How many numbers the half-edges of a block of vertices have.
    pub(crate) size: usize,
    /// How many blocks of edges there are.
    pub(crate) blocks: usize,
    /// How many freed places wait for one of them at most.
    pub(crate) each: usize,
}

/// A round by blocks: its plan, the bytes of all edges, the places that wait for blocks of edges, the marks, and how many half-edges wait
/// for each block of vertices.
#[derive(Drop)]
pub(crate) struct Taking<'a> {
    pub(crate) plan: Plan,
    pub(crate) bytes: &'a mut [u8],
    pub(crate) freed: &'a mut [u32],
    pub(crate) marks: &'a mut [u64],
    pub(crate) counts: &'a mut [u32],
}

impl Taking<'_> {
    /// The bytes of all edges.
    pub(crate) fn bytes(&self) -> &[u8]
        ensures { result.now ≡ self.now.bytes.now }
    {
        let bytes = &*self.bytes;
        bytes
    }
}

/// Sets the counts of all blocks of edges to 0.
pub(crate) fn clear(blocks: usize, freed: &mut [u32])
    requires { blocks ≤ length freed.old }
    ensures none { (b : ℕ) → b < blocks → slice_index freed.new b ≡ 0 }
{
    let mut b = 0;
    'each: while b < blocks {
        freed[b] = 0;
        b += 1;
    }
}

/// Takes the edges of these places, `known` being their bytes, and marks those that are new. Returns how many these are.
fn mark_listed(
    places: &[u32],
    known: &[u8],
    rounds: u32,
    bytes: &mut [u8],
    marks: &mut [u64],
) -> usize
    requires rounds { rounds < MAX_EDGES }
    requires places { All (λ q. q / 4 < length bytes.old) places.now }
    requires long { length places.now ≤ length known.now }
    requires known { (i : ℕ) → i < length places.now → slice_index known.now i ≡ slice_index bytes.old (slice_index places.now i / 4) }
    requires room { length bytes.old ≤ 64 * length marks.old }
    ensures marked { AreMarked (edge_tags bytes.old marks.old) (edge_tags bytes.new marks.new) rounds places.now result }
    ensures few { result ≤ length places.now }
{
    let here = (rounds % 2) as u8;
    let next = 4 * ((rounds + 1) % 2) as u8;
    let mut count = 0;
    for (i, place) in places.iter().enumerate() {
        let e = *place / 4;
        let old = bytes[e as usize];
        let least = old.min(next + (*place % 4) as u8);
        bytes[e as usize] = if known[i] / 4 == here { old } else { least };
        let word = marks[(e / 64) as usize];
        marks[(e / 64) as usize] = if old >= UNTAKEN {
            word | 1 << (e % 64)
        } else {
            word
        };
        count += (old >= UNTAKEN) as usize;
    }
    count
}

/// Writes a freed place behind those that wait for its block of edges, and returns the block. Its part isn't full. The room begins with
/// a count for each block.
fn put_place(place: u32, plan: Plan, freed: &mut [u32]) -> usize
    requires there { place / 524288 < plan.blocks }
    requires within { plan.blocks + plan.blocks * plan.each ≤ length freed.old }
    requires few { length freed.old ≤ 67109056 }
    requires free { slice_index freed.old (place / 524288) < plan.each }
    ensures block { result ≡ place / 524288 }
    ensures room { freed.new ≡ put_freed plan.blocks plan.each freed.old (place / 524288) (slice_index freed.old (place / 524288)) place }
{
    let b = (place / PLACES) as usize;
    let count = freed[b];
    freed[plan.blocks + b * plan.each + count as usize] = place;
    freed[b] = count + 1;
    b
}

/// Takes the edges of the places that wait for a block of edges, and marks them. Returns how many are new.
fn take_block(b: usize, plan: Plan, bytes: &mut [u8], freed: &mut [u32], marks: &mut [u64]) -> usize
    requires rounds { plan.rounds < MAX_EDGES }
    requires there { b < plan.blocks }
    requires state { (after : List ℕ) × (next : List ℕ) × Leads (by_plan plan marks.old bytes.old freed.old) after next }
    ensures room { freed.new ≡ slice_set freed.old b 0 }
    ensures state { (after next : List ℕ) → Leads (by_plan plan marks.old bytes.old freed.old) after next → Leads (by_plan plan marks.new bytes.new freed.new) after next }
    ensures count { length (marked_of marks.new) ≡ length (marked_of marks.old) + result }
{
    let mut known = [0u8; FREED];
    let many = freed[b] as usize;
    freed[b] = 0;
    let from = plan.blocks + b * plan.each;
    let places = &freed[from..from + many];
    look_up_places(bytes, places, &mut known);
    mark_listed(places, &known, plan.rounds, bytes, marks)
}

/// Takes the edges of the places that wait for a block of edges if its part is full. Returns how many are new.
fn settle(b: usize, plan: Plan, bytes: &mut [u8], freed: &mut [u32], marks: &mut [u64]) -> usize
    requires rounds { plan.rounds < MAX_EDGES }
    requires there { b < plan.blocks }
    requires state { (after : List ℕ) × (next : List ℕ) × Leads (by_plan plan marks.old bytes.old freed.old) after next }
    requires others { (k : ℕ) → k < plan.blocks → k ≢ b → slice_index freed.old k < plan.each }
    requires positive { 0 < plan.each }
    ensures free { AreOpen plan.blocks plan.each freed.new }
    ensures state { (after next : List ℕ) → Leads (by_plan plan marks.old bytes.old freed.old) after next → Leads (by_plan plan marks.new bytes.new freed.new) after next }
    ensures count { length (marked_of marks.new) ≡ length (marked_of marks.old) + result }
{
    if (freed[b] as usize) < plan.each {
        return 0;
    }
    take_block(b, plan, bytes, freed, marks)
}

/// Lets these places wait for their blocks of edges, and takes the edges of each block whose part is full. Returns how many are new.
pub(crate) fn wait(
    places: &[u32],
    plan: Plan,
    bytes: &mut [u8],
    freed: &mut [u32],
    marks: &mut [u64],
) -> usize
    requires rounds { plan.rounds < MAX_EDGES }
    requires places { All (λ q. q / 4 < length bytes.old) places.now }
    requires free { AreOpen plan.blocks plan.each freed.old }
    requires state { (after : List ℕ) × (next : List ℕ) × Leads (by_plan plan marks.old bytes.old freed.old) after next }
    ensures free { AreOpen plan.blocks plan.each freed.new }
    ensures state { (after next : List ℕ) → Leads (by_plan plan marks.old bytes.old freed.old) after next → (after' : List ℕ) × (next' : List ℕ) × AreTaken plan.rounds places.now after after' next next' × Leads (by_plan plan marks.new bytes.new freed.new) after' next' }
    ensures count { length (marked_of marks.new) ≡ length (marked_of marks.old) + result }
{
    let mut count = 0;
    for place in places {
        let b = put_place(*place, plan, freed);
        count += settle(b, plan, bytes, freed, marks);
    }
    count
}

/// Takes the edges of all places that wait. Returns how many are new.
pub(crate) fn take_all(plan: Plan, bytes: &mut [u8], freed: &mut [u32], marks: &mut [u64]) -> usize
    requires rounds { plan.rounds < MAX_EDGES }
    requires state { (after : List ℕ) × (next : List ℕ) × Leads (by_plan plan marks.old bytes.old freed.old) after next }
    ensures none { (b : ℕ) → b < plan.blocks → slice_index freed.new b ≡ 0 }
    ensures state { (after next : List ℕ) → Leads (by_plan plan marks.old bytes.old freed.old) after next → Leads (by_plan plan marks.new bytes.new freed.new) after next }
    ensures count { length (marked_of marks.new) ≡ length (marked_of marks.old) + result }
{
    let mut count = 0;
    let mut b = 0;
    'each: while b < plan.blocks {
        count += take_block(b, plan, bytes, freed, marks);
        b += 1;
    }
    count
}
