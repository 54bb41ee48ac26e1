//! Large rounds by blocks of vertices: what is read and written for one block fits in the L2 cache.
ghost use Rattle.std.specs.Prelude.{◌≡◌, ◌≢◌, ℕ, true, false, List, [], suc, sum, ◌+◌, ◌*◌, ◌/◌, ◌<◌, ◌≤◌, ◌++◌, length, map, slice_index, slice_set, take};
ghost use Rattle.std.specs.Ordering.{nat_cmp};
ghost use Rattle.std.specs.List.Sorted.{IsSorted};
ghost use Rattle.cm_spec.specs.Rounds.{left_after, removed_after};
ghost use Rattle.cm_graph_edges.specs.Graph.{Graph};
ghost use Rattle.cm_peel.specs.AtRound.{CanUnlink, InRound, other_places};
ghost use Rattle.cm_peel.specs.Marks.{IsUnmarked};
ghost use Rattle.cm_peel.specs.Waiting.{AreEmpty, AreTables, AtPart, AtTaking, CanWait, InTaking, IsOpen, IsSameTaking, edges_of, halves_in, marked_of, put_room};
ghost use Rattle.cm_spec.specs.declared.limits.TheConstants.{MAX_EDGES};

use crate::chunk::{CHUNK, CHUNK_ENDS, list_halves};
use crate::freed;
use crate::freed::{EDGES, FREED, Plan, Taking};
use crate::marks::list_marked;
use crate::tables::{Round, Tables};
use cm_graph_edges::{Edges, Half, Incidence, Steps};
use std::sync::ledger::Ledger;

/// How many vertices a block has.
const BLOCK: usize = 65536;

/// No blocks are made for this many vertices or fewer.
const FEW: usize = 2097152;

/// A round goes by blocks if it removes at least this many half-edges for each block, and there is room for this many of each.
const LEAST: usize = 64;

/// How many half-edges of a block are removed together at most.
const PART: usize = 256;

/// This many numbers of the room suffice for a freed place to wait for each block of edges.
const SPACE: usize = 8192;

/// How many blocks these vertices have: one for each 65,536 of them, or none for 2,097,152 vertices or fewer.
pub(crate) fn count_blocks(vertices: usize) -> usize
    ensures none { vertices ≤ 2097152 → result ≡ 0 }
    ensures all { 2097152 < vertices → vertices ≤ 65536 * result }
    ensures no_more { 2097152 < vertices → 65536 * result < vertices + 65536 }
{
    if vertices > FEW {
        vertices.div_ceil(BLOCK)
    } else {
        0
    }
}

/// Whether a round that removes `halves` half-edges goes by blocks. It does if there are blocks, at least 64 half-edges for each block,
/// and room for 64 of each and for the places that this frees. `room` counts numbers, of which a half-edge takes two.
pub(crate) fn is_by_blocks(blocks: usize, halves: usize, room: usize) -> bool
    ensures so { result ≡ true → (0 < blocks) × (64 * blocks ≤ halves) × (128 * blocks ≤ room) }
    ensures space { result ≡ true → 8192 ≤ room }
    ensures not_so { 0 < blocks → 64 * blocks ≤ halves → 128 * blocks ≤ room → 8192 ≤ room → result ≡ true }
{
    if room < SPACE {
        return false;
    }
    blocks > 0 && halves / blocks >= LEAST && room / 2 / blocks >= LEAST
}

/// Reads half-edges from pairs of numbers, vertex and place.
fn read_pairs(pairs: &[u32], halves: &mut [Half])
    requires long { length pairs.now ≡ 2 * length halves.old }
    ensures { halves.new ≡ halves_in pairs.now }
{
    let mut i = 0;
    'halves: while i < halves.len() {
        halves[i] = Half {
            vertex: pairs[2 * i],
            place: pairs[2 * i + 1],
        };
        i += 1;
    }
}

/// Removes the half-edges of these pairs, takes the edges that this frees, and marks them. Returns how many are new.
fn empty<const K: usize, I: Incidence<K>, L: Ledger>(
    incidence: &mut I,
    pairs: &[u32],
    taking: &mut Taking<'_>,
    steps: &mut Steps<L>,
) -> usize
    requires even { length pairs.now ≡ 2 * length (halves_in pairs.now) }
    requires state { (graph : Graph) × (gone : List ℕ) × AtPart K graph gone (I.links incidence.old) (edges_of taking.old) (halves_in pairs.now) }
    ensures state { (graph : Graph) (gone : List ℕ) → AtPart K graph gone (I.links incidence.old) (edges_of taking.old) (halves_in pairs.now) → InTaking graph (gone ++ map (λ h. h.place) (halves_in pairs.now)) (I.links incidence.new) (edges_of taking.new) }
    ensures taking { IsSameTaking taking.new taking.old }
    ensures counts { taking.new.counts.now ≡ taking.old.counts.now }
    ensures count { length (marked_of taking.new.marks.now) ≡ length (marked_of taking.old.marks.now) + result }
    ensures steps { steps.new ≤ steps.old + 3 * length (halves_in pairs.now) }
{
    let mut halves = [Half {
        vertex: 0,
        place: 0,
    }; PART];
    let mut places = [0; PART];
    let mut at = 0;
    let mut count = 0;
    'parts: while at < pairs.len() {
        let many = PART.min((pairs.len() - at) / 2);
        read_pairs(&pairs[at..at + 2 * many], &mut halves[..many]);
        let alone = incidence.remove(&halves[..many], &mut places, steps);
        count += freed::wait(
            &places[..alone],
            taking.plan,
            taking.bytes,
            taking.freed,
            taking.marks,
        );
        at += 2 * many;
    }
    count
}

/// Writes a half-edge behind those that wait for its block, and returns the block. Its part of the room isn't full.
fn put(half: Half, size: usize, room: &mut [u32], counts: &mut [u32]) -> usize
    requires within { length counts.old * size ≤ length room.old }
    requires few { length room.old ≤ 67109056 }
    requires there { half.vertex / 65536 < length counts.old }
    requires free { 2 * slice_index counts.old (half.vertex / 65536) + 2 ≤ size }
    ensures block { result ≡ half.vertex / 65536 }
    ensures room { room.new ≡ put_room size room.old (half.vertex / 65536) (slice_index counts.old (half.vertex / 65536)) half }
    ensures counts { counts.new ≡ slice_set counts.old (half.vertex / 65536) (slice_index counts.old (half.vertex / 65536) + 1) }
{
    let b = half.vertex as usize / BLOCK;
    let at = b * size + 2 * counts[b] as usize;
    room[at] = half.vertex;
    room[at + 1] = half.place;
    counts[b] += 1;
    b
}

/// Empties a block: removes the half-edges that wait for it. Returns how many edges were marked.
fn empty_block<const K: usize, I: Incidence<K>, L: Ledger>(
    incidence: &mut I,
    b: usize,
    taking: &mut Taking<'_>,
    room: &[u32],
    steps: &mut Steps<L>,
) -> usize
    requires there { b < length taking.old.counts.now }
    requires state { (graph : Graph) × (done : List ℕ) × AtTaking K graph taking.old room.now (I.links incidence.old) done }
    ensures taking { IsSameTaking taking.new taking.old }
    ensures counts { taking.new.counts.now ≡ slice_set taking.old.counts.now b 0 }
    ensures state { (graph : Graph) (done : List ℕ) → AtTaking K graph taking.old room.now (I.links incidence.old) done → AtTaking K graph taking.new room.now (I.links incidence.new) done }
    ensures count { length (marked_of taking.new.marks.now) ≡ length (marked_of taking.old.marks.now) + result }
    ensures steps { steps.new ≤ steps.old + 3 * slice_index taking.old.counts.now b }
{
    let many = 2 * taking.counts[b] as usize;
    taking.counts[b] = 0;
    let first = b * taking.plan.size;
    empty(incidence, &room[first..first + many], taking, steps)
}

/// Empties a block if its part is full. Returns how many edges were marked.
fn settle<const K: usize, I: Incidence<K>, L: Ledger>(
    incidence: &mut I,
    b: usize,
    taking: &mut Taking<'_>,
    room: &[u32],
    steps: &mut Steps<L>,
) -> usize
    requires there { b < length taking.old.counts.now }
    requires state { (graph : Graph) × (done : List ℕ) × AtTaking K graph taking.old room.now (I.links incidence.old) done }
    ensures free { 2 * slice_index taking.new.counts.now b < taking.old.plan.size }
    ensures others { (k : ℕ) → k ≢ b → slice_index taking.new.counts.now k ≡ slice_index taking.old.counts.now k }
    ensures state { (graph : Graph) (done : List ℕ) → AtTaking K graph taking.old room.now (I.links incidence.old) done → AtTaking K graph taking.new room.now (I.links incidence.new) done }
    ensures taking { IsSameTaking taking.new taking.old }
    ensures count { length (marked_of taking.new.marks.now) ≡ length (marked_of taking.old.marks.now) + result }
    ensures steps { steps.new + 3 * sum taking.new.counts.now ≤ steps.old + 3 * sum taking.old.counts.now }
{
    if (2 * taking.counts[b] as usize) < taking.plan.size {
        return 0;
    }
    empty_block(incidence, b, taking, room, steps)
}

/// Lets these half-edges wait in the parts of their blocks, and empties each block whose part is full. Returns how many edges were
/// marked.
fn wait<const K: usize, I: Incidence<K>, L: Ledger>(
    incidence: &mut I,
    halves: &[Half],
    taking: &mut Taking<'_>,
    room: &mut [u32],
    steps: &mut Steps<L>,
) -> usize
    requires free { IsOpen taking.old.plan.size taking.old.counts.now }
    requires state { (graph : Graph) × (done : List ℕ) × AtTaking K graph taking.old room.old (I.links incidence.old) done × CanWait graph.edges taking.old.plan.rounds done halves.now }
    ensures free { IsOpen taking.old.plan.size taking.new.counts.now }
    ensures state { (graph : Graph) (done : List ℕ) → CanWait graph.edges taking.old.plan.rounds done halves.now → AtTaking K graph taking.old room.old (I.links incidence.old) done → AtTaking K graph taking.new room.new (I.links incidence.new) (done ++ map (λ h. h.place) halves.now) }
    ensures taking { IsSameTaking taking.new taking.old }
    ensures count { length (marked_of taking.new.marks.now) ≡ length (marked_of taking.old.marks.now) + result }
    ensures steps { steps.new + 3 * sum taking.new.counts.now ≤ steps.old + 3 * (sum taking.old.counts.now + length halves.now) }
{
    let mut count = 0;
    for half in halves {
        let b = put(*half, taking.plan.size, room, taking.counts);
        count += settle(incidence, b, taking, room, steps);
    }
    count
}

/// Empties all blocks. Returns how many edges were marked.
fn empty_all<const K: usize, I: Incidence<K>, L: Ledger>(
    incidence: &mut I,
    taking: &mut Taking<'_>,
    room: &[u32],
    steps: &mut Steps<L>,
) -> usize
    requires state { (graph : Graph) × (done : List ℕ) × AtTaking K graph taking.old room.now (I.links incidence.old) done }
    ensures none { AreEmpty taking.new.counts.now }
    ensures state { (graph : Graph) (done : List ℕ) → AtTaking K graph taking.old room.now (I.links incidence.old) done → AtTaking K graph taking.new room.now (I.links incidence.new) done }
    ensures taking { IsSameTaking taking.new taking.old }
    ensures count { length (marked_of taking.new.marks.now) ≡ length (marked_of taking.old.marks.now) + result }
    ensures steps { steps.new + 3 * sum taking.new.counts.now ≤ steps.old + 3 * sum taking.old.counts.now }
{
    let mut count = 0;
    let mut b = 0;
    'each: while b < taking.counts.len() {
        count += empty_block(incidence, b, taking, room, steps);
        b += 1;
    }
    count
}

/// Lets the half-edges of a round wait, except those of its pivots, and empties each block whose part is full. Returns how many edges
/// were marked.
fn wait_round<const K: usize, I: Incidence<K>, L: Ledger>(
    edges: &Edges<K>,
    incidence: &mut I,
    round: &[u32],
    taking: &mut Taking<'_>,
    room: &mut [u32],
    steps: &mut Steps<L>,
) -> usize
    requires round { round.now ≡ removed_after edges.now.edges taking.old.plan.rounds }
    requires free { IsOpen taking.old.plan.size taking.old.counts.now }
    requires state { AtTaking K edges.now taking.old room.old (I.links incidence.old) [] }
    ensures state { AtTaking K edges.now taking.new room.new (I.links incidence.new) (other_places edges.now.edges round.now) }
    ensures taking { IsSameTaking taking.new taking.old }
    ensures count { length (marked_of taking.new.marks.now) ≡ length (marked_of taking.old.marks.now) + result }
    ensures steps { steps.new + 3 * sum taking.new.counts.now ≤ steps.old + 3 * (sum taking.old.counts.now + K * length round.now) }
{
    let mut ends = [[0; K]; CHUNK];
    let mut halves = [Half {
        vertex: 0,
        place: 0,
    }; CHUNK_ENDS];
    let mut known = [0u8; CHUNK_ENDS];
    let mut at = 0;
    let mut count = 0;
    'chunks: while at < round.len() {
        let many = CHUNK.min(round.len() - at);
        let others = list_halves(
            edges,
            taking.bytes(),
            &round[at..at + many],
            &mut ends[..many],
            &mut known,
            &mut halves,
        );
        count += wait(incidence, &halves[..others], taking, room, steps);
        at += many;
    }
    count
}

/// Removes the half-edges of a round, except those of its pivots, and takes and marks the edges of the next round. Returns how many
/// these are. Nothing waits before or after.
fn unlink_marked<const K: usize, I: Incidence<K>, L: Ledger>(
    edges: &Edges<K>,
    incidence: &mut I,
    round: &[u32],
    taking: &mut Taking<'_>,
    room: &mut [u32],
    steps: &mut Steps<L>,
) -> usize
    requires round { round.now ≡ removed_after edges.now.edges taking.old.plan.rounds }
    requires empty { AreEmpty taking.old.counts.now }
    requires marks { IsUnmarked (length edges.now.edges) taking.old.marks.now }
    requires state { AtTaking K edges.now taking.old room.old (I.links incidence.old) [] }
    ensures state { InRound edges.now taking.old.plan.rounds (other_places edges.now.edges round.now) (I.links incidence.new) (marked_of taking.new.marks.now) taking.new.bytes.now }
    ensures taking { IsSameTaking taking.new taking.old }
    ensures count { length (marked_of taking.new.marks.now) ≡ result }
    ensures empty { AreEmpty taking.new.counts.now }
    ensures steps { steps.new ≤ steps.old + 3 * (K * length round.now) }
{
    let before = wait_round(edges, incidence, round, taking, room, steps);
    let last = empty_all(incidence, taking, room, steps);
    before + last + freed::take_all(taking.plan, taking.bytes, taking.freed, taking.marks)
}

/// How a round by blocks uses its room: `long` numbers for the half-edges of `counts` blocks of vertices, and `space` numbers for the
/// places of `edges` edges.
fn plan_round(rounds: u32, edges: u32, counts: usize, long: usize, space: usize) -> Plan
    requires some { 0 < edges }
    requires fits { edges ≤ MAX_EDGES }
    requires counts { 0 < counts }
    requires long { long ≤ 67109056 }
    requires space { 1024 ≤ space }
    ensures rounds { result.rounds ≡ rounds }
    ensures size { result.size ≡ 2 * (long / 2 / counts) }
    ensures edges { edges ≤ 131072 * result.blocks }
    ensures some { 0 < result.each }
    ensures short { result.each ≤ 16384 }
    ensures within { result.blocks + result.blocks * result.each ≤ space }
{
    let blocks = edges.div_ceil(EDGES) as usize;
    Plan {
        rounds,
        size: 2 * (long / 2 / counts),
        blocks,
        each: FREED.min(space / blocks - 1),
    }
}

/// Removes the half-edges of a round, except those of its pivots, takes the edges of the next round, and lists them by rising number.
/// Returns how many they are. No half-edge waits and no edge is marked, before or after. The half-edges wait in the list, which gets its
/// edges only when none waits any more, so this takes no memory.
pub(crate) fn unlink_by_blocks<const K: usize, I: Incidence<K>, L: Ledger>(
    edges: &Edges<K>,
    incidence: &mut I,
    round: Round<'_>,
    tables: &mut Tables<K>,
    list: &mut [u32],
    steps: &mut Steps<L>,
) -> usize
    requires ready { CanUnlink K edges.now round.before round.edges.now (I.links incidence.old) tables.old.bytes.items }
    requires room { length (left_after edges.now.edges (suc round.before)) ≤ length list.old }
    requires few { length list.old ≤ 67109056 }
    requires some { 0 < length tables.old.counts.items }
    requires pairs { 128 * length tables.old.counts.items ≤ length list.old }
    requires space { 8192 ≤ length list.old }
    requires tables { AreTables edges.now tables.old.counts.items tables.old.marks.items }
    ensures within { result ≤ length list.new }
    ensures state { InRound edges.now round.entry.before (other_places edges.now.edges round.entry.edges.now) (I.links incidence.new) (take result list.new) tables.new.bytes.items }
    ensures sorted { IsSorted nat_cmp (take result list.new) }
    ensures tables { AreTables edges.now tables.new.counts.items tables.new.marks.items }
    ensures levels { tables.new.levels.items ≡ tables.old.levels.items }
    ensures steps { steps.new ≤ steps.old + 3 * (K * length round.entry.edges.now) }
{
    let bytes: &mut [u8] = &mut tables.bytes;
    let marks: &mut [u64] = &mut tables.marks;
    let counts: &mut [u32] = &mut tables.counts;
    let long = list.len() - list.len() / 8;
    let (room, freed) = list.split_at_mut(long);
    let plan = plan_round(
        round.before,
        edges.len(),
        counts.len(),
        room.len(),
        freed.len(),
    );
    freed::clear(plan.blocks, freed);
    let mut taking = Taking {
        plan,
        bytes,
        freed,
        marks,
        counts,
    };
    let count = unlink_marked(edges, incidence, round.edges, &mut taking, room, steps);
    list_marked(marks, &mut list[..count]);
    count
}
