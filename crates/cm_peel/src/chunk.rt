//! A round is worked on by chunks: scattered data is first read into small arrays, so that no store waits for a load.
ghost use Rattle.std.specs.Prelude.{◌≡◌, ℕ, ◌+◌, ◌*◌, ◌/◌, ◌<◌, ◌≤◌, ◌++◌, ◌==◌, nat_lt, if◌then◌else◌, length, All, map, take, slice_index};
ghost use Rattle.std.specs.List.{position_or_len};
ghost use Rattle.cm_graph_edges.specs.Graph.{degree_of};
ghost use Rattle.cm_peel.specs.AtRound.{AreTaken};
ghost use Rattle.cm_peel.specs.Incident.{other_halves, other_halves_all, pivot_in};
ghost use Rattle.cm_spec.specs.declared.limits.TheConstants.{MAX_EDGES};

use cm_graph_edges::{Edges, Half, Incidence, Steps};
use std::sync::ledger::Ledger;

/// How many edges are worked on together.
pub(crate) const CHUNK: usize = 64;

/// How many ends these have at most.
pub(crate) const CHUNK_ENDS: usize = 192;

/// The byte of an edge that isn't taken; each greater byte means the same.
pub(crate) const UNTAKEN: u8 = 8;

/// Arrays for what is read of a chunk. A peel makes them once. What they contain before a chunk means nothing.
#[derive(Drop)]
pub(crate) struct Scratch<const K: usize> {
    pub(crate) ends: [[u32; K]; CHUNK],
    pub(crate) halves: [Half; CHUNK_ENDS],
    pub(crate) places: [u32; CHUNK_ENDS],
    pub(crate) marks: [u8; CHUNK_ENDS],
    ghost ends_long: { length ends ≡ 64 },
    ghost halves_long: { length halves ≡ 192 },
    ghost places_long: { length places ≡ 192 },
    ghost marks_long: { length marks ≡ 192 },
}

impl<const K: usize> Scratch<K> {
    pub(crate) fn new() -> Scratch<K> {
        Scratch {
            ends: [[0; K]; CHUNK],
            halves: [Half {
                vertex: 0,
                place: 0,
            }; CHUNK_ENDS],
            places: [0; CHUNK_ENDS],
            marks: [0; CHUNK_ENDS],
        }
    }
}

/// Reads the bytes of some edges.
fn look_up(bytes: &[u8], chunk: &[u32], marks: &mut [u8])
    requires places { All (λ e. e < length bytes.now) chunk.now }
    requires room { length chunk.now ≤ length marks.old }
    ensures { (i : ℕ) → i < length chunk.now → slice_index marks.new i ≡ slice_index bytes.now (slice_index chunk.now i) }
{
    for (i, e) in chunk.iter().enumerate() {
        marks[i] = bytes[*e as usize];
    }
}

/// Writes the half-edges of an edge into the list, behind the first `count`. That of its pivot is written but not counted, so no branch
/// depends on which it is.
fn add_halves<const K: usize>(
    e: u32,
    ends: [u32; K],
    pivot: usize,
    count: usize,
    halves: &mut [Half],
) -> usize
    requires small { K ≤ 3 }
    requires edge { e < MAX_EDGES }
    requires room { count + K ≤ length halves.old }
    ensures halves { take result halves.new ≡ take count halves.old ++ other_halves e pivot 0 ends.entry }
    ensures few { result ≤ count + K }
{
    let mut at = count;
    for i in 0..K {
        halves[at] = Half {
            vertex: ends[i],
            place: 4 * e + i as u32,
        };
        at += (i != pivot) as usize;
    }
    at
}

/// Lists the half-edges of a chunk, except those of its pivots. Returns how many they are. `ends` and `marks` are scratch space.
pub(crate) fn list_halves<const K: usize>(
    edges: &Edges<K>,
    bytes: &[u8],
    chunk: &[u32],
    ends: &mut [[u32; K]],
    marks: &mut [u8],
    halves: &mut [Half],
) -> usize
    requires small { K ≤ 3 }
    requires fits { length edges.now.edges ≤ MAX_EDGES }
    requires places { All (λ e. e < length edges.now.edges) chunk.now }
    requires long { length bytes.now ≡ length edges.now.edges }
    requires ends { length ends.old ≡ length chunk.now }
    requires marks { length chunk.now ≤ length marks.old }
    requires halves { K * length chunk.now ≤ length halves.old }
    ensures halves { take result halves.new ≡ other_halves_all edges.now.edges (pivot_in bytes.now) chunk.now }
    ensures few { result ≤ K * length chunk.now }
{
    edges.gather(chunk, ends);
    look_up(bytes, chunk, marks);
    let mut count = 0;
    for (i, e) in chunk.iter().enumerate() {
        count = add_halves(*e, ends[i], (marks[i] % 4) as usize, count, halves);
    }
    count
}

/// Reads the bytes of the edges of some places.
pub(crate) fn look_up_places(bytes: &[u8], places: &[u32], marks: &mut [u8])
    requires places { All (λ q. q / 4 < length bytes.now) places.now }
    requires room { length places.now ≤ length marks.old }
    ensures { (i : ℕ) → i < length places.now → slice_index marks.new i ≡ slice_index bytes.now (slice_index places.now i / 4) }
{
    for (i, place) in places.iter().enumerate() {
        marks[i] = bytes[(*place / 4) as usize];
    }
}

/// Takes the edges of these places, `marks` being their bytes, and lists them behind the first `count` of the list. Each edge is
/// written there, and counted only if it is new, so no branch depends on that.
fn take_listed(
    places: &[u32],
    marks: &[u8],
    rounds: u32,
    bytes: &mut [u8],
    list: &mut [u32],
    count: usize,
) -> usize
    requires rounds { rounds < MAX_EDGES }
    requires places { All (λ q. q / 4 < length bytes.old) places.now }
    requires marks { length places.now ≤ length marks.now }
    requires known { (i : ℕ) → i < length places.now → slice_index marks.now i ≡ slice_index bytes.old (slice_index places.now i / 4) }
    requires room { count + length places.now ≤ length list.old }
    ensures taken { AreTaken rounds places.now bytes.old bytes.new (take count list.old) (take result list.new) }
    ensures few { result ≤ count + length places.now }
{
    let here = (rounds % 2) as u8;
    let next = 4 * ((rounds + 1) % 2) as u8;
    let mut end = count;
    for (i, place) in places.iter().enumerate() {
        let e = *place / 4;
        let old = bytes[e as usize];
        let least = old.min(next + (*place % 4) as u8);
        bytes[e as usize] = if marks[i] / 4 == here { old } else { least };
        list[end] = e;
        end += (old >= UNTAKEN) as usize;
    }
    end
}

/// Takes the edges of these places for the round after `rounds` and one more. An edge that isn't taken yet is added behind the first
/// `count` of the list. An edge of that round gets the least position of its places, and one of the round before stays as it is.
/// `marks` is scratch space. Returns how many are listed then.
pub(crate) fn take(
    places: &[u32],
    marks: &mut [u8],
    rounds: u32,
    bytes: &mut [u8],
    list: &mut [u32],
    count: usize,
) -> usize
    requires rounds { rounds < MAX_EDGES }
    requires places { All (λ q. q / 4 < length bytes.old) places.now }
    requires marks { length places.now ≤ length marks.old }
    requires room { count + length places.now ≤ length list.old }
    ensures taken { AreTaken rounds places.now bytes.old bytes.new (take count list.old) (take result list.new) }
    ensures few { result ≤ count + length places.now }
{
    look_up_places(bytes, places, marks);
    take_listed(places, marks, rounds, bytes, list, count)
}

/// The degrees of an edge's ends.
pub(crate) fn degrees_of<const K: usize, I: Incidence<K>, L: Ledger>(
    incidence: &I,
    ends: [u32; K],
    steps: &mut Steps<L>,
) -> [u32; K]
    requires small { K ≤ 3 }
    requires vertices { All (λ v. v < (I.links incidence.now).vertices) ends }
    ensures degrees { result ≡ map (degree_of (I.links incidence.now)) ends.entry }
    ensures steps { steps.new ≡ steps.old + K }
{
    let mut degrees = [0; K];
    for i in 0..K {
        degrees[i] = incidence.degree(ends[i], steps);
    }
    degrees
}

/// The lowest position of a degree one, or `UNTAKEN`.
pub(crate) fn first_one<const K: usize>(degrees: [u32; K]) -> u8
    requires small { K ≤ 3 }
    ensures { result ≡ (if nat_lt (position_or_len (λ d. d == 1) degrees.entry) K then position_or_len (λ d. d == 1) degrees.entry else 8) }
{
    let mut first = K;
    let mut i = K;
    'ends: while i > 0 {
        i -= 1;
        if degrees[i] == 1 {
            first = i;
        }
    }
    if first < K { first as u8 } else { UNTAKEN }
}
