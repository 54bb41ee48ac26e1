//! Which of some edges may have the ends of another one.
ghost use Rattle.std.specs.Prelude.{◌≡◌, ◌/◌, ◌%◌, ◌^◌, ◌<◌, ◌≤◌, ℕ, List, length, All, IfOk, true};
ghost use Rattle.cm_witness_gather.specs.Candidates.{FindsEqual, bits_of, is_once, is_twice, mixed, word_of};

use cm_graph_edges::Edges;
use std::alloc::{AllocError, Global};
use std::marker::Model;

/// An odd number with irregular bits, from the golden ratio.
pub(crate) const FACTOR: u64 = 0x9e37_79b9_7f4a_7c15;

/// How many words a table has at most: the upper half of a mixed number chooses among them.
pub(crate) const MAX_WORDS: usize = 1 << 32;

/// 64 bits of a table: a bit of `once` is set if an edge hit it, and one of `twice` if another one did too.
#[derive(Clone, Copy)]
struct Hits {
    once: u64,
    twice: u64,
}

/// A table of marked edges by their ends, of 4 bytes an edge. Clauses see its words through two tests of ends: those that were marked
/// once or twice pass them, and others may pass if their bits were hit. Of different edges, about one in a hundred is taken for one
/// that was marked twice.
#[derive(Drop)]
pub(crate) struct Candidates {
    words: Vec<Hits>,
}

impl Model for Candidates {
    ghost use Rattle.std.specs.Prelude.{List, ◌<◌, ◌≤◌, length, ◌^◌};
    ghost use Rattle.cm_witness_gather.specs.declared.candidates.Hits.{Hits};

    ghost Value = { List Hits };

    ghost view = { λ t. t.words.items };

    ghost invariant = { λ t. (0 < length t.words.items) × (length t.words.items ≤ 2 ^ 32) };
}

/// Mixes the ends of an edge into a number with irregular upper bits.
#[inline(always)]
fn mix<const K: usize>(ends: [u32; K]) -> u64
    ensures { result ≡ mixed ends.entry }
{
    let mut number = 0u64;
    for v in ends {
        number = number.wrapping_add(v as u64).wrapping_mul(FACTOR);
    }
    number
}

/// The bit of a word that six bits of a number choose, from bit `from` on.
#[inline(always)]
fn bit(number: u64, from: u32) -> u64
    requires { from < 64 }
    ensures { result ≡ 2 ^ (number / 2 ^ from % 64) }
{
    1 << (number >> from & 63)
}

/// The slot of the ends of an edge in a table of `words` words: a word, and some of its bits.
#[inline(always)]
fn slot_of<const K: usize>(ends: [u32; K], words: usize) -> (usize, u64)
    requires some { 0 < words }
    requires few { words ≤ 2 ^ 32 }
    ensures word { result.0 ≡ word_of words ends.entry }
    ensures bits { result.1 ≡ bits_of ends.entry }
    ensures within { result.0 < words }
{
    let number = mix(ends);
    let word = (number >> 32) * words as u64 >> 32;
    let bits = bit(number, 26) | bit(number, 20) | bit(number, 14);
    (word as usize, bits)
}

impl Candidates {
    /// No edge yet, with room for `edges` edges.
    pub(crate) fn new(alloc: Global, edges: usize) -> Result<Candidates, AllocError> {
        let none = Hits { once: 0, twice: 0 };
        let words = (edges / 4 + 1).min(MAX_WORDS);
        Ok(Candidates {
            words: vec![in alloc; none; words]?,
        })
    }

    /// Marks the ends of an edge.
    pub(crate) fn mark<const K: usize>(&mut self, ends: [u32; K])
        ensures kept_once { (other : List ℕ) → is_once self.old other ≡ true → is_once self.new other ≡ true }
        ensures kept_twice { (other : List ℕ) → is_twice self.old other ≡ true → is_twice self.new other ≡ true }
        ensures once { is_once self.new ends.entry ≡ true }
        ensures twice { is_once self.old ends.entry ≡ true → is_twice self.new ends.entry ≡ true }
    {
        let (word, bits) = slot_of(ends, self.words.len());
        let hits = &mut self.words[word];
        hits.twice |= hits.once & bits;
        hits.once |= bits;
    }

    /// The edges at these places are marked.
    pub(crate) fn among<const K: usize>(
        alloc: Global,
        edges: &Edges<K>,
        places: &[u32],
    ) -> Result<Candidates, AllocError>
        requires width { (2 ≤ K) × (K ≤ 3) }
        requires inside { All (λ e. e < length edges.now.edges) places.now }
        ensures { IfOk result (λ made. FindsEqual (is_twice made) edges.now.edges places.now) }
    {
        let mut marked = Candidates::new(alloc, places.len())?;
        for e in places {
            marked.mark(edges.ends(*e));
        }
        Ok(marked)
    }

    /// Whether an edge with these ends may have been marked twice.
    #[inline(always)]
    pub(crate) fn twice<const K: usize>(&self, ends: [u32; K]) -> bool
        ensures { result ≡ is_twice self.now ends.entry }
    {
        let (word, bits) = slot_of(ends, self.words.len());
        self.words[word].twice & bits == bits
    }

    /// How many of the edges at these places may have been marked twice.
    pub(crate) fn count<const K: usize>(&self, edges: &Edges<K>, places: &[u32]) -> usize
        requires width { (2 ≤ K) × (K ≤ 3) }
        requires inside { All (λ e. e < length edges.now.edges) places.now }
        ensures few { result ≤ length places.now }
    {
        let mut count = 0;
        for place in places {
            if self.twice(edges.ends(*place)) {
                count += 1;
            }
        }
        count
    }
}

/// How many of the edges at these places `gather` takes for candidates: those that have the ends of another one, and about one in a
/// hundred of the others.
pub fn count_candidates<const K: usize>(
    alloc: Global,
    edges: &Edges<K>,
    places: &[u32],
) -> Result<usize, AllocError>
    requires width { (2 ≤ K) × (K ≤ 3) }
    requires inside { All (λ e. e < length edges.now.edges) places.now }
    ensures few { IfOk result (λ count. count ≤ length places.now) }
{
    Ok(Candidates::among(alloc, edges, places)?.count(edges, places))
}
