//! What the keys say of the lines of a report.
ghost use Rattle.std.specs.Prelude.{◌≡◌, ◌<◌, ◌≤◌, ◌+◌, ◌++◌, ◌∷◌, [], ℕ, List, Ok, true, length, slice_index_or, IfOk, IfSome, OnOk, IsTrue};
ghost use Rattle.std.specs.Option.{ForSome};
ghost use Rattle.cm_io.specs.PassFaults.{ReadsKeys};
ghost use Rattle.cm_io.specs.Passes.{GivesKey};
ghost use Rattle.cm_judge_core.specs.Passes.{PassesKeys};
ghost use Rattle.cm_judge_core.specs.Walks.{AreOwn, HasLessBefore, has_line, hashed_if_listed};
ghost use Rattle.cm_judge_verdict.specs.Rising.{RisesBy};
ghost use Rattle.cm_spec.specs.Lookup2.{words as words_of};
ghost use Rattle.cm_spec.specs.Rule.{IsSize};

use cm_algo_scheme::Scheme;
use cm_io::{KeyBuf, KeyPass, PassFault, expect_end};
use cm_lookup2::words;
use cm_witness_gather::{CoreEdge, core_edge, read_key};
use std::alloc::{AllocError, Global};

/// What the graph of the keys is made with, besides an algorithm.
#[derive(Clone, Copy)]
pub(crate) struct Sizes {
    /// How many keys there are.
    pub keys: u32,
    /// How many vertices the graph has.
    pub vertices: u32,
    /// The seed of the hash.
    pub seed: u32,
}

/// The first place from `from` on whose edge has at least this line.
fn skip_below(edges: &[CoreEdge], from: usize, line: u32) -> usize
    requires from { from ≤ length edges.now }
    ensures within { result ≤ length edges.now }
    ensures below { (k : ℕ) (d : CoreEdge) → from ≤ k → k < result → (slice_index_or edges.now k d).line < line }
    ensures above { (d : CoreEdge) → result < length edges.now → line ≤ (slice_index_or edges.now result d).line }
{
    let mut i = from;
    while i < edges.len() {
        if edges[i].line >= line {
            return i;
        }
        i += 1;
    }
    i
}

/// The first place from `from` on whose edge has at least this line, and whether it has this line. The edges rise by line.
#[inline(always)]
fn find_line(edges: &[CoreEdge], from: usize, line: u32) -> (usize, bool)
    requires edges { RisesBy (λ e. e.line) 0 edges.now }
    requires from { HasLessBefore edges.now line from }
    ensures place { HasLessBefore edges.now line result.0 }
    ensures found { result.1 ≡ has_line edges.now line }
{
    let place = skip_below(edges, from, line);
    (place, place < edges.len() && edges[place].line == line)
}

/// The hash values of the next key, which is buffered and has these bytes. Those that the pass keeps are not computed again.
#[inline(always)]
fn hash_next<P: KeyPass>(keys: &P, next: &[u8], seed: u32) -> [u32; 3]
    requires usable { IsTrue (P.usable keys.now) }
    requires stands { P.stands keys.now next.now }
    ensures hashed { result ≡ words_of next.now seed }
{
    match keys.hashed(seed) {
        Some(hashed) => hashed,
        None => words(next, seed),
    }
}

/// A key of a pass: its line, the first place of a report's edges that has at least this line, and its hash values if the edge there has
/// this line.
#[derive(Clone, Copy)]
struct LineKey {
    line: u32,
    place: usize,
    hashed: Option<[u32; 3]>,
}

/// The next key, if it is buffered, with its length. It is hashed only if an edge has its line. The edges before `from` have lesser
/// lines.
#[inline(always)]
fn key_at_hand<P: KeyPass>(
    keys: &P,
    edges: &[CoreEdge],
    from: usize,
    seed: u32,
) -> Option<(LineKey, usize)>
    requires usable { IsTrue (P.usable keys.now) }
    requires edges { RisesBy (λ e. e.line) 0 edges.now }
    requires from { HasLessBefore edges.now (P.last keys.now + 1) from }
    ensures line { IfSome result (λ next. (next.0.line ≡ P.next_line keys.now) × (P.last keys.now < next.0.line)) }
    ensures place { IfSome result (λ next. HasLessBefore edges.now next.0.line next.0.place) }
    ensures hashed { IfSome result (λ next. (key : List ℕ) × P.stands keys.now key × (length key ≡ next.1) × (next.0.hashed ≡ hashed_if_listed edges.now seed next.0.line key)) }
{
    let (line, next) = keys.peek()?;
    let (place, listed) = find_line(edges, from, line);
    let hashed = if listed {
        Some(hash_next(keys, next, seed))
    } else {
        None
    };
    let key = LineKey {
        line,
        place,
        hashed,
    };
    Some((key, next.len()))
}

/// The next key, which is the one at place `e`. It is copied only if it isn't buffered, and hashed only if an edge has its line. The edges
/// before `from` have lesser lines. Fails as `Changed` if there is none. The buffer is scratch space.
fn next_key<P: KeyPass>(
    keys: &mut P,
    key: &mut KeyBuf,
    edges: &[CoreEdge],
    from: usize,
    e: u32,
    sizes: Sizes,
) -> Result<LineKey, PassFault>
    requires usable { IsTrue (P.usable keys.old) }
    requires at { P.place keys.old ≡ e }
    requires within { e < sizes.keys }
    requires edges { RisesBy (λ e. e.line) 0 edges.now }
    requires from { HasLessBefore edges.now (P.last keys.old + 1) from }
    ensures passes { PassesKeys P.KeyPass keys.old keys.new sizes.keys result }
    ensures usable { OnOk result (P.usable keys.new ≡ true) }
    ensures at { OnOk result (P.place keys.new ≡ e + 1) }
    ensures line { IfOk result (λ next. (P.last keys.new ≡ next.line) × (P.last keys.old < next.line)) }
    ensures place { IfOk result (λ next. HasLessBefore edges.now next.line next.place) }
    ensures gives { IfOk result (λ next. (bytes : List ℕ) × (next.hashed ≡ hashed_if_listed edges.now sizes.seed next.line bytes)
        × ForSome (P.told keys.old) (λ told. GivesKey told (P.place keys.old) (P.place keys.new) next.line bytes (Ok true))) }
{
    if let Some((next, len)) = key_at_hand(keys, edges, from, sizes.seed) {
        keys.pass(len);
        return Ok(next);
    }
    let line = read_key(keys, key, e, sizes.keys)?;
    let (place, listed) = find_line(edges, from, line);
    let hashed = if listed {
        Some(words(key.as_slice(), sizes.seed))
    } else {
        None
    };
    Ok(LineKey {
        line,
        place,
        hashed,
    })
}

/// Adds an edge.
fn keep(edges: &mut Vec<CoreEdge>, edge: CoreEdge) -> Result<(), AllocError>
    ensures kept { OnOk result (edges.new.items ≡ edges.old.items ++ edge ∷ []) }
{
    edges.push(edge)?;
    Ok(())
}

/// The edges that the keys have for the lines of a report's edges, from one pass over all keys. The edges of the report rise by line.
/// Fails as `Changed` if there are fewer keys than were counted, or more. The buffer is scratch space.
pub(crate) fn own_edges<S: Scheme<K>, P: KeyPass, const K: usize>(
    alloc: Global,
    scheme: &S,
    keys: &mut P,
    key: &mut KeyBuf,
    edges: &[CoreEdge],
    sizes: Sizes,
) -> Result<Vec<CoreEdge>, PassFault>
    requires size { IsSize (S.rule scheme.now) sizes.vertices }
    requires edges { RisesBy (λ e. e.line) 0 edges.now }
    ensures reads { ReadsKeys P.KeyPass keys.old keys.new sizes.keys result }
    ensures own { IfOk result (λ own. AreOwn (P.told keys.old) (S.rule scheme.now) sizes edges.now own.items) }
{
    let divisor = scheme.divisor(sizes.vertices);
    let mut own = Vec::new(alloc);
    keys.rewind()?;
    let mut i = 0;
    for count in 0..sizes.keys {
        let next = next_key(keys, key, edges, i, count, sizes)?;
        i = next.place;
        if let Some(hashed) = next.hashed {
            let ends = scheme.edge(hashed, sizes.vertices, &divisor);
            keep(&mut own, core_edge(next.line, ends))?;
        }
    }
    expect_end(keys, key, sizes.keys)?;
    Ok(own)
}
