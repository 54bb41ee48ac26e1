//! The cells of a peeled graph, edge by edge in the reverse of the order of peeling.
ghost use Rattle.std.specs.Prelude.{◌≡◌, ℕ, ◌<◌, ◌≤◌, ◌↔◌, List, [], All, length, map, slice_index, slice_set, IfOk, IsTrue, if◌then◌else◌};
ghost use Rattle.cm_algo_cells.specs.declared.cells.TheConstants.{CHUNK, MANY};
ghost use Rattle.cm_algo_cells.specs.OneByOne.{AreOf, AreReady, AreSums, IsPart, edge_parts, one_by_one};
ghost use Rattle.cm_peel.specs.Peeling.{IsPeelingOf};
ghost use Rattle.cm_spec.specs.Cells.{Plan, plan_of, sum_but, at_once, completing, cells_of, AreSolved};
ghost use Rattle.cm_spec.specs.Rounds.{order_of, rest_of};
ghost use Rattle.cm_spec.specs.Rule.{IsCount};

use cm_algo_scheme::{Divisor, Scheme};
use cm_bits::{Cells, filled};
use cm_graph_edges::Edges;
use cm_peel::Peeled;
use std::alloc::{AllocError, Global};

/// How many edges are worked on together: what their cells come from is read before the first of them is set, so that no
/// read of it waits for a store.
const CHUNK: usize = 256;

/// How many cells a table has at least whose chunks are settled at once if they can be. Of a smaller one most cells lie in the
/// processor's caches, so that nothing is waited for.
const MANY: u32 = 1_572_864;

/// The cells of the ends other than the pivot's vertex, added up.
fn sum_others<C: Cells, const K: usize>(table: &C, ends: [u32; K], position: u32) -> u64
    requires small { K ≤ 3 }
    requires position { position < K }
    requires within { All (λ u. u < length (C.cells table.now)) ends }
    ensures { result ≡ sum_but (C.cells table.now) (slice_index ends.entry position) ends.entry }
{
    let v = ends[position as usize];
    let mut sum = 0u64;
    for u in ends {
        // Read in any case, so that no branch depends on which end is the pivot.
        let cell = table.get(u) as u64;
        sum += if u != v { cell } else { 0 };
    }
    sum
}

/// The number below the modulus that brings the sum to the target, which is below the modulus too.
#[tactic(auto, unfolding(cm_spec::specs::Cells::completing))]
fn complete(modulus: &Divisor, target: u32, sum: u64) -> u32
    requires target { target < modulus.now }
    ensures value { result ≡ completing modulus.now target sum }
    ensures below { result < modulus.now }
{
    let left = modulus.rem_wide(sum);
    // A difference below zero wraps around, and is then the greater of the two. No branch depends on the cells.
    let down = (target as u64).wrapping_sub(left as u64);
    down.min(down.wrapping_add(modulus.value() as u64)) as u32
}

/// Sets the cell of the pivot's vertex. Those of the other ends add up to `sum`.
fn put<C: Cells, const K: usize>(
    table: &mut C,
    ends: [u32; K],
    position: u32,
    modulus: &Divisor,
    target: u32,
    sum: u64,
)
    requires position { position < K }
    requires modulus { modulus.now ≤ C.bound_of table.old }
    requires target { target < modulus.now }
    requires within { All (λ u. u < length (C.cells table.old)) ends }
    ensures bound { C.bound_of table.new ≡ C.bound_of table.old }
    ensures cells { C.cells table.new ≡ slice_set (C.cells table.old) (slice_index ends.entry position) (completing modulus.now target sum) }
{
    table.set(ends[position as usize], complete(modulus, target, sum));
}

/// The tag of an edge: 0 if none is kept.
fn tag_at(tags: &[u32], e: u32) -> u32
    ensures { result ≡ slice_index tags.now e }
{
    tags.get(e as usize).copied().unwrap_or(0)
}

/// Looks up the positions of the pivots of a chunk, and what the cells of each edge add up to.
fn look_up<S: Scheme<K>, const K: usize>(
    scheme: &S,
    peeled: &Peeled<K>,
    tags: &[u32],
    chunk: &[u32],
    positions: &mut [u32],
    targets: &mut [u32],
)
    requires places { All (λ e. e < length peeled.now.pivots) chunk.now }
    requires positions { length positions.old ≡ length chunk.now }
    requires targets { length targets.old ≡ length chunk.now }
    ensures positions { positions.new ≡ map (slice_index peeled.now.pivots) chunk.now }
    ensures targets { targets.new ≡ map (λ e. (S.rule scheme.now).target e (slice_index peeled.now.pivots e) (slice_index tags.now e)) chunk.now }
{
    for (i, e) in chunk.iter().enumerate() {
        let position = peeled.pivot(*e);
        positions[i] = position;
        targets[i] = scheme.target(*e, position, tag_at(tags, *e));
    }
}

/// Sets the cells of the pivots of a chunk, the last edge first.
fn settle_each<C: Cells, const K: usize>(
    table: &mut C,
    ends: &[[u32; K]],
    positions: &[u32],
    targets: &[u32],
    modulus: &Divisor,
)
    requires small { K ≤ 3 }
    requires ready { AreReady K (C.bound_of table.old) (C.cells table.old) modulus.now (edge_parts ends.now positions.now targets.now) }
    ensures bound { C.bound_of table.new ≡ C.bound_of table.old }
    ensures cells { (p : Plan) (chunk : List ℕ) → AreOf p chunk modulus.now (edge_parts ends.now positions.now targets.now) → C.cells table.new ≡ one_by_one p (C.cells table.old) chunk }
{
    let mut i = ends.len();
    'edges: while i > 0 {
        i -= 1;
        let each = ends[i];
        let sum = sum_others(table, each, positions[i]);
        put(table, each, positions[i], modulus, targets[i], sum);
    }
}

/// Adds up the cells of each edge's ends but its pivot's vertex.
fn sum_each<C: Cells, const K: usize>(
    table: &C,
    ends: &[[u32; K]],
    positions: &[u32],
    sums: &mut [u64],
)
    requires small { K ≤ 3 }
    requires within { All (λ each. All (λ u. u < length (C.cells table.now)) each) ends.now }
    requires positions { All (λ position. position < K) positions.now }
    requires long { (length positions.now ≡ length ends.now) × (length sums.old ≡ length ends.now) }
    ensures sums { AreSums (C.cells table.now) ends.now positions.now sums.new }
{
    for i in 0..ends.len() {
        sums[i] = sum_others(table, ends[i], positions[i]);
    }
}

/// Sets the cells of the pivots of a chunk, whose other cells add up to `sums`.
fn set_each<C: Cells, const K: usize>(
    table: &mut C,
    ends: &[[u32; K]],
    positions: &[u32],
    targets: &[u32],
    sums: &[u64],
    modulus: &Divisor,
)
    requires ready { AreReady K (C.bound_of table.old) (C.cells table.old) modulus.now (edge_parts ends.now positions.now targets.now) }
    requires sums { AreSums (C.cells table.old) ends.now positions.now sums.now }
    ensures bound { C.bound_of table.new ≡ C.bound_of table.old }
    ensures cells { (p : Plan) (chunk : List ℕ) → AreOf p chunk modulus.now (edge_parts ends.now positions.now targets.now) → C.cells table.new ≡ at_once p (C.cells table.old) chunk }
{
    let mut i = ends.len();
    'edges: while i > 0 {
        i -= 1;
        put(table, ends[i], positions[i], modulus, targets[i], sums[i]);
    }
}

/// Sets the cells of the pivots of a chunk, each by the cells before all of them: these are read without waiting for one another.
fn settle_at_once<C: Cells, const K: usize>(
    table: &mut C,
    ends: &[[u32; K]],
    positions: &[u32],
    targets: &[u32],
    modulus: &Divisor,
)
    requires small { K ≤ 3 }
    requires few { length ends.now ≤ CHUNK }
    requires ready { AreReady K (C.bound_of table.old) (C.cells table.old) modulus.now (edge_parts ends.now positions.now targets.now) }
    ensures bound { C.bound_of table.new ≡ C.bound_of table.old }
    ensures cells { (p : Plan) (chunk : List ℕ) → AreOf p chunk modulus.now (edge_parts ends.now positions.now targets.now) → C.cells table.new ≡ at_once p (C.cells table.old) chunk }
{
    let mut sums = [0; CHUNK];
    let sums = &mut sums[..ends.len()];
    sum_each(table, ends, positions, sums);
    set_each(table, ends, positions, targets, sums, modulus);
}

/// Sets the cells of the pivots of a chunk, at once or the last edge first.
fn settle_all<C: Cells, const K: usize>(
    table: &mut C,
    ends: &[[u32; K]],
    positions: &[u32],
    targets: &[u32],
    modulus: &Divisor,
    all_at_once: bool,
)
    requires small { K ≤ 3 }
    requires few { length ends.now ≤ CHUNK }
    requires ready { AreReady K (C.bound_of table.old) (C.cells table.old) modulus.now (edge_parts ends.now positions.now targets.now) }
    ensures bound { C.bound_of table.new ≡ C.bound_of table.old }
    ensures cells { (p : Plan) (chunk : List ℕ) → AreOf p chunk modulus.now (edge_parts ends.now positions.now targets.now) → C.cells table.new ≡ (if all_at_once then at_once p (C.cells table.old) chunk else one_by_one p (C.cells table.old) chunk) }
{
    if all_at_once {
        settle_at_once(table, ends, positions, targets, modulus);
    } else {
        settle_each(table, ends, positions, targets, modulus);
    }
}

/// Whether a chunk of the order is settled at once, in a table of this many cells: there are many, and its edges are of one round.
fn is_at_once<const K: usize>(cells: u32, peeled: &Peeled<K>, chunk: &[u32]) -> bool
    requires some { 0 < length chunk.now }
    requires places { All (λ e. e < length peeled.now.parities) chunk.now }
    ensures { IsTrue result ↔ ((MANY ≤ cells) × All (λ e. slice_index peeled.now.parities e ≡ slice_index peeled.now.parities (slice_index chunk.now 0)) chunk.now) }
{
    if cells < MANY {
        return false;
    }
    let parity = peeled.parity(chunk[0]);
    for e in chunk {
        if peeled.parity(*e) != parity {
            return false;
        }
    }
    true
}

/// Sets the cells of a chunk of edges, the last edge first.
fn settle_chunk<S: Scheme<K>, const K: usize>(
    table: &mut S::Table,
    scheme: &S,
    edges: &Edges<K>,
    peeled: &Peeled<K>,
    tags: &[u32],
    chunk: &[u32],
)
    requires peeling { IsPeelingOf edges.now.edges peeled.now }
    requires empty { rest_of edges.now.edges ≡ [] }
    requires many { IsCount (length edges.now.edges) }
    requires few { (0 < length chunk.now) × (length chunk.now ≤ CHUNK) }
    requires part { IsPart (order_of edges.now.edges) chunk.now }
    requires places { All (λ e. e < length edges.now.edges) chunk.now }
    requires bound { S.Table.bound_of table.old ≡ (S.rule scheme.now).bound (length edges.now.edges) }
    requires long { length (S.Table.cells table.old) ≡ edges.now.vertices }
    ensures bound { S.Table.bound_of table.new ≡ S.Table.bound_of table.old }
    ensures cells { S.Table.cells table.new ≡ one_by_one (plan_of (S.rule scheme.now) edges.now.vertices edges.now.edges tags.now) (S.Table.cells table.old) chunk.now }
{
    let mut ends = [[0; K]; CHUNK];
    let mut positions = [0; CHUNK];
    let mut targets = [0; CHUNK];
    let modulus = Divisor::new(scheme.modulus(edges.len()));
    let ends = &mut ends[..chunk.len()];
    let positions = &mut positions[..chunk.len()];
    let targets = &mut targets[..chunk.len()];
    edges.gather(chunk, ends);
    look_up(scheme, peeled, tags, chunk, positions, targets);
    let all_at_once = is_at_once(table.len(), peeled, chunk);
    settle_all(table, ends, positions, targets, &modulus, all_at_once);
}

/// The cells of a graph whose residual graph is empty. The tags are those of the edges, in order; an edge past the last of them has tag
/// 0. The number of edges is the number of keys.
pub fn assign<S: Scheme<K>, const K: usize>(
    alloc: Global,
    scheme: &S,
    edges: &Edges<K>,
    peeled: &Peeled<K>,
    tags: &[u32],
) -> Result<S::Table, AllocError>
    requires peeling { IsPeelingOf edges.now.edges peeled.now }
    requires empty { rest_of edges.now.edges ≡ [] }
    requires many { IsCount (length edges.now.edges) }
    ensures bound { IfOk result (λ t. S.Table.bound_of t ≡ (S.rule scheme.now).bound (length edges.now.edges)) }
    ensures cells { IfOk result (λ t. S.Table.cells t ≡ cells_of (plan_of (S.rule scheme.now) edges.now.vertices edges.now.edges tags.now)) }
    ensures solved { IfOk result (λ t. AreSolved (plan_of (S.rule scheme.now) edges.now.vertices edges.now.edges tags.now) (S.Table.cells t)) }
{
    let m = edges.len();
    let mut table = filled::<S::Table>(alloc, edges.vertices(), scheme.bound(m), scheme.idle())?;
    let order = peeled.order();
    let mut at = order.len();
    'chunks: while at > 0 {
        let count = CHUNK.min(at);
        at -= count;
        let chunk = &order[at..at + count];
        settle_chunk(&mut table, scheme, edges, peeled, tags, chunk);
    }
    Ok(table)
}
