//! Peeling and its result.
ghost use Rattle.std.specs.Prelude.{◌≡◌, ℕ, ◌+◌, ◌*◌, ◌<◌, ◌≤◌, [], length, IfOk, slice_index};
ghost use Rattle.cm_spec.specs.Core.{IsCore};
ghost use Rattle.cm_spec.specs.Rounds.{level_of};
ghost use Rattle.cm_peel.specs.Peeling.{IsPeelingOf, levels_of, untaken_of};
ghost use Rattle.cm_spec.specs.declared.limits.TheConstants.{MAX_EDGES};

use crate::blocks::count_blocks;
use crate::chunk::{CHUNK_ENDS, Scratch, UNTAKEN};
use crate::round::{advance, begin};
use crate::tables::{Round, Tables};
use cm_graph_edges::{Edges, Incidence, Steps};
use std::alloc::{AllocError, Global};
use std::marker::Model;
use std::sync::ledger::Ledger;

/// The removed edges in order, the level of each edge if levels are kept, the pivot of each removed edge, and the edges of the residual
/// graph. The byte of an edge that the round after r rounds removed is `4 * (r % 2)` and its pivot's position; that of each other edge
/// is `UNTAKEN` or more.
#[derive(Drop)]
pub struct Peeled<const K: usize> {
    order: Vec<u32>,
    levels: Vec<u32>,
    bytes: Vec<u8>,
    rest: Vec<u32>,
}

impl<const K: usize> Model for Peeled<K> {
    ghost use Rattle.cm_peel.specs.Peeling.{Peeling, parities_in, pivots_in};

    ghost Value = { Peeling };

    ghost view = { λ p. record { order = p.order.items; levels = p.levels.items; pivots = pivots_in p.bytes.items; parities = parities_in p.bytes.items; rest = p.rest.items } };
}

impl<const K: usize> Peeled<K> {
    /// The removed edges, by their rounds, and inside a round by rising number.
    pub fn order(&self) -> &[u32]
        ensures { result.now ≡ self.now.order }
    {
        &self.order
    }

    /// The edges of the residual graph, by rising number.
    pub fn rest(&self) -> &[u32]
        ensures { result.now ≡ self.now.rest }
    {
        &self.rest
    }

    /// The round that removed the edge, from 1, or 0 if it is in the residual graph. Levels have to be kept.
    pub fn level(&self, e: u32) -> u32
        requires { e < length self.now.levels }
        ensures { result ≡ slice_index self.now.levels e }
    {
        self.levels[e as usize]
    }

    /// The position, from 0, of a removed edge's pivot among its ends.
    pub fn pivot(&self, e: u32) -> u32
        requires { e < length self.now.pivots }
        ensures { result ≡ slice_index self.now.pivots e }
    {
        (self.bytes[e as usize] % 4) as u32
    }

    /// The parity, 0 or 1, of the number of rounds before the one that removed the edge. Two edges that follow each other in the order are
    /// of one round exactly if they have the same.
    pub fn parity(&self, e: u32) -> u32
        requires { e < length self.now.parities }
        ensures { result ≡ slice_index self.now.parities e }
    {
        (self.bytes[e as usize] / 4 % 2) as u32
    }
}

/// The edges that aren't taken by rising number. There are `many`.
fn untaken(alloc: Global, bytes: &Vec<u8>, many: usize) -> Result<Vec<u32>, AllocError>
    requires few { length bytes.now.items ≤ MAX_EDGES }
    requires many { many ≡ length (untaken_of bytes.now.items) }
    ensures { IfOk result (λ v. v.items ≡ untaken_of bytes.now.items) }
{
    let mut list = vec![in alloc; 0; many]?;
    let mut at = 0;
    let mut e = 0;
    // Each edge is written, and the next one over it if it is taken, so that no branch depends on that.
    'edges: while at < many {
        list[at] = e;
        at += (bytes[e as usize] >= UNTAKEN) as usize;
        e += 1;
    }
    Ok(list)
}

/// Peels the edges by rounds, and notes the level of each in `levels`, which has a 0 for each edge, or is empty.
fn peel_noting<const K: usize, I: Incidence<K> + Drop, L: Ledger>(
    alloc: Global,
    edges: &Edges<K>,
    mut levels: Vec<u32>,
    steps: &mut Steps<L>,
) -> Result<Peeled<K>, AllocError>
    requires kept { 0 < length levels.items → length levels.items ≡ length edges.now.edges }
    requires levels { (e : ℕ) → e < length levels.items → slice_index levels.items e ≡ 0 }
    ensures peeling { IfOk result (IsPeelingOf edges.now.edges) }
    ensures levels { IfOk result (λ p. (length p.levels ≡ length levels.items) × ((e : ℕ) → e < length levels.items → slice_index p.levels e ≡ level_of edges.now.edges e)) }
    ensures core { IfOk result (λ p. IsCore edges.now.edges p.rest) }
    ensures steps { steps.new ≤ steps.old + 8 * (K * length edges.now.edges) }
{
    let m = edges.len();
    let mut incidence = I::from_edges(alloc, edges, steps)?;
    let mut bytes = vec![in alloc; UNTAKEN; m as usize]?;
    let mut order = vec![in alloc; 0; m as usize + CHUNK_ENDS]?;
    let mut end = begin(
        edges,
        &incidence,
        &mut levels,
        &mut bytes,
        &mut order,
        steps,
    );
    let marks = vec![in alloc; 0; m.div_ceil(64) as usize]?;
    let blocks = count_blocks(edges.vertices() as usize);
    let counts = vec![in alloc; 0; blocks]?;
    let mut tables = Tables::<K> {
        levels,
        bytes,
        marks,
        counts,
        scratch: Scratch::<K>::new(),
    };
    let mut start = 0;
    let mut rounds = 0;
    'rounds: while start < end {
        let (done, room) = order.split_at_mut(end);
        let round = Round {
            edges: &done[start..],
            before: rounds,
        };
        let count = advance(edges, &mut incidence, round, &mut tables, room, steps);
        start = end;
        end += count;
        rounds += 1;
    }
    order.truncate(end);
    let rest = untaken(alloc, &tables.bytes, m as usize - end)?;
    Ok(Peeled {
        order,
        levels: tables.levels,
        bytes: tables.bytes,
        rest,
    })
}

/// Peels the edges by rounds. A round removes all edges that have an end of degree one when it begins. Accesses vertices at most `8 *
/// K` times for each edge.
pub fn peel<const K: usize, I: Incidence<K> + Drop, L: Ledger>(
    alloc: Global,
    edges: &Edges<K>,
    steps: &mut Steps<L>,
) -> Result<Peeled<K>, AllocError>
    ensures peeling { IfOk result (IsPeelingOf edges.now.edges) }
    ensures levels { IfOk result (λ p. p.levels ≡ levels_of edges.now.edges) }
    ensures long { IfOk result (λ p. length p.levels ≡ length edges.now.edges) }
    ensures core { IfOk result (λ p. IsCore edges.now.edges p.rest) }
    ensures steps { steps.new ≤ steps.old + 8 * (K * length edges.now.edges) }
{
    let levels = vec![in alloc; 0; edges.len() as usize]?;
    peel_noting::<K, I, L>(alloc, edges, levels, steps)
}

/// Peels the edges as `peel` does, but keeps no levels: that takes 4 bytes an edge less.
pub fn peel_without_levels<const K: usize, I: Incidence<K> + Drop, L: Ledger>(
    alloc: Global,
    edges: &Edges<K>,
    steps: &mut Steps<L>,
) -> Result<Peeled<K>, AllocError>
    ensures peeling { IfOk result (IsPeelingOf edges.now.edges) }
    ensures levels { IfOk result (λ p. p.levels ≡ []) }
    ensures core { IfOk result (λ p. IsCore edges.now.edges p.rest) }
    ensures steps { steps.new ≤ steps.old + 8 * (K * length edges.now.edges) }
{
    peel_noting::<K, I, L>(alloc, edges, Vec::new(alloc), steps)
}
