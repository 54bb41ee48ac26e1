//! A round, and the tables that a peel keeps from round to round.
use crate::chunk::Scratch;

/// The edges of a round.
#[derive(Clone, Copy)]
pub(crate) struct Round<'a> {
    /// By rising number.
    pub(crate) edges: &'a [u32],
    /// How many rounds went before.
    pub(crate) before: u32,
}

/// The tables of a peel. It makes them once.
#[derive(Drop)]
pub(crate) struct Tables<const K: usize> {
    /// The level of each edge. Empty if levels aren't kept.
    pub(crate) levels: Vec<u32>,
    /// The byte of each edge, as in `Peeled`.
    pub(crate) bytes: Vec<u8>,
    /// A bit for each edge. No edge is marked between rounds.
    pub(crate) marks: Vec<u64>,
    /// How many half-edges wait for each block of vertices. Empty if there are no blocks. No half-edge waits between rounds.
    pub(crate) counts: Vec<u32>,
    /// What is read of a chunk.
    pub(crate) scratch: Scratch<K>,
}
