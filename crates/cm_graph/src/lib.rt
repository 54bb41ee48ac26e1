//! Incidences: which edges are linked, kept as chains or as xors of half-edges.
#![tactic(auto)]

mod blocks;
mod halves;
pub mod linked;
mod narrow;
mod slots;
mod wide;
pub mod xored;

pub use crate::linked::Linked;
pub use crate::xored::Xored;
pub use cm_graph_edges::{EdgeList, Edges, Half, Incidence, Steps};
