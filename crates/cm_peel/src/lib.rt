//! Peeling of edges by rounds, and its residual graph: the 2-core.
#![tactic(auto)]

mod blocks;
mod chunk;
mod freed;
pub mod laws;
mod marks;
pub mod peeled;
mod round;
mod tables;

pub use crate::laws::{empty_rest, rest_is_core};
pub use crate::peeled::{Peeled, peel, peel_without_levels};
