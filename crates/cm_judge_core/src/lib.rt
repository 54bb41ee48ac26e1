//! Whether the edges and pairs of a report are those of a 2-core of the keys of a pass.
#![tactic(auto)]

mod comparing;
mod edges;
mod touching;
mod two_core;
mod walking;

pub use crate::comparing::first_apart;
pub use crate::two_core::core_verdict;
