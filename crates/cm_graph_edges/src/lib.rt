//! Edges over vertices, what an incidence of them is, and a counter of steps.
#![tactic(auto)]

mod edges;
mod incidence;
mod steps;

pub use crate::edges::{EdgeList, Edges};
pub use crate::incidence::{Half, Incidence};
pub use crate::steps::Steps;
