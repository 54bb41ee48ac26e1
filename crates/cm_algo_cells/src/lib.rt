//! From a peeled graph to cells.
#![tactic(auto)]

mod cells;
mod laws;

pub use crate::cells::assign;
pub use crate::laws::cells_solve;
