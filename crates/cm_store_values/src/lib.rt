//! The keys of a pass that have a value in a store, written as lines, with notes of the others.
#![tactic(auto)]

mod lines;
mod program;
mod values;

pub use crate::program::PROGRAM;
pub use crate::values::write_values;
