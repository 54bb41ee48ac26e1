//! The keys of a pass that hold in a membership filter, written as lines.
#![tactic(auto)]

mod lines;
mod members;

pub use crate::members::write_members;
