//! The seeds of a list, one after another: passes over keys, the graph under a seed, and the cells or the certificate.
#![tactic(auto)]

mod fault;
mod passes;
mod seeds;

pub use crate::fault::BuildFault;
pub use crate::passes::count_all;
pub use crate::seeds::{Left, attempt, build_first, build_later, build_with, certify};
