//! The algorithms, by their names in command lines and reports.
#![tactic(auto)]

mod algorithm;

pub use crate::algorithm::Algorithm;
