//! The judge of reports: whether a report of a refused build is true, as a definition that computes, and when it is.
#![tactic(auto)]

mod laws;
mod verdict;

pub use crate::laws::{holds_if_true, worked_verdicts};
pub use crate::verdict::{Reason, Settings, Verdict};
