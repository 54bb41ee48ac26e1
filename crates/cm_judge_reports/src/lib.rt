//! The judge of reports: whether a report of a refused build is true, by its keys.
#![tactic(auto)]

mod bucket;
mod fault;
mod judging;
mod overfull;

pub use crate::fault::JudgeFault;
pub use crate::judging::judge;
pub use cm_judge_verdict::{Reason, Settings, Verdict};
