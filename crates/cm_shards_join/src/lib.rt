//! The join of function files into a manifest.
#![tactic(auto)]

mod counting;
mod distinct;
mod driving;
pub mod examples;
mod inputs;
mod making;
mod reporting;
mod stop;
mod storing;
mod taking;

pub use crate::driving::join_job;
pub use crate::stop::JoinStop;
pub use cm_shards_words::JoinJob;
