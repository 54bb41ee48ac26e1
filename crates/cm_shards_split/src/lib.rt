//! The split of a keys file: each line goes into the file of its shard.
#![tactic(auto)]

mod counts;
mod creating;
mod distinct;
mod driving;
pub mod examples;
mod finishing;
pub mod laws;
mod overwriting;
mod part;
mod parts;
mod paths;
mod reporting;
mod splitting;
mod stop;
mod streaming;
mod waiting;

pub use crate::driving::split_job;
pub use crate::stop::SplitStop;
pub use cm_shards_words::SplitJob;
