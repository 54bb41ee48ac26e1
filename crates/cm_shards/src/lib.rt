//! Shards: the program whose arguments ask for the split of a keys file, for the join of function files, or for the numbers of the keys of a
//! file by the functions that were joined.
#![tactic(auto)]

pub mod laws;
mod top;

pub use crate::top::shards_run;
pub use cm_shards_words::{AskJob, JoinJob, PROGRAM, ShardsJob, SplitJob};
pub use cm_tool_stops::report_no_memory;
