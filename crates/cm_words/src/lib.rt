//! The arguments of the command line of `cmph`, read as a job.
#![tactic(auto)]

mod arguments;
pub mod examples;
mod jobs;
mod reading;
mod values;

pub use cm_words_arguments::{Text, UsageFault};
pub use cm_words_values::{LINE_FEED, ZERO_BYTE, millionths, whole};
pub use jobs::{BuildJob, Job, QueryJob, TestJob, UpgradeJob};
pub use reading::read_words;
