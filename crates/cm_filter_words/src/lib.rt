//! The arguments of the command line of `cmph_filter`, read as a job.
#![tactic(auto)]

pub mod examples;
mod jobs;
mod reading;
mod values;

pub use cm_words_arguments::{Text, UsageFault};
pub use jobs::{FilterBuild, FilterJob, FilterTest};
pub use reading::read_words;
