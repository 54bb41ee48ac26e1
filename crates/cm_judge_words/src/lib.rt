//! The arguments of the command line of `cmph_judge`, read as a job.
#![tactic(auto)]

mod arguments;
pub mod examples;
mod job;
mod reading;
mod values;

pub use cm_words_arguments::{Text, UsageFault};
pub use job::JudgeJob;
pub use reading::read_words;
