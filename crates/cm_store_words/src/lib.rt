//! The arguments of the command line of `cmph_store`, read as a job.
#![tactic(auto)]

pub mod examples;
mod jobs;
mod reading;
mod values;

pub use cm_words_arguments::{Text, UsageFault};
pub use jobs::{StoreBuild, StoreJob, StoreLook};
pub use reading::read_words;
