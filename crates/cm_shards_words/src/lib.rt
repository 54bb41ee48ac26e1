//! The arguments of the command line of `cmph_shards`, read as a job, and what its jobs note of files.
#![tactic(auto)]

mod arguments;
pub mod examples;
mod files;
mod jobs;
mod noting;
mod program;
mod reading;
mod texts;
mod values;

pub use cm_route::MAX_SHARDS;
pub use cm_words_arguments::{Text, UsageFault};
pub use jobs::{AskJob, JoinJob, ShardsJob, SplitJob};
pub use noting::{
    note_bad_dump, note_file, note_line, note_long_line, note_many_lines, note_no_memory,
    note_unread, note_unwritten, report_overwriting,
};
pub use program::PROGRAM;
pub use reading::read_words;
pub use texts::Texts;
