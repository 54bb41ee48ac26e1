//! The outside of a program on a real system: its arguments, files, and sinks over std's writers.
#![tactic(auto)]

mod file_disk;
mod file_spill;
mod std_sink;
mod words;

pub use file_disk::{FileDisk, FileReader};
pub use file_spill::FileSpill;
pub use std_sink::{StdSink, room};
pub use words::words_of;
