//! The outside as a program sees it, as traits: sources, sinks, spills, a disk, and a pass over keys; and notes to a sink.
#![tactic(auto)]

mod disk;
mod fault;
mod key_pass;
pub mod laws;
mod notes;
mod pass_fault;
mod sink;
mod source;
mod spill;

pub use cm_spec::MAX_KEYS;
pub use disk::Disk;
pub use fault::{DiskFault, Failed};
pub use key_pass::{KeyBuf, KeyFault, KeyPass, MAX_KEY_LEN};
pub use notes::Notes;
pub use pass_fault::{PassFault, expect_end};
pub use sink::{Sink, write_pieces};
pub use source::Source;
pub use spill::Spill;
