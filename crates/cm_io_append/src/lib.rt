//! Disks that can append to a file, and the first bytes of a source.
#![tactic(auto)]

mod append_disk;
mod whole;

pub use append_disk::AppendDisk;
pub use whole::read_prefix;
