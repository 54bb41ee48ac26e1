//! Records of a spill: keys with their lines, put in any order of their buckets, and read back bucket by bucket. A buffer of a fixed size
//! holds the records that wait; each time it is full they are appended to the spill as a sorted run.
#![tactic(auto)]

mod ahead;
mod fault;
mod header;
pub mod laws;
mod lookup;
mod run;
mod runs;
mod segments;
mod waiting;

pub use fault::SpillError;
pub use runs::{MAX_BYTES, MIN_BYTES, Runs};
