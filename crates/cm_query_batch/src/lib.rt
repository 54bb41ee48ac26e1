//! Batches: the keys of a pass, looked up several at a time, and read one after another with their lines and their answers; and where a
//! query of a pass stops.
#![tactic(auto)]

mod batch;
mod fault;
mod taken;

pub use crate::batch::Batch;
pub use crate::fault::QueryFault;
pub use crate::taken::MOST_KEYS;
