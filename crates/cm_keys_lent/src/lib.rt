//! Keys in one run of bytes, each with its end, as a pass: for keys that a caller has in memory.
#![tactic(auto)]

mod ends;
mod keys;

pub use crate::ends::EndsFault;
pub use crate::keys::LentKeys;
