//! The function by BRZ that the bytes of a dump are, in these bytes, with an index of its buckets in lent room.
#![tactic(auto)]

mod answers;
mod bucket;
mod fault;
mod items;
mod lent;
mod opening;

pub use crate::fault::OpenFault;
pub use crate::items::bytes_from;
pub use crate::lent::{LentBrz, LentBrzParts};
pub use crate::opening::open_brz;
