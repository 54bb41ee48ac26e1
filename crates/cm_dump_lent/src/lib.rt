//! The function that the bytes of a dump are, in these bytes: nothing is copied, and no memory is taken.
#![tactic(auto)]

mod answers;
mod bodies;
mod lent;
mod opening;
mod ranks;

pub use crate::lent::Lent;
pub use crate::opening::open;
pub use cm_dump_brz::OpenFault;
