//! Functions of keys in lent memory: built into lent room, whose length is known before, and the numbers of many keys, or their shards, put
//! into it.
#![tactic(auto)]

mod building;
mod disk;
mod numbers;
mod room;
mod spill;

pub use crate::building::{LentFault, build_brz_into, build_into};
pub use crate::numbers::{NONE, answers_into, number_or_none};
pub use crate::room::{dump_len, dumps_fit};
pub use cm_route::Route;
