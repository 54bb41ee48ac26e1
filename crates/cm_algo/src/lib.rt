//! Builds: from a pass of keys to the cells of the first seed that works, for any scheme, any table and any incidence.
#![tactic(auto)]

mod builds;
mod laws;

pub use crate::builds::build;
pub use crate::laws::equal_keys_are_left;
pub use cm_algo_cells::assign;
pub use cm_algo_scheme::{Answers, Built, Divisor, Place, Scheme, answer};
pub use cm_algo_seeds::{BuildFault, build_with, count_all};
