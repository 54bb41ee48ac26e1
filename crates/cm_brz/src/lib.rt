//! Builds by BRZ (Botelho, Pagh, Ziviani 2007): keys are split into buckets, and each bucket gets a function by BDZ of its own.
#![tactic(auto)]

mod buckets;
pub mod build;
mod building;
pub mod examples;
mod laws;
mod report;

pub use crate::laws::{keys_determine_results, numbers_apart};
pub use crate::report::write_overfull;
pub use cm_brz_func::{Brz, BrzParts, MAX_BUCKET, MAX_WIDTH, MIN_WIDTH};
pub use cm_brz_split::BrzFault;
pub use cm_spill::{MAX_BYTES, MIN_BYTES};
