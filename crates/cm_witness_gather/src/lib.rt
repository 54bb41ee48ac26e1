//! Why no seed works: what is said of that, the edges of a 2-core, and which of its keys are equal.
#![tactic(auto)]

mod candidates;
mod certificate;
mod failure;
mod firsts;
mod gathering;
mod laws;
mod report;
mod table;

pub use candidates::count_candidates;
pub use certificate::{Certificate, CoreEdge, GatherFault, InBucket, Pair};
pub use cm_algo_names::Algorithm;
pub use failure::SeedFailure;
pub use firsts::{EqualKeys, equal_pairs};
pub use gathering::{core_edge, gather, gather_with, read_key};
pub use laws::{each_paired, reports};
pub use report::{append, append_number, write_pairs};
