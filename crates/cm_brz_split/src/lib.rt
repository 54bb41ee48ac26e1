//! How keys are split into buckets for BRZ (Botelho, Pagh, Ziviani 2007), and how they wait there, in a spill.
#![tactic(auto)]

mod bucket_keys;
mod fault;
mod overfull;
mod putting;
mod runs;
mod split;
mod store;

pub use bucket_keys::BucketKeys;
pub use fault::BrzFault;
pub use overfull::gather_equal;
pub use putting::put_all;
pub use split::{Overfull, Split, Splitting, bucket_total, choose_split, narrowed};
pub use store::Store;
