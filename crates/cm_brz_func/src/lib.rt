//! Functions by BRZ (Botelho, Pagh, Ziviani 2007): keys split into buckets, each with a function by BDZ of its own.
#![tactic(auto)]

mod answers;
mod brz;
mod buckets;
mod held;
mod laws;
mod parts;

pub use crate::brz::Brz;
pub use crate::buckets::{bucket_of_hashed, flip};
pub use crate::laws::answers_apart;
pub use crate::parts::BrzParts;
pub use cm_bdz::PartsFault;
pub use cm_spec::{MAX_BUCKET, MAX_WIDTH, MIN_WIDTH};
