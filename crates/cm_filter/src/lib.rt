//! The membership filter: a key of the set always holds, and of the other keys one in `2^w`. It keeps `w` bits for each vertex of BDZ's
//! graph (Botelho, Pagh, Ziviani 2007), as a Bloomier filter does (Chazelle, Kilian, Rubinfeld, Tal 2004; Graf, Lemire 2020, "Xor
//! Filters").
#![tactic(auto)]

mod answers;
pub mod examples;
mod filter;
mod laws;
mod limits;
mod scheme;

pub use crate::filter::Filter;
pub use crate::laws::keys_hold;
pub use crate::limits::{MAX_FINGERPRINT, MIN_FINGERPRINT, of_fingerprints};
pub use crate::scheme::FilterScheme;
