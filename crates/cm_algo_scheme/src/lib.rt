//! Schemes: from the hash values of a key to an edge, and what its cells add up to; and what a function from keys to numbers is.
#![tactic(auto)]

mod answers;
mod built;
mod divisor;
mod scheme;

pub use crate::answers::{Answers, MOST_PLACES, Place, answer};
pub use crate::built::Built;
pub use crate::divisor::Divisor;
pub use crate::scheme::Scheme;
