//! CHM (Czech, Havas, Majewski 1992): the number of a key is the sum of two cells, modulo the number of keys.
#![tactic(auto)]

mod answers;
mod chm;
mod laws;
mod lent;
mod lent_answers;
mod scheme;

pub use crate::chm::Chm;
pub use crate::laws::answers_numbers;
pub use crate::lent::{ChmParts, LentChm};
pub use crate::scheme::ChmScheme;
