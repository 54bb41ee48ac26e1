//! Queries: the keys of a pass with the answers of a function, as text, with notes of unknown keys and of repeated answers.
#![tactic(auto)]

mod answering;
mod laws;
mod marks;
mod summing;
mod tally;
mod writing;

pub use crate::answering::query;
pub use crate::laws::{front_of_text, noted_exactly, worked_rows};
pub use crate::summing::sum_answers;
pub use crate::tally::Tally;
pub use crate::writing::write_line;
pub use cm_query_batch::QueryFault;
