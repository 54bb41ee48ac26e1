//! The query of functions over shards, which writes the numbers of lines, and their test.
#![tactic(auto)]

mod asking;
mod batch;
mod driving;
mod examples;
mod laws;
mod marks;
mod printing;
mod querying;
mod reporting;
mod stop;
mod taking;
mod testing;
mod verdict;
mod writing;

pub use crate::driving::ask_job;
pub use crate::examples::{worked_replies, worked_texts, worked_verdicts};
pub use crate::laws::tested_numbers;
pub use crate::stop::{AskStop, LinesStop};
pub use crate::verdict::Verdict;
