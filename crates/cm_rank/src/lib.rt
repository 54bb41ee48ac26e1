//! Ranks: how many of the first cells of a table are not idle, by samples and a short count.
#![tactic(auto)]

mod after;
mod counted;
mod lent;
mod table;
mod words;

pub use crate::counted::Counted;
pub use crate::lent::{LentRanks, first_bad_rank};
pub use crate::table::RankTable;
