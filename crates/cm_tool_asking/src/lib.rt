//! The driver of queries: a file is loaded, and asked for the keys of another.
#![tactic(auto)]

mod asked;
mod asking;
mod driving;
mod loading;
mod unloaded;

pub use crate::asked::Asked;
pub use crate::asking::AskFiles;
pub use crate::driving::ask;
pub use crate::loading::load_file;
pub use crate::unloaded::Unloaded;
