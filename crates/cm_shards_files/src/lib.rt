//! The functions of shards: one function file with its digest, all function files of a manifest, and the numbers of keys.
#![tactic(auto)]

pub mod examples;
mod fault;
mod file;
mod hashed;
pub mod laws;
mod loading;
mod reading;
mod shards;
mod taken;

pub use crate::fault::ShardsFault;
pub use crate::file::{FunctionFile, algorithm_of, is_by, keys_of, read_function};
pub use crate::loading::load_shards;
pub use crate::reading::read_start;
pub use crate::shards::Shards;
pub use crate::taken::{MOST_KEYS, ShardKeys};
