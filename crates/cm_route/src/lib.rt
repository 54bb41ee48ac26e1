//! The shard of a key, if keys are split into shards by a hash.
#![tactic(auto)]

pub mod laws;
mod route;

pub use crate::route::{MAX_SHARDS, ROUTE_SEED, Route};
