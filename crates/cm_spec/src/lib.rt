//! What the builder computes, as definitions that contracts cite. Here they run on worked examples: each function has an empty
//! body, and its clauses are checked by the prover.
#![tactic(auto)]

pub mod examples;
pub mod limits;

pub use limits::{
    MAX_BUCKET, MAX_EDGES, MAX_KEYS, MAX_RATIO, MAX_VERTICES, MAX_WIDTH, MIN_RATIO, MIN_WIDTH,
};
