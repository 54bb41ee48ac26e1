//! The generated keys of a test, as a source.
#![tactic(auto)]

pub mod laws;
mod lines;
mod made_keys;

pub use made_keys::MadeKeys;
