//! The name of the program.

/// The name of the program, with which each of its messages begins.
pub const PROGRAM: &str = "cmph_shards";
