//! Perfect hash functions for programs in C, and in languages that call C: a function is read in the bytes of its file, which the caller
//! keeps, and built in memory of the caller's. Nothing is owned, so nothing is closed.
//!
//! Each call returns a code, `OK` or why not, and its other results go into memory of the caller's, which stays as it was if the code is
//! another. The calls may run at the same time.
#![tactic(auto)]

mod answering;
mod building;
mod codes;
mod function;
pub mod laws;
mod opening;
mod routing;
mod spilling;
mod version;

pub use crate::answering::{cmph_c_answer, cmph_c_answers};
pub use crate::building::{Plan, cmph_c_build, cmph_c_room};
pub use crate::codes::Place;
pub use crate::function::Function;
pub use crate::opening::cmph_c_open;
pub use crate::routing::cmph_c_route;
pub use crate::spilling::cmph_c_build_brz;
pub use crate::version::cmph_c_version;
