//! The functions of all algorithms, and their answers.
#![tactic(auto)]

mod answers;
mod function;

pub use crate::function::Func;
