//! The function of any algorithm, built over any pass of keys.
#![tactic(auto)]

mod fault;
mod functions;
mod plan;

pub use crate::fault::FuncFault;
pub use crate::functions::func_of;
pub use crate::plan::Plan;
