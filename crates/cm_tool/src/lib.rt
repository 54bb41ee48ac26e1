//! What the program `cmph` does, as one call over a disk and two sinks.
#![tactic(auto)]

mod building;
mod built;
mod laws;
mod plan;
mod program;
mod querying;
mod reports;
mod testing;
mod texts;
mod top;
mod upgrading;

pub use crate::program::PROGRAM;
pub use crate::texts::{print_help, print_version};
pub use crate::top::run;
pub use cm_keys_made::MadeKeys;
pub use cm_tool_stops::report_no_memory;
