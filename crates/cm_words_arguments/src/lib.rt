//! What programs share of reading their arguments: the command that parses them, what was found, and what is wrong with them.
#![tactic(auto)]

mod arguments;
mod builds;
pub mod examples;
mod fault;
mod files;
mod reading;
mod texts;
mod values;

pub use arguments::{build_command, command};
pub use builds::{BuildValues, build_values};
pub use fault::UsageFault;
pub use files::{Files, job_files};
pub use reading::{Reader, read};
pub use texts::{Text, copy, path_or};
pub use values::{counted, end, flag, text};
