//! Filters of keys: the program whose arguments ask for a filter over the keys of a file, or for the keys of a file that hold in one.
#![tactic(auto)]

mod building;
mod files;
mod laws;
mod program;
mod testing;
mod top;

pub use crate::files::{BadFilter, FilterFile};
pub use crate::program::PROGRAM;
pub use crate::top::filter_run;
pub use cm_filter_file::{FilterFault, load_filter, save_filter};
pub use cm_filter_words::{FilterBuild, FilterJob, FilterTest};
pub use cm_tool_stops::report_no_memory;
