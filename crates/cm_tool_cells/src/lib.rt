//! The cells of keys under the first seed that works, by any scheme, and what that comes to for the driver of builds.
#![tactic(auto)]

mod cells;
mod making;
mod recipe;
mod report;
mod tries;

pub use crate::cells::build_by;
pub use crate::making::make_cells;
pub use crate::recipe::Recipe;
pub use crate::report::CoreReport;
pub use crate::tries::seeds;
