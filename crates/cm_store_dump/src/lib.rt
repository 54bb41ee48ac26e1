//! Record stores: the program whose arguments ask for a store of the lines of a file, or for the values of the keys of a file in one.
#![tactic(auto)]

mod building;
mod files;
mod laws;
mod looking;
mod making;
mod top;

pub use crate::files::{BadStore, StoreFile};
pub use crate::making::make_store;
pub use crate::top::store_run;
pub use cm_store_file::{StoreLoad, load_store, save_store};
pub use cm_store_values::PROGRAM;
pub use cm_store_words::{StoreBuild, StoreJob, StoreLook};
pub use cm_tool_stops::report_no_memory;
