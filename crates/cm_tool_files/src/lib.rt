//! Function files: functions that are saved, loaded, asked for keys and upgraded.
#![tactic(auto)]

mod asked;
mod reloading;
mod storing;
mod upgrading;

pub use crate::asked::AskedFunc;
pub use crate::reloading::reload;
pub use crate::storing::FuncFile;
pub use crate::upgrading::upgrade_file;
