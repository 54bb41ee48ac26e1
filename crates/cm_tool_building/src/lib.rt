//! The driver of builds: something is made of the keys of a file and saved as another, or what shows why not is printed.
#![tactic(auto)]

mod builder;
mod building;
mod driving;
mod fault;
mod saved;
mod storing;

pub use crate::builder::Builder;
pub use crate::building::{BuildFiles, stop_of};
pub use crate::driving::build;
pub use crate::fault::Fault;
pub use crate::saved::Saved;
pub use crate::storing::store_file;
